ghost use Rattle.std.specs.Prelude.{◌≡◌, ◌-◌, ◌+◌, ◌^◌, ◌<◌, All, Some, length, slice_get};
ghost use Rattle.sp_machine.specs.Ports.{inputs_after};
ghost use Rattle.sp_prog.specs.declared.routine.Routine.{Routine};
ghost use Rattle.sp_prog.specs.Rules.{IsEvaluable, IsRoutine};
ghost use Rattle.sp_trial.specs.Setup.{asserted_at, setup};
ghost use Rattle.sp_trial.specs.Trials.{Answers, AnswersRun, GivesEach, GivesOne, MayEnter};
ghost use Rattle.sp_trial.specs.code.Courses.{AnswersEntered, IsLast, IsPlan, setup_of};
ghost use Rattle.sp_trial.specs.declared.outcome.Outcome.TheVariants.{NoEntry};

use crate::entry::{frame_of, may_enter};
use crate::judging::{Finding, judge};
use crate::outcome::{Outcome, Trial, TrialRefusal};
use crate::plan::Plan;
use crate::table::{asserted_at, table_of};
use crate::turning::{Turn, take_turn};
use sp_machine::{Event, Machine};
use sp_prog::{Routine, Unit};
use std::alloc::Global;

/// What an IN takes where no input is left.
const NO_INPUT: u8 = 255;

/// The inputs that are left after a step.
fn inputs_after(event: Event, inputs: &[u8]) -> &[u8]
    ensures { result.now ≡ inputs_after event inputs.now }
{
    match (event, inputs) {
        (Event::In(_), [_, rest @ ..]) => rest,
        _ => inputs,
    }
}

/// Evaluates what is asserted after the last step.
fn stop(plan: &Plan<'_>, machine: &Machine, steps: u64) -> Result<Trial, TrialRefusal>
    requires plan { IsPlan plan.now }
    requires budget { plan.now.budget < 2 ^ 64 - 1 }
    requires asserts { All IsEvaluable (asserted_at plan.now.routine.now.code machine.now.pc) }
    ensures { GivesOne plan.now.budget (IsLast plan.now machine.now steps) result }
{
    let asserts = asserted_at(plan.routine.code.as_slice(), plan.table, machine.pc());
    match judge(plan, machine, asserts) {
        Finding::AllTrue => Ok(Trial {
            outcome: Outcome::Running,
            steps,
        }),
        Finding::FalseOn(line) => Ok(Trial {
            outcome: Outcome::Broken(line),
            steps,
        }),
        Finding::TooLong => Err(TrialRefusal::TooLong(plan.budget + 1)),
    }
}

/// Runs the routine from its entry, at most n steps.
fn follow(plan: &Plan<'_>, inputs: &[u8], n: u64) -> Result<Trial, TrialRefusal>
    requires plan { IsPlan plan.now }
    requires rules { IsRoutine plan.now.unit.now plan.now.routine.now }
    requires budget { plan.now.budget < 2 ^ 64 - 1 }
    ensures { GivesOne plan.now.budget (AnswersRun (setup_of plan.now inputs.now) n) result }
{
    let mut machine = plan.entry.copy()?;
    let mut rest = inputs;
    for steps in 0..n {
        let input = rest.first().copied().unwrap_or(NO_INPUT);
        match take_turn(plan, &mut machine, input, steps) {
            Turn::GoesOn(event) => rest = inputs_after(event, rest),
            Turn::Ends(trial) => return Ok(trial),
            Turn::TooLong => return Err(TrialRefusal::TooLong(plan.budget + 1)),
        }
    }
    stop(plan, &machine, n)
}

/// That there is no entry.
fn no_entry() -> Trial
    ensures { result ≡ record { outcome = NoEntry; steps = 0 } }
{
    Trial {
        outcome: Outcome::NoEntry,
        steps: 0,
    }
}

/// Evaluates the preconditions at a start, and runs the routine where they are true.
fn enter(plan: &Plan<'_>, inputs: &[u8], n: u64) -> Result<Trial, TrialRefusal>
    requires plan { IsPlan plan.now }
    requires rules { IsRoutine plan.now.unit.now plan.now.routine.now }
    requires budget { plan.now.budget < 2 ^ 64 - 1 }
    ensures { GivesOne plan.now.budget (AnswersEntered plan.now inputs.now n) result }
{
    match judge(plan, plan.entry, plan.routine.pre.as_slice()) {
        Finding::AllTrue => follow(plan, inputs, n),
        Finding::FalseOn(_) => Ok(no_entry()),
        Finding::TooLong => Err(TrialRefusal::TooLong(plan.budget + 1)),
    }
}

/// Runs the routine from a machine that is an entry, its preconditions left out.
fn begin(plan: &Plan<'_>, inputs: &[u8], n: u64) -> Result<Trial, TrialRefusal>
    requires plan { IsPlan plan.now }
    requires rules { IsRoutine plan.now.unit.now plan.now.routine.now }
    requires budget { plan.now.budget < 2 ^ 64 - 1 }
    requires may { MayEnter (setup_of plan.now inputs.now) }
    ensures { GivesOne plan.now.budget (Answers (setup_of plan.now inputs.now) n) result }
{
    let told = enter(plan, inputs, n);
    told
}

/// The trial of a place's routine from a start.
fn try_from(
    alloc: Global,
    unit: &Unit,
    routine: usize,
    start: &Machine,
    inputs: &[u8],
    n: u64,
    budget: u64,
) -> Result<Trial, TrialRefusal>
    requires routine { routine < length unit.now.routines }
    requires budget { budget < 2 ^ 64 - 1 }
    ensures { (r : Routine) → slice_get unit.now.routines routine ≡ Some r
        → GivesOne budget (Answers (setup unit.now r start.now inputs.now budget) n) result }
{
    let chosen = &unit.routines.as_slice()[routine];
    if !may_enter(unit, chosen, start) {
        return Ok(no_entry());
    }
    let table = table_of(alloc, chosen.code.as_slice())?;
    let plan = Plan {
        unit,
        routine: chosen,
        entry: start,
        frame: frame_of(unit, chosen, start),
        table: &table,
        budget,
    };
    begin(&plan, inputs, n)
}

/// Runs the routine at a place of a unit from a machine, at most n steps. An IN takes the inputs in order, and 255 after
/// the last. The trial is `NoEntry` with 0 steps where the machine is no entry of the routine: its preconditions are looked
/// at last and in the order of their lines. At each state whose program counter is at an instruction of the routine what
/// is asserted there is evaluated, in the order of lines and before the steps are counted; after the return step the
/// postconditions are. The first that is false is `Broken`. The return step and a HLT count, a stuck step doesn't. Each
/// evaluation has the whole budget, which is below the greatest u64; the first that passes it is refused as `TooLong` with
/// the budget and 1.
pub fn trial(
    alloc: Global,
    unit: &Unit,
    routine: usize,
    start: &Machine,
    inputs: &[u8],
    n: u64,
    budget: u64,
) -> Result<Trial, TrialRefusal>
    requires routine { routine < length unit.now.routines }
    requires budget { budget < 2 ^ 64 - 1 }
    ensures gives { (r : Routine) → slice_get unit.now.routines routine ≡ Some r
        → GivesOne budget (Answers (setup unit.now r start.now inputs.now budget) n) result }
    // A trial has one answer, which is given unless memory runs out.
    ensures each { (r : Routine) → slice_get unit.now.routines routine ≡ Some r
        → GivesEach budget (Answers (setup unit.now r start.now inputs.now budget) n) result }
{
    let told = try_from(alloc, unit, routine, start, inputs, n, budget);
    told
}
