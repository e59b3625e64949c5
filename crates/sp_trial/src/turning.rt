//! The turns of a trial, a step each.
ghost use Rattle.std.specs.Prelude.{◌≡◌, ◌-◌, ◌+◌, ◌^◌, ◌<◌, All};
ghost use Rattle.sp_prog.specs.Rules.{IsEvaluable};
ghost use Rattle.sp_trial.specs.Setup.{asserted_at};
ghost use Rattle.sp_trial.specs.Trials.{Ended, broken, Judges};
ghost use Rattle.sp_trial.specs.declared.outcome.Outcome.TheVariants.{Returned};
ghost use Rattle.sp_trial.specs.code.Courses.{evaluation, Advances, EndsWith, IsPlan, Turns};

use crate::judging::{Finding, judge};
use crate::outcome::{Outcome, Trial};
use crate::plan::Plan;
use crate::returning::is_return_step;
use crate::table::asserted_at;
use sp_machine::{Event, Machine};

/// What a turn comes to.
#[derive(Clone, Copy)]
pub enum Turn {
    /// The trial goes on; this is what the step did.
    GoesOn(Event),
    Ends(Trial),
    TooLong,
}

/// Evaluates the postconditions after a return step, the last of so many.
fn finish(plan: &Plan<'_>, machine: &Machine, steps: u64) -> Turn
    requires budget { plan.now.budget < 2 ^ 64 - 1 }
    requires evaluable { All IsEvaluable plan.now.routine.now.post }
    ensures { EndsWith (Judges (evaluation plan.now machine.now) plan.now.routine.now.post (broken steps) (λ b. b ≡ Ended Returned steps)) result }
{
    match judge(plan, machine, plan.routine.post.as_slice()) {
        Finding::AllTrue => Turn::Ends(Trial {
            outcome: Outcome::Returned,
            steps,
        }),
        Finding::FalseOn(line) => Turn::Ends(Trial {
            outcome: Outcome::Broken(line),
            steps,
        }),
        Finding::TooLong => Turn::TooLong,
    }
}

/// Takes a step after so many, `input` being the next one, where what is asserted is true.
fn advance(plan: &Plan<'_>, machine: &mut Machine, input: u8, steps: u64) -> Turn
    requires plan { IsPlan plan.now }
    requires budget { plan.now.budget < 2 ^ 64 - 1 }
    requires evaluable { All IsEvaluable plan.now.routine.now.post }
    requires steps { steps < 2 ^ 64 - 1 }
    ensures { Advances plan.now machine.old input steps machine.new result }
{
    let returns = is_return_step(machine, plan.frame.base);
    let event = machine.step(input);
    if let Event::Stuck(byte) = event {
        return Turn::Ends(Trial {
            outcome: Outcome::Stuck(byte),
            steps,
        });
    }
    if returns {
        return finish(plan, machine, steps + 1);
    }
    if machine.halted() {
        return Turn::Ends(Trial {
            outcome: Outcome::Halted,
            steps: steps + 1,
        });
    }
    Turn::GoesOn(event)
}

/// Evaluates what is asserted after so many steps, and then takes one more.
pub fn take_turn(plan: &Plan<'_>, machine: &mut Machine, input: u8, steps: u64) -> Turn
    requires plan { IsPlan plan.now }
    requires budget { plan.now.budget < 2 ^ 64 - 1 }
    requires post { All IsEvaluable plan.now.routine.now.post }
    requires asserts { All IsEvaluable (asserted_at plan.now.routine.now.code machine.now.pc) }
    requires steps { steps < 2 ^ 64 - 1 }
    ensures { Turns plan.now machine.old input steps machine.new result }
{
    let asserts = asserted_at(plan.routine.code.as_slice(), plan.table, machine.pc());
    match judge(plan, machine, asserts) {
        Finding::AllTrue => advance(plan, machine, input, steps),
        Finding::FalseOn(line) => Turn::Ends(Trial {
            outcome: Outcome::Broken(line),
            steps,
        }),
        Finding::TooLong => Turn::TooLong,
    }
}
