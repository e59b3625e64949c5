//! Annotations in the order of their lines.
ghost use Rattle.std.specs.Prelude.{◌-◌, ◌^◌, ◌<◌, All};
ghost use Rattle.sp_prog.specs.Rules.{IsEvaluable};
ghost use Rattle.sp_trial.specs.code.Courses.{evaluation, Finds, FindsOne};

use crate::plan::Plan;
use sp_base::Line;
use sp_eval::holds;
use sp_machine::Machine;
use sp_prog::Noted;

/// What evaluating annotations comes to.
#[derive(Clone, Copy)]
pub enum Finding {
    /// All are true within the budget.
    AllTrue,
    /// The first that isn't is false, and stands on this line.
    FalseOn(Line),
    /// The first that isn't has more nodes than the budget.
    TooLong,
}

/// Evaluates an annotation.
fn judge_one(plan: &Plan<'_>, now: &Machine, noted: &Noted) -> Finding
    requires budget { plan.now.budget < 2 ^ 64 - 1 }
    requires evaluable { IsEvaluable noted.now }
    ensures { FindsOne (evaluation plan.now now.now) noted.now result }
{
    match holds(&noted.note, plan.frame, plan.entry, now, plan.budget) {
        Ok(seen) if seen.value => Finding::AllTrue,
        Ok(_) => Finding::FalseOn(noted.line),
        Err(_) => Finding::TooLong,
    }
}

/// Evaluates annotations in order, up to the first that isn't true within the budget.
pub fn judge(plan: &Plan<'_>, now: &Machine, notes: &[Noted]) -> Finding
    requires budget { plan.now.budget < 2 ^ 64 - 1 }
    requires evaluable { All IsEvaluable notes.now }
    ensures { Finds (evaluation plan.now now.now) notes.now result }
{
    for noted in notes {
        match judge_one(plan, now, noted) {
            Finding::AllTrue => {}
            found => return found,
        }
    }
    Finding::AllTrue
}
