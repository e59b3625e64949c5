//! The lines of a script, one after the other.
ghost use Rattle.std.specs.List.{AllByRecursion};
ghost use Rattle.sp_script_text.specs.StepTexts.{IsStepLine};
ghost use Rattle.sp_script_text.specs.declared.script.Written.{Written};
ghost use Rattle.sp_script_meaning.specs.Checking.{rule_step};
ghost use Rattle.sp_script.specs.code.Following.{AnswersLine, AnswersLines};

use crate::performing::perform;
use crate::places::Place;
use sp_rules::Goals;
use sp_script_meaning::ScriptRefusal;
use sp_script_text::{StepRefusal, Written, read_step, rule_of};
use sp_steps::RuleRefusal;

/// The subgoals after the step on a line.
fn follow_line<'a>(
    place: Place<'a, '_>,
    goals: Goals<'a>,
    written: &Written,
) -> Result<Goals<'a>, ScriptRefusal>
    requires { IsStepLine written.now.text }
    ensures { AnswersLine place.entry.image.now goals.entry written.now result }
{
    let step = match read_step(place.alloc, written.text.as_slice(), place.arena) {
        Ok(step) => step,
        Err(StepRefusal::Syntax) => unreachable!(),
        Err(StepRefusal::Memory) => return Err(ScriptRefusal::Memory),
    };
    match perform(place, goals, step) {
        Ok(next) => Ok(next),
        Err(RuleRefusal::NoApply) => Err(ScriptRefusal::Step(written.line, rule_of(step))),
        Err(RuleRefusal::Memory) => Err(ScriptRefusal::Memory),
    }
}

/// The subgoals after the steps on these lines.
pub fn follow<'a>(
    place: Place<'a, '_>,
    goals: Goals<'a>,
    steps: &[Written],
) -> Result<Goals<'a>, ScriptRefusal>
    requires { AllByRecursion (λ (w : Written). IsStepLine w.text) steps.now }
    ensures { AnswersLines place.entry.image.now goals.entry steps.now result }
{
    let mut goals = goals;
    for written in steps {
        match follow_line(place, goals, written) {
            Ok(next) => goals = next,
            Err(refusal) => return Err(refusal),
        }
    }
    Ok(goals)
}
