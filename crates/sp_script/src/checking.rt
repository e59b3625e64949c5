ghost use Rattle.std.specs.Prelude.{IfOk};
ghost use Rattle.sp_term.specs.Admissible.{Region, IsValid};
ghost use Rattle.sp_term.specs.Conditions.{condition_of};
ghost use Rattle.sp_steps.specs.Subgoals.{start};
ghost use Rattle.sp_steps.specs.Soundness.{IsProper};
ghost use Rattle.sp_script_text.specs.Files.{HasSteps};
ghost use Rattle.sp_script_meaning.specs.Checking.{AnswersCheck, IsCompleteCheck};

use crate::following::follow;
use crate::places::Place;
use bumpalo::Bump;
use sp_base::Image;
use sp_rules::Goals;
use sp_script_meaning::{Proved, ScriptRefusal};
use sp_script_text::Script;
use sp_term::Cond;
use std::alloc::Global;

/// Follows the steps of a script, from the first subgoals of the condition.
#[tactic(auto, using(crate::proofs::FollowLemmas::refused_script))]
fn followed<'a>(place: Place<'a, '_>, c: Cond<'a>, s: &Script) -> Result<Proved, ScriptRefusal>
    requires { HasSteps s.now }
    ensures { AnswersCheck place.entry.image.now (condition_of c.entry) s.now result }
{
    let first = Goals::new(place.alloc, c, place.arena)?;
    match follow(place, first, s.steps.as_slice()) {
        Ok(last) => {
            if last.is_empty() {
                Ok(Proved)
            } else {
                Err(ScriptRefusal::Unfinished(s.end))
            }
        }
        Err(refusal) => Err(refusal),
    }
}

/// Whether a script shows a condition, which is taken as it stands and not simplified. Terms are made in the arena. The
/// first step that doesn't apply is refused with its line and its rule; where all apply and a subgoal is left, the line is
/// that of `end`.
#[tactic(auto, using(sp_script_meaning::proofs::OneLemmas::complete_check))]
pub fn check<'a>(
    alloc: Global,
    c: Cond<'a>,
    image: &Image,
    s: &Script,
    arena: &'a Bump,
) -> Result<Proved, ScriptRefusal>
    // Its lines are steps, as those of each script that was read.
    requires { HasSteps s.now }
    ensures says { AnswersCheck image.now (condition_of c.entry) s.now result }
    // Each script has its one answer, unless memory runs out.
    ensures complete { IsCompleteCheck image.now (condition_of c.entry) s.now result }
    // A condition of closed formulas that is proved is true in every admissible environment.
    ensures valid { (stack : Region) → IsProper (start (condition_of c.entry)) → IfOk result (λ _. IsValid image.now stack (condition_of c.entry)) }
{
    let place = Place {
        alloc,
        arena,
        image,
    };
    followed(place, c, s)
}
