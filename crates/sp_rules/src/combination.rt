//! The rule on sums of hypotheses.

ghost use Rattle.std.specs.Prelude.{◌≡◌};
ghost use Rattle.sp_linear.specs.Linear.{named as named_trees, Follows};
ghost use Rattle.sp_steps.specs.Steps.{Linear};
ghost use Rattle.sp_steps.specs.Next.{Applies};
ghost use Rattle.sp_rules.specs.code.Work.{hypotheses_of};
ghost use Rattle.sp_rules.specs.code.Named.{AreFound};

use crate::goals::{After, Goals};
use crate::work::{Work, enter};
use bumpalo::Bump;
use sp_linear::follows;
use sp_steps::RuleRefusal;
use sp_term::Term;

/// `linear N0 N1 hK1 N2 hK2 ..`: the subgoal goes, where its goal follows from the sum of the hypotheses named, each with the
/// multiplier before it. N0 is the multiplier of the goal.
pub fn linear<'a>(_arena: &'a Bump, goals: Goals<'a>, n0: i64, by: &[(i64, u32)]) -> After<'a>
    ensures { Applies (Linear n0 by.now) goals.entry result }
{
    let (work, goal) = enter(goals)?;
    let named = hypotheses_named(&work, by)?;
    if follows(work.alloc(), goal, n0, &named)? {
        work.done()
    } else {
        Err(RuleRefusal::NoApply)
    }
}

/// The hypotheses with these numbers, each with its multiplier; `NoApply` where there isn't one with a number.
fn hypotheses_named<'a>(
    work: &Work<'a>,
    by: &[(i64, u32)],
) -> Result<Vec<(i64, &'a Term<'a>)>, RuleRefusal>
    ensures { AreFound result (hypotheses_of work.now) by.now }
{
    let mut named = Vec::new(work.alloc());
    for n in by {
        let Some(h) = work.hypothesis(n.1) else {
            return Err(RuleRefusal::NoApply);
        };
        let Ok(()) = named.push((n.0, h)) else {
            return Err(RuleRefusal::Memory);
        };
    }
    Ok(named)
}
