//! The rule on equations.

ghost use Rattle.std.specs.Prelude.{◌≡◌, IfOk, option_map};
ghost use Rattle.sp_steps.specs.Subgoals.{hypothesis};
ghost use Rattle.sp_steps.specs.Steps.{Rewrite};
ghost use Rattle.sp_steps.specs.Rows.{sides_of, sides_of_some, rewritten_goal, rewritten_one};
ghost use Rattle.sp_steps.specs.Next.{Applies};
ghost use Rattle.sp_rules.specs.code.Work.{hypotheses_of, IsWork};
ghost use Rattle.sp_rules.specs.code.Outcome.{Becomes, carried};
ghost use Rattle.sp_rules.specs.code.Rewritten.{sides_now};

use crate::formulas::within_limits;
use crate::goals::{After, Goals};
use crate::replacement::replaced;
use crate::work::{Work, enter};
use bumpalo::Bump;
use sp_steps::RuleRefusal;
use sp_term::{Kind, Term};

/// `rewrite hK` and `rewrite hK hJ`, each also with `back`, where hypothesis k is `x = y`: the goal with y in each place of x,
/// or hypothesis j so rewritten is added; `back` puts x in each place of y. It needs one place, and takes the outermost ones.
pub fn rewrite<'a>(
    arena: &'a Bump,
    goals: Goals<'a>,
    k: u32,
    j: Option<u32>,
    back: bool,
) -> After<'a>
    ensures { Applies (Rewrite k j back) goals.entry result }
{
    match j {
        None => rewrite_goal(arena, goals, k, back),
        Some(j) => rewrite_hypothesis(arena, goals, k, j, back),
    }
}

fn rewrite_goal<'a>(arena: &'a Bump, goals: Goals<'a>, k: u32, back: bool) -> After<'a>
    ensures { Applies (Rewrite k None back) goals.entry result }
{
    let (work, goal) = enter(goals)?;
    rewrite_goal_at(arena, work, goal, k, back)
}

fn rewrite_goal_at<'a>(
    arena: &'a Bump,
    work: Work<'a>,
    goal: &'a Term<'a>,
    k: u32,
    back: bool,
) -> After<'a>
    requires { IsWork work }
    ensures { Becomes result (carried (rewritten_goal (sides_of_some back (hypothesis (hypotheses_of work.entry) k)) goal.now) work.entry) }
{
    let Some((x, y)) = sides(&work, k, back) else {
        return Err(RuleRefusal::NoApply);
    };
    let Some(p) = replaced(work.alloc(), arena, goal, x, y)? else {
        return Err(RuleRefusal::NoApply);
    };
    let p = within_limits(p)?;
    work.turn(p)
}

fn rewrite_hypothesis<'a>(
    arena: &'a Bump,
    goals: Goals<'a>,
    k: u32,
    j: u32,
    back: bool,
) -> After<'a>
    ensures { Applies (Rewrite k (Some j) back) goals.entry result }
{
    let (work, goal) = enter(goals)?;
    rewrite_hypothesis_at(arena, work, goal, k, j, back)
}

fn rewrite_hypothesis_at<'a>(
    arena: &'a Bump,
    work: Work<'a>,
    goal: &'a Term<'a>,
    k: u32,
    j: u32,
    back: bool,
) -> After<'a>
    requires { IsWork work }
    ensures { Becomes result (carried (rewritten_one (sides_of_some back (hypothesis (hypotheses_of work.entry) k)) (hypothesis (hypotheses_of work.entry) j) goal.now) work.entry) }
{
    let Some((x, y)) = sides(&work, k, back) else {
        return Err(RuleRefusal::NoApply);
    };
    let Some(h) = work.hypothesis(j) else {
        return Err(RuleRefusal::NoApply);
    };
    let Some(p) = replaced(work.alloc(), arena, h, x, y)? else {
        return Err(RuleRefusal::NoApply);
    };
    let p = within_limits(p)?;
    work.add_one(arena, p, goal)
}

/// What is replaced, and by what, where the hypothesis with this number is an equation.
fn sides<'a>(work: &Work<'a>, k: u32, back: bool) -> Option<(&'a Term<'a>, &'a Term<'a>)>
    ensures { sides_now result ≡ sides_of_some back (hypothesis (hypotheses_of work.now) k) }
{
    match work.hypothesis(k) {
        Some(h) => sides_in(h, back),
        None => None,
    }
}

fn sides_in<'a>(h: &'a Term<'a>, back: bool) -> Option<(&'a Term<'a>, &'a Term<'a>)>
    ensures { sides_now result ≡ sides_of back h.now }
{
    match h.kind() {
        Kind::Equal(x, y) => { if back { Some((y, x)) } else { Some((x, y)) } }
        _ => None,
    }
}
