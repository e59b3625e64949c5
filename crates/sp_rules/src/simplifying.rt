//! The rule of simple forms.

ghost use Rattle.std.specs.Prelude.{◌∷◌, [], Some, None};
ghost use Rattle.sp_steps.specs.Subgoals.{hypothesis};
ghost use Rattle.sp_steps.specs.Steps.{Simp, Built, adds};
ghost use Rattle.sp_steps.specs.Rows.{with_simple_goal};
ghost use Rattle.sp_steps.specs.Next.{Applies};
ghost use Rattle.sp_rules.specs.code.Work.{hypotheses_of, IsWork};
ghost use Rattle.sp_rules.specs.code.Outcome.{Becomes, carried};

use crate::formulas::{is_true, within_limits};
use crate::goals::{After, Goals};
use crate::work::{Work, enter};
use bumpalo::Bump;
use sp_simp::simple;
use sp_steps::RuleRefusal;
use sp_term::Term;

/// `simp`: the goal becomes its simple form, and goes if that is true. `simp hK`: the simple form of hypothesis k is added.
pub fn simp<'a>(arena: &'a Bump, goals: Goals<'a>, k: Option<u32>) -> After<'a>
    ensures { Applies (Simp k) goals.entry result }
{
    match k {
        None => simp_goal(arena, goals),
        Some(k) => simp_hypothesis(arena, goals, k),
    }
}

fn simp_goal<'a>(arena: &'a Bump, goals: Goals<'a>) -> After<'a>
    ensures { Applies (Simp None) goals.entry result }
{
    let (work, goal) = enter(goals)?;
    let p = simple(work.alloc(), goal, arena)?;
    simp_to(work, p)
}

/// The goal becomes another one, or goes if that is true.
fn simp_to<'a>(work: Work<'a>, p: &'a Term<'a>) -> After<'a>
    requires { IsWork work }
    ensures { Becomes result (carried (Some (with_simple_goal p.now)) work.entry) }
{
    if is_true(p) {
        return work.done();
    }
    let p = within_limits(p)?;
    work.turn(p)
}

fn simp_hypothesis<'a>(arena: &'a Bump, goals: Goals<'a>, k: u32) -> After<'a>
    ensures { Applies (Simp (Some k)) goals.entry result }
{
    let (work, goal) = enter(goals)?;
    let Some(h) = work.hypothesis(k) else {
        return Err(RuleRefusal::NoApply);
    };
    let p = simple(work.alloc(), h, arena)?;
    add_within_limits(arena, work, p, goal)
}

/// A formula is added, where it is within the limits.
fn add_within_limits<'a>(
    arena: &'a Bump,
    work: Work<'a>,
    p: &'a Term<'a>,
    goal: &'a Term<'a>,
) -> After<'a>
    requires { IsWork work }
    ensures { Becomes result (carried (adds (Built p.now ∷ []) goal.now) work.entry) }
{
    let p = within_limits(p)?;
    work.add_one(arena, p, goal)
}
