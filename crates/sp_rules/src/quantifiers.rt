//! Rules on `for_all`, `for_some` and `if`.

ghost use Rattle.std.specs.Prelude.{◌≡◌, IfOk};
ghost use Rattle.sp_term.specs.declared.var.Var.TheVariants as var;
ghost use Rattle.sp_term.specs.Tree.{Variable};
ghost use Rattle.sp_steps.specs.Subgoals.{subgoal, hypothesis, IsFresh};
ghost use Rattle.sp_steps.specs.Steps.{Fix, At, Give, Pick, Induct, Choose};
ghost use Rattle.sp_steps.specs.Rows.{at_term, fixed, instance_of, given, picked, inducted, chosen};
ghost use Rattle.sp_steps.specs.Next.{Applies};
ghost use Rattle.sp_rules.specs.code.Work.{hypotheses_of, IsWork};
ghost use Rattle.sp_rules.specs.code.Outcome.{Becomes, carried, IsLimited};

use crate::formulas::{
    built, equal_where, list_of_three, list_of_two, nothing, number, sum, within_limits,
};
use crate::fresh::fresh;
use crate::goals::{After, Goals};
use crate::work::{Work, enter};
use bumpalo::Bump;
use sp_base::Memory;
use sp_steps::RuleRefusal;
use sp_term::{Kind, Term, Var, make, substitute};
use std::alloc::Global;

/// `k_j`
fn any<'a>(arena: &'a Bump, j: u32) -> Result<&'a Term<'a>, Memory>
    ensures { IfOk result (λ t. t.now ≡ Variable (var.Any j)) }
{
    make(arena, Kind::Variable(Var::Any(j)))
}

/// The least j from 1 for which `k_j` stands nowhere in the first subgoal.
fn fresh_in<'a>(work: &Work<'a>, goal: &'a Term<'a>) -> Result<u32, Memory>
    ensures { IfOk result (λ j. IsFresh (subgoal (hypotheses_of work.now) goal.now) j) }
{
    fresh(work.alloc(), work.hypotheses(), goal)
}

/// The formula of a quantifier with a term in the place of its variable, where it is within the limits.
fn instance<'a>(
    alloc: Global,
    arena: &'a Bump,
    i: u32,
    x: &'a Term<'a>,
    p: &'a Term<'a>,
) -> Result<&'a Term<'a>, RuleRefusal>
    ensures { IsLimited result (at_term i x.now p.now) }
{
    let q = substitute(alloc, arena, p, Var::Bound(i), x)?;
    within_limits(q)
}

/// `fix`: of the goal `for_all(i: x..y, P(i))` both ends of a fresh `k_j` are added, and P(k_j) is the goal.
pub fn fix<'a>(arena: &'a Bump, goals: Goals<'a>) -> After<'a>
    ensures { Applies Fix goals.entry result }
{
    let (work, goal) = enter(goals)?;
    let j = fresh_in(&work, goal)?;
    fix_at(arena, work, goal, j)
}

fn fix_at<'a>(arena: &'a Bump, work: Work<'a>, goal: &'a Term<'a>, j: u32) -> After<'a>
    requires { IsWork work }
    ensures { Becomes result (carried (fixed j goal.now) work.entry) }
{
    match goal.kind() {
        Kind::ForAll(i, x, y, p) => {
            let k = any(arena, j)?;
            let low = built(arena, Kind::LessOrEqual(x, k))?;
            let high = built(arena, Kind::LessOrEqual(k, y))?;
            let q = instance(work.alloc(), arena, *i, k, p)?;
            let added = list_of_two(arena, low, high)?;
            work.one(added, q)
        }
        _ => Err(RuleRefusal::NoApply),
    }
}

/// `at hK X`: of the hypothesis `for_all(i: x..y, P(i))` the formula `(((x <= X) and (X <= y)) -> P(X))` is added.
pub fn at<'a>(arena: &'a Bump, goals: Goals<'a>, k: u32, x: &'a Term<'a>) -> After<'a>
    ensures { Applies (At k x.now) goals.entry result }
{
    let (work, goal) = enter(goals)?;
    instance_at(arena, work, goal, k, x)
}

fn instance_at<'a>(
    arena: &'a Bump,
    work: Work<'a>,
    goal: &'a Term<'a>,
    k: u32,
    x: &'a Term<'a>,
) -> After<'a>
    requires { IsWork work }
    ensures { Becomes result (carried (instance_of (hypothesis (hypotheses_of work.entry) k) x.now goal.now) work.entry) }
{
    let Some(h) = work.hypothesis(k) else {
        return Err(RuleRefusal::NoApply);
    };
    match h.kind() {
        Kind::ForAll(i, low, high, p) => {
            let from = make(arena, Kind::LessOrEqual(low, x))?;
            let to = make(arena, Kind::LessOrEqual(x, high))?;
            let within = make(arena, Kind::And(from, to))?;
            let q = substitute(work.alloc(), arena, p, Var::Bound(*i), x)?;
            let added = built(arena, Kind::Implies(within, q))?;
            work.add_one(arena, added, goal)
        }
        _ => Err(RuleRefusal::NoApply),
    }
}

/// `give X`: of the goal `for_some(i: x..y, P(i))` the formula `((x <= X) and ((X <= y) and P(X)))` is the goal.
pub fn give<'a>(arena: &'a Bump, goals: Goals<'a>, x: &'a Term<'a>) -> After<'a>
    ensures { Applies (Give x.now) goals.entry result }
{
    let (work, goal) = enter(goals)?;
    give_at(arena, work, goal, x)
}

fn give_at<'a>(arena: &'a Bump, work: Work<'a>, goal: &'a Term<'a>, x: &'a Term<'a>) -> After<'a>
    requires { IsWork work }
    ensures { Becomes result (carried (given x.now goal.now) work.entry) }
{
    match goal.kind() {
        Kind::ForSome(i, low, high, p) => {
            let from = make(arena, Kind::LessOrEqual(low, x))?;
            let to = make(arena, Kind::LessOrEqual(x, high))?;
            let q = substitute(work.alloc(), arena, p, Var::Bound(*i), x)?;
            let rest = make(arena, Kind::And(to, q))?;
            let new = built(arena, Kind::And(from, rest))?;
            work.turn(new)
        }
        _ => Err(RuleRefusal::NoApply),
    }
}

/// `pick hK`: of the hypothesis `for_some(i: x..y, P(i))` both ends of a fresh `k_j` and P(k_j) are added.
pub fn pick<'a>(arena: &'a Bump, goals: Goals<'a>, k: u32) -> After<'a>
    ensures { Applies (Pick k) goals.entry result }
{
    let (work, goal) = enter(goals)?;
    let j = fresh_in(&work, goal)?;
    pick_at(arena, work, goal, k, j)
}

fn pick_at<'a>(arena: &'a Bump, work: Work<'a>, goal: &'a Term<'a>, k: u32, j: u32) -> After<'a>
    requires { IsWork work }
    ensures { Becomes result (carried (picked j (hypothesis (hypotheses_of work.entry) k) goal.now) work.entry) }
{
    let Some(h) = work.hypothesis(k) else {
        return Err(RuleRefusal::NoApply);
    };
    match h.kind() {
        Kind::ForSome(i, x, y, p) => {
            let c = any(arena, j)?;
            let low = built(arena, Kind::LessOrEqual(x, c))?;
            let high = built(arena, Kind::LessOrEqual(c, y))?;
            let q = instance(work.alloc(), arena, *i, c, p)?;
            work.add_three(arena, low, high, q, goal)
        }
        _ => Err(RuleRefusal::NoApply),
    }
}

/// `induct`: of the goal `for_all(i: x..y, P(i))` the first new goal is `((x <= y) -> P(x))`, and the second one is
/// P(k_j + 1) with `(x <= k_j)`, `(k_j < y)` and P(k_j) added.
pub fn induct<'a>(arena: &'a Bump, goals: Goals<'a>) -> After<'a>
    ensures { Applies Induct goals.entry result }
{
    let (work, goal) = enter(goals)?;
    let j = fresh_in(&work, goal)?;
    induct_at(arena, work, goal, j)
}

fn induct_at<'a>(arena: &'a Bump, work: Work<'a>, goal: &'a Term<'a>, j: u32) -> After<'a>
    requires { IsWork work }
    ensures { Becomes result (carried (inducted j goal.now) work.entry) }
{
    match goal.kind() {
        Kind::ForAll(i, x, y, p) => {
            let some = make(arena, Kind::LessOrEqual(x, y))?;
            let at_first = substitute(work.alloc(), arena, p, Var::Bound(*i), x)?;
            let first = built(arena, Kind::Implies(some, at_first))?;
            let k = any(arena, j)?;
            let low = built(arena, Kind::LessOrEqual(x, k))?;
            let high = built(arena, Kind::Less(k, y))?;
            let here = instance(work.alloc(), arena, *i, k, p)?;
            let one = number(arena, 1)?;
            let next = sum(arena, k, one)?;
            let there = instance(work.alloc(), arena, *i, next, p)?;
            let added = list_of_three(arena, low, high, here)?;
            work.two(nothing(), first, added, there)
        }
        _ => Err(RuleRefusal::NoApply),
    }
}

/// `choose X`, where X is `if(p,x,y)`: `(p -> (X = x))` and `((not p) -> (X = y))` are added.
pub fn choose<'a>(arena: &'a Bump, goals: Goals<'a>, x: &'a Term<'a>) -> After<'a>
    ensures { Applies (Choose x.now) goals.entry result }
{
    let (work, goal) = enter(goals)?;
    choose_at(arena, work, goal, x)
}

fn choose_at<'a>(arena: &'a Bump, work: Work<'a>, goal: &'a Term<'a>, x: &'a Term<'a>) -> After<'a>
    requires { IsWork work }
    ensures { Becomes result (carried (chosen x.now goal.now) work.entry) }
{
    match x.kind() {
        Kind::If(p, then, other) => {
            let one = equal_where(arena, p, x, then)?;
            let not = make(arena, Kind::Not(p))?;
            let two = equal_where(arena, not, x, other)?;
            work.add_two(arena, one, two, goal)
        }
        _ => Err(RuleRefusal::NoApply),
    }
}
