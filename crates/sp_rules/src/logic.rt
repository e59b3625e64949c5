//! Rules on `and`, `or`, `->`, `<->` and `not`.

ghost use Rattle.std.specs.Prelude.{◌∷◌, []};
ghost use Rattle.sp_steps.specs.Subgoals.{subgoal, hypothesis};
ghost use Rattle.sp_steps.specs.Steps.{Close, Split, Intro, OneSide, Unpack, UseBoth, CasesOf, CasesOn, Cut};
ghost use Rattle.sp_steps.specs.Rows.{closed_by, split_goal, introduced, on_side, unpacked, unpacked_not, used, cases_of as cases_of_rule, cases_on as cases_on_rule, cut_by};
ghost use Rattle.sp_steps.specs.Next.{Applies};
ghost use Rattle.sp_rules.specs.code.Work.{hypotheses_of, IsWork};
ghost use Rattle.sp_rules.specs.code.Outcome.{Becomes, carried, placed_in};
ghost use Rattle.sp_rules.specs.code.Cases.{cases_step};

use crate::formulas::{built, falsehood, is_false, is_same, list_of_one, nothing, within_limits};
use crate::goals::{After, Case, Goals};
use crate::work::{Work, enter};
use bumpalo::Bump;
use sp_steps::{RuleRefusal, Side};
use sp_term::{Kind, Term, make};

/// `close hK`: the subgoal goes, where hypothesis k is its goal, or is false.
pub fn close<'a>(_arena: &'a Bump, goals: Goals<'a>, k: u32) -> After<'a>
    ensures { Applies (Close k) goals.entry result }
{
    let (work, goal) = enter(goals)?;
    close_at(work, goal, k)
}

fn close_at<'a>(work: Work<'a>, goal: &'a Term<'a>, k: u32) -> After<'a>
    requires { IsWork work }
    ensures { Becomes result (carried (closed_by (hypothesis (hypotheses_of work.entry) k) goal.now) work.entry) }
{
    let Some(h) = work.hypothesis(k) else {
        return Err(RuleRefusal::NoApply);
    };
    if is_same(h, goal) || is_false(h) {
        work.done()
    } else {
        Err(RuleRefusal::NoApply)
    }
}

/// `split`: `p and q` becomes p, and q; `p <-> q` both implications; `x = y` both comparisons.
pub fn split<'a>(arena: &'a Bump, goals: Goals<'a>) -> After<'a>
    ensures { Applies Split goals.entry result }
{
    let (work, goal) = enter(goals)?;
    split_at(arena, work, goal)
}

fn split_at<'a>(arena: &'a Bump, work: Work<'a>, goal: &'a Term<'a>) -> After<'a>
    requires { IsWork work }
    ensures { Becomes result (carried (split_goal goal.now) work.entry) }
{
    match goal.kind() {
        Kind::And(p, q) => work.turn_two(p, q),
        Kind::Iff(p, q) => {
            let there = built(arena, Kind::Implies(p, q))?;
            let back = built(arena, Kind::Implies(q, p))?;
            work.turn_two(there, back)
        }
        Kind::Equal(x, y) => {
            let below = built(arena, Kind::LessOrEqual(x, y))?;
            let above = built(arena, Kind::LessOrEqual(y, x))?;
            work.turn_two(below, above)
        }
        _ => Err(RuleRefusal::NoApply),
    }
}

/// `intro`: of the goal `p -> q` p is added, and q is the goal; of `not p` p is added, and false is the goal.
pub fn intro<'a>(arena: &'a Bump, goals: Goals<'a>) -> After<'a>
    ensures { Applies Intro goals.entry result }
{
    let (work, goal) = enter(goals)?;
    intro_at(arena, work, goal)
}

fn intro_at<'a>(arena: &'a Bump, work: Work<'a>, goal: &'a Term<'a>) -> After<'a>
    requires { IsWork work }
    ensures { Becomes result (carried (introduced goal.now) work.entry) }
{
    match goal.kind() {
        Kind::Implies(p, q) => work.add_one(arena, p, q),
        Kind::Not(p) => {
            let no = falsehood(arena)?;
            work.add_one(arena, p, no)
        }
        _ => Err(RuleRefusal::NoApply),
    }
}

/// `side left` and `side right`: the goal `p or q` becomes p, or q.
pub fn side<'a>(_arena: &'a Bump, goals: Goals<'a>, side: Side) -> After<'a>
    ensures { Applies (OneSide side) goals.entry result }
{
    let (work, goal) = enter(goals)?;
    side_at(work, goal, side)
}

fn side_at<'a>(work: Work<'a>, goal: &'a Term<'a>, side: Side) -> After<'a>
    requires { IsWork work }
    ensures { Becomes result (carried (on_side side goal.now) work.entry) }
{
    match goal.kind() {
        Kind::Or(p, q) => match side {
            Side::Left => work.turn(p),
            Side::Right => work.turn(q),
        },
        _ => Err(RuleRefusal::NoApply),
    }
}

/// `unpack hK`: of `p and q` both are added, of `p <-> q` both implications, of `not (x = y)` that one is less.
pub fn unpack<'a>(arena: &'a Bump, goals: Goals<'a>, k: u32) -> After<'a>
    ensures { Applies (Unpack k) goals.entry result }
{
    let (work, goal) = enter(goals)?;
    unpack_at(arena, work, goal, k)
}

fn unpack_at<'a>(arena: &'a Bump, work: Work<'a>, goal: &'a Term<'a>, k: u32) -> After<'a>
    requires { IsWork work }
    ensures { Becomes result (carried (unpacked (hypothesis (hypotheses_of work.entry) k) goal.now) work.entry) }
{
    let Some(h) = work.hypothesis(k) else {
        return Err(RuleRefusal::NoApply);
    };
    match h.kind() {
        Kind::And(p, q) => work.add_two(arena, p, q, goal),
        Kind::Iff(p, q) => {
            let there = built(arena, Kind::Implies(p, q))?;
            let back = built(arena, Kind::Implies(q, p))?;
            work.add_two(arena, there, back, goal)
        }
        Kind::Not(p) => unpack_not(arena, work, p, goal),
        _ => Err(RuleRefusal::NoApply),
    }
}

fn unpack_not<'a>(arena: &'a Bump, work: Work<'a>, p: &'a Term<'a>, goal: &'a Term<'a>) -> After<'a>
    requires { IsWork work }
    ensures { Becomes result (carried (unpacked_not p.now goal.now) work.entry) }
{
    match p.kind() {
        Kind::Equal(x, y) => {
            let below = make(arena, Kind::Less(x, y))?;
            let above = make(arena, Kind::Less(y, x))?;
            let apart = built(arena, Kind::Or(below, above))?;
            work.add_one(arena, apart, goal)
        }
        _ => Err(RuleRefusal::NoApply),
    }
}

/// `use hK hJ`: hypothesis k is `p -> q` and j is p, and q is added; or k is `not p`, and false is added.
pub fn use_both<'a>(arena: &'a Bump, goals: Goals<'a>, k: u32, j: u32) -> After<'a>
    ensures { Applies (UseBoth k j) goals.entry result }
{
    let (work, goal) = enter(goals)?;
    use_at(arena, work, goal, k, j)
}

fn use_at<'a>(arena: &'a Bump, work: Work<'a>, goal: &'a Term<'a>, k: u32, j: u32) -> After<'a>
    requires { IsWork work }
    ensures { Becomes result (carried (used (hypothesis (hypotheses_of work.entry) k) (hypothesis (hypotheses_of work.entry) j) goal.now) work.entry) }
{
    let (Some(h), Some(r)) = (work.hypothesis(k), work.hypothesis(j)) else {
        return Err(RuleRefusal::NoApply);
    };
    match h.kind() {
        Kind::Implies(p, q) => {
            if is_same(p, r) {
                work.add_one(arena, q, goal)
            } else {
                Err(RuleRefusal::NoApply)
            }
        }
        Kind::Not(p) => {
            if is_same(p, r) {
                let no = falsehood(arena)?;
                work.add_one(arena, no, goal)
            } else {
                Err(RuleRefusal::NoApply)
            }
        }
        _ => Err(RuleRefusal::NoApply),
    }
}

/// `cases hK` and `cases T`: the subgoal with each side of the `or` added; or with the formula, and with its negation.
pub fn cases<'a>(arena: &'a Bump, goals: Goals<'a>, by: Case<'a>) -> After<'a>
    ensures { Applies (cases_step by.entry) goals.entry result }
{
    match by {
        Case::Hyp(k) => cases_of(arena, goals, k),
        Case::Formula(p) => cases_on(arena, goals, p),
    }
}

fn cases_of<'a>(arena: &'a Bump, goals: Goals<'a>, k: u32) -> After<'a>
    ensures { Applies (CasesOf k) goals.entry result }
{
    let (work, goal) = enter(goals)?;
    cases_of_at(arena, work, goal, k)
}

fn cases_of_at<'a>(arena: &'a Bump, work: Work<'a>, goal: &'a Term<'a>, k: u32) -> After<'a>
    requires { IsWork work }
    ensures { Becomes result (carried (cases_of_rule (hypothesis (hypotheses_of work.entry) k) goal.now) work.entry) }
{
    let Some(h) = work.hypothesis(k) else {
        return Err(RuleRefusal::NoApply);
    };
    match h.kind() {
        Kind::Or(p, q) => both(arena, work, p, q, goal),
        _ => Err(RuleRefusal::NoApply),
    }
}

fn cases_on<'a>(arena: &'a Bump, goals: Goals<'a>, p: &'a Term<'a>) -> After<'a>
    ensures { Applies (CasesOn p.now) goals.entry result }
{
    let (work, goal) = enter(goals)?;
    cases_on_at(arena, work, goal, p)
}

fn cases_on_at<'a>(
    arena: &'a Bump,
    work: Work<'a>,
    goal: &'a Term<'a>,
    p: &'a Term<'a>,
) -> After<'a>
    requires { IsWork work }
    ensures { Becomes result (carried (cases_on_rule p.now goal.now) work.entry) }
{
    let p = within_limits(p)?;
    let not = built(arena, Kind::Not(p))?;
    both(arena, work, p, not, goal)
}

/// The subgoal twice, with a formula added in each.
fn both<'a>(
    arena: &'a Bump,
    work: Work<'a>,
    p: &'a Term<'a>,
    q: &'a Term<'a>,
    goal: &'a Term<'a>,
) -> After<'a>
    requires { IsWork work }
    ensures { Becomes result (placed_in work.entry (subgoal (p.now ∷ []) goal.now ∷ subgoal (q.now ∷ []) goal.now ∷ [])) }
{
    let one = list_of_one(arena, p)?;
    let other = list_of_one(arena, q)?;
    work.two(one, goal, other, goal)
}

/// `cut T`: T is the goal; then the subgoal with T added.
pub fn cut<'a>(arena: &'a Bump, goals: Goals<'a>, t: &'a Term<'a>) -> After<'a>
    ensures { Applies (Cut t.now) goals.entry result }
{
    let (work, goal) = enter(goals)?;
    cut_at(arena, work, goal, t)
}

fn cut_at<'a>(arena: &'a Bump, work: Work<'a>, goal: &'a Term<'a>, t: &'a Term<'a>) -> After<'a>
    requires { IsWork work }
    ensures { Becomes result (carried (cut_by t.now goal.now) work.entry) }
{
    let t = within_limits(t)?;
    let added = list_of_one(arena, t)?;
    work.two(nothing(), t, added, goal)
}
