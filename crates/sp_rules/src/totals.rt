//! Rules on sums of cells.

ghost use Rattle.std.specs.Prelude.{◌≡◌, IfOk};
ghost use Rattle.sp_term.specs.Tree.{Less, LessOrEqual, And, Or, Total};
ghost use Rattle.sp_steps.specs.Steps.{Empty, Last, Over};
ghost use Rattle.sp_steps.specs.Rows.{empty_total, last_of_total, total_over_update};
ghost use Rattle.sp_steps.specs.Next.{Applies};
ghost use Rattle.sp_rules.specs.code.Work.{IsWork};
ghost use Rattle.sp_rules.specs.code.Outcome.{Becomes, carried};

use crate::formulas::{equal_where, number, sum};
use crate::goals::{After, Goals};
use crate::work::{Work, enter};
use bumpalo::Bump;
use sp_base::Memory;
use sp_steps::RuleRefusal;
use sp_term::{Kind, Term, make};

/// `empty X`, where X is `total(m,[x],[y])`: `((y < x) -> (X = 0))` is added.
pub fn empty<'a>(arena: &'a Bump, goals: Goals<'a>, x: &'a Term<'a>) -> After<'a>
    ensures { Applies (Empty x.now) goals.entry result }
{
    let (work, goal) = enter(goals)?;
    empty_at(arena, work, goal, x)
}

fn empty_at<'a>(arena: &'a Bump, work: Work<'a>, goal: &'a Term<'a>, x: &'a Term<'a>) -> After<'a>
    requires { IsWork work }
    ensures { Becomes result (carried (empty_total x.now goal.now) work.entry) }
{
    match x.kind() {
        Kind::Total(_, first, last) => {
            let none = make(arena, Kind::Less(last, first))?;
            let zero = number(arena, 0)?;
            let added = equal_where(arena, none, x, zero)?;
            work.add_one(arena, added, goal)
        }
        _ => Err(RuleRefusal::NoApply),
    }
}

/// `last X`, where X is `total(m,[x],[y])`: `((x <= y) -> (X = (total(m,[x],[(y - 1)]) + element(m,[y]))))` is added.
pub fn last<'a>(arena: &'a Bump, goals: Goals<'a>, x: &'a Term<'a>) -> After<'a>
    ensures { Applies (Last x.now) goals.entry result }
{
    let (work, goal) = enter(goals)?;
    last_at(arena, work, goal, x)
}

fn last_at<'a>(arena: &'a Bump, work: Work<'a>, goal: &'a Term<'a>, x: &'a Term<'a>) -> After<'a>
    requires { IsWork work }
    ensures { Becomes result (carried (last_of_total x.now goal.now) work.entry) }
{
    match x.kind() {
        Kind::Total(m, low, high) => {
            let some = make(arena, Kind::LessOrEqual(low, high))?;
            let one = number(arena, 1)?;
            let before = make(arena, Kind::Subtract(high, one))?;
            let rest = make(arena, Kind::Total(m, low, before))?;
            let cell = make(arena, Kind::Element(m, high))?;
            let all = sum(arena, rest, cell)?;
            let added = equal_where(arena, some, x, all)?;
            work.add_one(arena, added, goal)
        }
        _ => Err(RuleRefusal::NoApply),
    }
}

/// `over X`, where X is `total(update(m,[z],v),[x],[y])`: what X is where z lies outside x to y, and where it doesn't, is added.
pub fn over<'a>(arena: &'a Bump, goals: Goals<'a>, x: &'a Term<'a>) -> After<'a>
    ensures { Applies (Over x.now) goals.entry result }
{
    let (work, goal) = enter(goals)?;
    over_at(arena, work, goal, x)
}

fn over_at<'a>(arena: &'a Bump, work: Work<'a>, goal: &'a Term<'a>, x: &'a Term<'a>) -> After<'a>
    requires { IsWork work }
    ensures { Becomes result (carried (total_over_update x.now goal.now) work.entry) }
{
    match x.kind() {
        Kind::Total(m, low, high) => over_update(arena, work, goal, x, m, low, high),
        _ => Err(RuleRefusal::NoApply),
    }
}

fn over_update<'a>(
    arena: &'a Bump,
    work: Work<'a>,
    goal: &'a Term<'a>,
    x: &'a Term<'a>,
    m: &'a Term<'a>,
    low: &'a Term<'a>,
    high: &'a Term<'a>,
) -> After<'a>
    requires work { IsWork work }
    requires total { x.now ≡ Total m.now low.now high.now }
    ensures { Becomes result (carried (total_over_update x.now goal.now) work.entry) }
{
    match m.kind() {
        Kind::Update(before, z, v) => {
            let old = make(arena, Kind::Total(before, low, high))?;
            let outside = outside_of(arena, z, low, high)?;
            let one = equal_where(arena, outside, x, old)?;
            let within = within(arena, z, low, high)?;
            let cell = make(arena, Kind::Element(before, z))?;
            let more = sum(arena, old, v)?;
            let new = make(arena, Kind::Subtract(more, cell))?;
            let other = equal_where(arena, within, x, new)?;
            work.add_two(arena, one, other, goal)
        }
        _ => Err(RuleRefusal::NoApply),
    }
}

/// `((z < x) or (y < z))`
fn outside_of<'a>(
    arena: &'a Bump,
    z: &'a Term<'a>,
    x: &'a Term<'a>,
    y: &'a Term<'a>,
) -> Result<&'a Term<'a>, Memory>
    ensures { IfOk result (λ t. t.now ≡ Or (Less z.now x.now) (Less y.now z.now)) }
{
    let below = make(arena, Kind::Less(z, x))?;
    let above = make(arena, Kind::Less(y, z))?;
    make(arena, Kind::Or(below, above))
}

/// `((x <= z) and (z <= y))`
fn within<'a>(
    arena: &'a Bump,
    z: &'a Term<'a>,
    x: &'a Term<'a>,
    y: &'a Term<'a>,
) -> Result<&'a Term<'a>, Memory>
    ensures { IfOk result (λ t. t.now ≡ And (LessOrEqual x.now z.now) (LessOrEqual z.now y.now)) }
{
    let from = make(arena, Kind::LessOrEqual(x, z))?;
    let to = make(arena, Kind::LessOrEqual(z, y))?;
    make(arena, Kind::And(from, to))
}
