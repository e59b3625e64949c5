//! Rules on division and on ranges.

ghost use Rattle.std.specs.Prelude.{◌≡◌, IfOk};
ghost use Rattle.sp_term.specs.Tree.{Add, Multiply, Divide};
ghost use Rattle.sp_term.specs.Intervals.{interval as interval_of};
ghost use Rattle.sp_steps.specs.Steps.{DivMod, Range};
ghost use Rattle.sp_steps.specs.Rows.{divided, ranged};
ghost use Rattle.sp_steps.specs.Next.{Applies};
ghost use Rattle.sp_rules.specs.code.Work.{IsWork};
ghost use Rattle.sp_rules.specs.code.Outcome.{Becomes, carried};

use crate::formulas::{built, number, sum};
use crate::goals::{After, Goals};
use crate::work::{Work, enter};
use bumpalo::Bump;
use sp_base::Memory;
use sp_steps::RuleRefusal;
use sp_term::{Interval, Kind, Pool, Term, make};
use std::alloc::Global;

/// `divmod X c`, where c is above 0: `(X = ((c * (X div c)) + (X mod c)))`, `(0 <= (X mod c))` and `((X mod c) < c)` are added.
pub fn divmod<'a>(arena: &'a Bump, goals: Goals<'a>, x: &'a Term<'a>, c: i64) -> After<'a>
    ensures { Applies (DivMod x.now c) goals.entry result }
{
    let (work, goal) = enter(goals)?;
    divmod_at(arena, work, goal, x, c)
}

fn divmod_at<'a>(
    arena: &'a Bump,
    work: Work<'a>,
    goal: &'a Term<'a>,
    x: &'a Term<'a>,
    c: i64,
) -> After<'a>
    requires { IsWork work }
    ensures { Becomes result (carried (divided x.now c goal.now) work.entry) }
{
    if 0 < c {
        let n = number(arena, c)?;
        let rest = make(arena, Kind::Remainder(x, n))?;
        let whole = whole(arena, x, n, rest)?;
        let is = built(arena, Kind::Equal(x, whole))?;
        let zero = number(arena, 0)?;
        let low = built(arena, Kind::LessOrEqual(zero, rest))?;
        let high = built(arena, Kind::Less(rest, n))?;
        work.add_three(arena, is, low, high, goal)
    } else {
        Err(RuleRefusal::NoApply)
    }
}

/// `((n * (x div n)) + rest)`
fn whole<'a>(
    arena: &'a Bump,
    x: &'a Term<'a>,
    n: &'a Term<'a>,
    rest: &'a Term<'a>,
) -> Result<&'a Term<'a>, Memory>
    ensures { IfOk result (λ t. t.now ≡ Add (Multiply n.now (Divide x.now n.now)) rest.now) }
{
    let quotient = make(arena, Kind::Divide(x, n))?;
    let multiple = make(arena, Kind::Multiply(n, quotient))?;
    sum(arena, multiple, rest)
}

/// The interval of a term, if it has one.
fn interval<'a>(alloc: Global, arena: &'a Bump, x: &Term) -> Result<Option<Interval>, Memory>
    ensures { IfOk result (λ i. i ≡ interval_of x.now) }
{
    let mut pool = Pool::new(alloc, arena);
    let n = pool.take(x)?;
    Ok(pool.span(n))
}

/// `range X`, where X has an interval: that X lies in it is added.
pub fn range<'a>(arena: &'a Bump, goals: Goals<'a>, x: &'a Term<'a>) -> After<'a>
    ensures { Applies (Range x.now) goals.entry result }
{
    let (work, goal) = enter(goals)?;
    range_at(arena, work, goal, x)
}

fn range_at<'a>(arena: &'a Bump, work: Work<'a>, goal: &'a Term<'a>, x: &'a Term<'a>) -> After<'a>
    requires { IsWork work }
    ensures { Becomes result (carried (ranged (interval_of x.now) x.now goal.now) work.entry) }
{
    let Some(span) = interval(work.alloc(), arena, x)? else {
        return Err(RuleRefusal::NoApply);
    };
    let low = number(arena, span.low)?;
    let high = number(arena, span.high)?;
    let above = built(arena, Kind::LessOrEqual(low, x))?;
    let below = built(arena, Kind::LessOrEqual(x, high))?;
    work.add_two(arena, above, below, goal)
}
