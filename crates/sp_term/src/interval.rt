ghost use Rattle.std.specs.Prelude.{◌≡◌, pos, ◌*ℤ◌};
ghost use Rattle.sp_term.specs.Admissible.{greatest_at};
ghost use Rattle.sp_term.specs.Intervals.{
  is_memory as stands_for_memory,
  if_within,
  of_variable as variable_interval,
  of_sum as sum_interval,
  of_difference as difference_interval,
  of_multiple as multiple_interval,
  of_quotient as quotient_interval,
  of_remainder as remainder_interval,
  hull as hull_of,
  of_total as total_interval,
};

use crate::Var;
use sp_base::Loc;

/// The least and the greatest number that a term can be.
#[derive(Clone, Copy, Debug, PartialEq, Eq)]
pub struct Interval {
    pub low: i64,
    pub high: i64,
}

/// Whether a variable stands for a memory.
pub fn is_memory(v: Var) -> bool
    ensures { result ≡ stands_for_memory v }
{
    matches!(v, Var::MemEntry | Var::Mem | Var::MemAfter(_))
}

fn greatest(x: Loc) -> i64
    ensures { result ≡ pos (greatest_at x) }
{
    match x {
        Loc::S | Loc::Z | Loc::Ac | Loc::P | Loc::Cy => 1,
        _ => 255,
    }
}

/// The interval of a variable, or of a memory's cells.
pub fn of_variable(v: Var) -> Option<Interval>
    ensures { result ≡ variable_interval v }
{
    match v {
        Var::Entry(x) | Var::Now(x) | Var::After(x, _) => Some(Interval {
            low: 0,
            high: greatest(x),
        }),
        Var::Any(_) | Var::Bound(_) => None,
        _ => Some(Interval { low: 0, high: 255 }),
    }
}

pub fn of_sum(x: Option<Interval>, y: Option<Interval>) -> Option<Interval>
    ensures { result ≡ sum_interval x y }
{
    let (Some(i), Some(j)) = (x, y) else {
        return None;
    };
    let (Some(low), Some(high)) = (i.low.checked_add(j.low), i.high.checked_add(j.high)) else {
        return None;
    };
    Some(Interval { low, high })
}

pub fn of_difference(x: Option<Interval>, y: Option<Interval>) -> Option<Interval>
    ensures { result ≡ difference_interval x y }
{
    let (Some(i), Some(j)) = (x, y) else {
        return None;
    };
    let (Some(low), Some(high)) = (i.low.checked_sub(j.high), i.high.checked_sub(j.low)) else {
        return None;
    };
    Some(Interval { low, high })
}

fn scaled(c: i64, low: i64, high: i64) -> Option<Interval>
    ensures { result ≡ if_within (c *ℤ low) (c *ℤ high) }
{
    let (Some(low), Some(high)) = (c.checked_mul(low), c.checked_mul(high)) else {
        return None;
    };
    Some(Interval { low, high })
}

/// That of a literal times a term.
pub fn of_multiple(c: Option<i64>, x: Option<Interval>) -> Option<Interval>
    ensures { result ≡ multiple_interval c x }
{
    let (Some(c), Some(i)) = (c, x) else {
        return None;
    };
    if c < 0 {
        scaled(c, i.high, i.low)
    } else {
        scaled(c, i.low, i.high)
    }
}

/// That of a term divided by a literal.
pub fn of_quotient(x: Option<Interval>, c: Option<i64>) -> Option<Interval>
    ensures { result ≡ quotient_interval x c }
{
    let (Some(i), Some(c)) = (x, c) else {
        return None;
    };
    if 0 < c {
        Some(Interval {
            low: i.low.div_euclid(c),
            high: i.high.div_euclid(c),
        })
    } else {
        None
    }
}

/// That of what a division by a literal leaves over.
pub fn of_remainder(c: Option<i64>) -> Option<Interval>
    ensures { result ≡ remainder_interval c }
{
    match c {
        Some(c) => {
            if 0 < c {
                Some(Interval {
                    low: 0,
                    high: c - 1,
                })
            } else {
                None
            }
        }
        None => None,
    }
}

pub fn hull(x: Option<Interval>, y: Option<Interval>) -> Option<Interval>
    ensures { result ≡ hull_of x y }
{
    let (Some(i), Some(j)) = (x, y) else {
        return None;
    };
    Some(Interval {
        low: i.low.min(j.low),
        high: i.high.max(j.high),
    })
}

/// That of a sum of a memory's cells, which is known where the memory is a variable.
pub fn of_total(is_variable: bool) -> Option<Interval>
    ensures { result ≡ total_interval is_variable }
{
    if is_variable {
        Some(Interval {
            low: 0,
            high: 16_711_680,
        })
    } else {
        None
    }
}
