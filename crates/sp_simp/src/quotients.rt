//! The rules at quotients and remainders.

ghost use Rattle.std.specs.Prelude.{◌≡◌, ◌<◌, ◌≤◌, ◌^◌, length, unsigned_abs, IfSome};
ghost use Rattle.sp_base.specs.Integers.{quotient as quotient_of, remainder as remainder_of};
ghost use Rattle.sp_term.specs.Pools.{tree_at};
ghost use Rattle.sp_simp.specs.Rules as spec;
ghost use Rattle.sp_simp.specs.code.Plans.{offset_at, multiple_sum_at, reduced_sum_at, IsPlan};

use crate::roots::{multiple_sum, offset, reduced, reduced_sum};
use crate::step::{Draft, Part, Step, first};
use sp_term::{Interval, Node, Pool};

/// The quotient rounded down, 0 by 0.
fn wide_quotient(x: i128, y: i128) -> i128
    requires left { unsigned_abs x ≤ 2 ^ 63 }
    requires right { unsigned_abs y ≤ 2 ^ 63 }
    ensures { result ≡ quotient_of x y }
{
    if y == 0 {
        0
    } else if y > 0 {
        x.div_euclid(y)
    } else {
        (-x).div_euclid(-y)
    }
}

/// What the quotient leaves over, 0 by 0.
fn wide_remainder(x: i128, y: i128) -> i128
    requires left { unsigned_abs x ≤ 2 ^ 63 }
    requires right { unsigned_abs y ≤ 2 ^ 63 }
    ensures { result ≡ remainder_of x y }
{
    if y == 0 {
        0
    } else if y > 0 {
        x.rem_euclid(y)
    } else {
        -(-x).rem_euclid(-y)
    }
}

/// The literal of a number, where it is within 64 bits.
fn number(pool: &Pool, n: i128) -> Step
    ensures { IsPlan pool.now result (spec.number n) }
{
    match i64::try_from(n) {
        Ok(n) => Step::Is(Part::Number(n)),
        Err(_) => Step::Stay,
    }
}

// 1
fn fold_quotient(pool: &Pool, c: Option<i64>, d: Option<i64>) -> Step
    ensures { IsPlan pool.now result (spec.fold_two quotient_of c d) }
{
    let (Some(c), Some(d)) = (c, d) else {
        return Step::Stay;
    };
    number(pool, wide_quotient(i128::from(c), i128::from(d)))
}

// 1
fn fold_remainder(pool: &Pool, c: Option<i64>, d: Option<i64>) -> Step
    ensures { IsPlan pool.now result (spec.fold_two remainder_of c d) }
{
    let (Some(c), Some(d)) = (c, d) else {
        return Step::Stay;
    };
    number(pool, wide_remainder(i128::from(c), i128::from(d)))
}

// 15
fn over_one(pool: &Pool, x: Node, c: Option<i64>) -> Step
    requires { x.0 < length pool.now }
    ensures { IsPlan pool.now result (spec.over_one (tree_at pool.now x.0) c) }
{
    match c {
        Some(c) => {
            if c == 1 {
                Step::Is(Part::Have(x))
            } else {
                Step::Stay
            }
        }
        None => Step::Stay,
    }
}

// 16
fn modulo_one(pool: &Pool, c: Option<i64>) -> Step
    ensures { IsPlan pool.now result (spec.modulo_one c) }
{
    match c {
        Some(c) => {
            if c == 1 {
                Step::Is(Part::Number(0))
            } else {
                Step::Stay
            }
        }
        None => Step::Stay,
    }
}

/// Whether an interval lies within 0 to c - 1.
pub fn is_within(span: Option<Interval>, c: i64) -> bool
    ensures { result ≡ spec.is_within span c }
{
    match span {
        Some(i) => 0 <= i.low && i.high < c,
        None => false,
    }
}

// 17
fn small_quotient(pool: &Pool, span: Option<Interval>, c: Option<i64>) -> Step
    ensures { IsPlan pool.now result (spec.small_quotient span c) }
{
    match c {
        Some(c) => {
            if is_within(span, c) {
                Step::Is(Part::Number(0))
            } else {
                Step::Stay
            }
        }
        None => Step::Stay,
    }
}

// 18
fn small_remainder(pool: &Pool, x: Node, span: Option<Interval>, c: Option<i64>) -> Step
    requires { x.0 < length pool.now }
    ensures { IsPlan pool.now result (spec.small_remainder (tree_at pool.now x.0) span c) }
{
    match c {
        Some(c) => {
            if is_within(span, c) {
                Step::Is(Part::Have(x))
            } else {
                Step::Stay
            }
        }
        None => Step::Stay,
    }
}

fn is_divisor(d: i64, c: i64) -> bool
    ensures { result ≡ spec.is_divisor d c }
{
    0 < c && 0 < d && c.rem_euclid(d) == 0
}

// 19
fn remainder_twice(pool: &Pool, r: Option<(Node, i64)>, d: Option<i64>) -> Step
    requires { IfSome r (λ p. p.0.0 < length pool.now) }
    ensures { IsPlan pool.now result (spec.remainder_twice (offset_at pool.now r) d) }
{
    let (Some((x, c)), Some(d)) = (r, d) else {
        return Step::Stay;
    };
    if is_divisor(d, c) {
        Step::Make(Draft::Remainder(Part::Have(x), Part::Number(d)))
    } else {
        Step::Stay
    }
}

// 20
fn remainder_in_sum(pool: &Pool, s: Option<((Node, i64), Node)>, d: Option<i64>) -> Step
    requires part { IfSome s (λ p. p.0.0.0 < length pool.now) }
    requires rest { IfSome s (λ p. p.1.0 < length pool.now) }
    ensures { IsPlan pool.now result (spec.remainder_in_sum (reduced_sum_at pool.now s) d) }
{
    let (Some(((x, c), y)), Some(d)) = (s, d) else {
        return Step::Stay;
    };
    if is_divisor(d, c) {
        Step::MakeModulo(Draft::Add(Part::Have(x), Part::Have(y)), d)
    } else {
        Step::Stay
    }
}

fn is_beyond(c: i64, d: i64) -> bool
    ensures { result ≡ spec.is_beyond c d }
{
    0 < d && !(0 <= c && c < d)
}

// 21
fn offset_reduced(pool: &Pool, x: Option<(Node, i64)>, d: Option<i64>) -> Step
    requires { IfSome x (λ p. p.0.0 < length pool.now) }
    ensures { IsPlan pool.now result (spec.offset_reduced (offset_at pool.now x) d) }
{
    let (Some((x, c)), Some(d)) = (x, d) else {
        return Step::Stay;
    };
    if is_beyond(c, d) {
        Step::MakeModulo(Draft::Add(Part::Have(x), Part::Number(c.rem_euclid(d))), d)
    } else {
        Step::Stay
    }
}

// 22
fn quotient_of_multiple(pool: &Pool, s: Option<((i64, Node), Node)>, c: Option<i64>) -> Step
    requires part { IfSome s (λ p. p.0.1.0 < length pool.now) }
    requires rest { IfSome s (λ p. p.1.0 < length pool.now) }
    ensures { IsPlan pool.now result (spec.quotient_of_multiple (multiple_sum_at pool.now s) c) }
{
    let (Some(((b, y), x)), Some(c)) = (s, c) else {
        return Step::Stay;
    };
    if b == c && is_within(pool.span(x), c) {
        Step::Is(Part::Have(y))
    } else {
        Step::Stay
    }
}

// 23
fn remainder_of_multiple(pool: &Pool, s: Option<((i64, Node), Node)>, c: Option<i64>) -> Step
    requires part { IfSome s (λ p. p.0.1.0 < length pool.now) }
    requires rest { IfSome s (λ p. p.1.0 < length pool.now) }
    ensures { IsPlan pool.now result (spec.remainder_of_multiple (multiple_sum_at pool.now s) c) }
{
    let (Some(((b, _), x)), Some(c)) = (s, c) else {
        return Step::Stay;
    };
    if b == c && is_within(pool.span(x), c) {
        Step::Is(Part::Have(x))
    } else {
        Step::Stay
    }
}

/// The rules at `x div y`, the last one first.
#[tactic(auto, unfolding(crate::specs::Rules::quotient_rule))]
pub fn quotient_step(pool: &Pool, x: Node, y: Node) -> Step
    requires x { x.0 < length pool.now }
    requires y { y.0 < length pool.now }
    ensures { IsPlan pool.now result (spec.quotient_rule (tree_at pool.now x.0) (tree_at pool.now y.0)) }
{
    let d = pool.literal(y);
    let step = quotient_of_multiple(pool, multiple_sum(pool, x), d);
    let step = first(pool, small_quotient(pool, pool.span(x), d), step);
    let step = first(pool, over_one(pool, x, d), step);
    first(pool, fold_quotient(pool, pool.literal(x), d), step)
}

/// The rules at `x mod y`, the last one first.
#[tactic(auto, unfolding(crate::specs::Rules::remainder_rule))]
pub fn remainder_step(pool: &Pool, x: Node, y: Node) -> Step
    requires x { x.0 < length pool.now }
    requires y { y.0 < length pool.now }
    ensures { IsPlan pool.now result (spec.remainder_rule (tree_at pool.now x.0) (tree_at pool.now y.0)) }
{
    let d = pool.literal(y);
    let step = remainder_of_multiple(pool, multiple_sum(pool, x), d);
    let step = first(pool, offset_reduced(pool, offset(pool, x), d), step);
    let step = first(pool, remainder_in_sum(pool, reduced_sum(pool, x), d), step);
    let step = first(pool, remainder_twice(pool, reduced(pool, x), d), step);
    let step = first(pool, small_remainder(pool, x, pool.span(x), d), step);
    let step = first(pool, modulo_one(pool, d), step);
    first(pool, fold_remainder(pool, pool.literal(x), d), step)
}
