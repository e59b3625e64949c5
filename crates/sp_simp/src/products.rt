//! The rules at products.

ghost use Rattle.std.specs.Prelude.{◌≡◌, ◌<◌, ◌*ℤ◌, length, IfSome};
ghost use Rattle.sp_term.specs.Pools.{tree_at};
ghost use Rattle.sp_simp.specs.Rules as spec;
ghost use Rattle.sp_simp.specs.code.Plans.{offset_at, multiple_at, IsPlan};

use crate::roots::{multiple, offset};
use crate::step::{Draft, Part, Step, first};
use sp_term::{Node, Pool};

// 1
fn fold_product(pool: &Pool, c: Option<i64>, d: Option<i64>) -> Step
    ensures { IsPlan pool.now result (spec.fold_two (λ c d. c *ℤ d) c d) }
{
    let (Some(c), Some(d)) = (c, d) else {
        return Step::Stay;
    };
    match c.checked_mul(d) {
        Some(n) => Step::Is(Part::Number(n)),
        None => Step::Stay,
    }
}

// 4
fn factor_first(pool: &Pool, x: Node, c: Option<i64>, d: Option<i64>) -> Step
    requires { x.0 < length pool.now }
    ensures { IsPlan pool.now result (spec.factor_first (tree_at pool.now x.0) c d) }
{
    match (c, d) {
        (None, Some(d)) => Step::Make(Draft::Multiply(Part::Number(d), Part::Have(x))),
        _ => Step::Stay,
    }
}

// 10
fn zero_times(pool: &Pool, c: Option<i64>) -> Step
    ensures { IsPlan pool.now result (spec.zero_times c) }
{
    match c {
        Some(c) => {
            if c == 0 {
                Step::Is(Part::Number(0))
            } else {
                Step::Stay
            }
        }
        None => Step::Stay,
    }
}

// 11
fn one_times(pool: &Pool, c: Option<i64>, x: Node) -> Step
    requires { x.0 < length pool.now }
    ensures { IsPlan pool.now result (spec.one_times c (tree_at pool.now x.0)) }
{
    match c {
        Some(c) => {
            if c == 1 {
                Step::Is(Part::Have(x))
            } else {
                Step::Stay
            }
        }
        None => Step::Stay,
    }
}

// 12
fn join_factors(pool: &Pool, c: Option<i64>, m: Option<(i64, Node)>) -> Step
    requires { IfSome m (λ p. p.1.0 < length pool.now) }
    ensures { IsPlan pool.now result (spec.join_factors c (multiple_at pool.now m)) }
{
    let (Some(c), Some((d, x))) = (c, m) else {
        return Step::Stay;
    };
    match c.checked_mul(d) {
        Some(n) => Step::Make(Draft::Multiply(Part::Number(n), Part::Have(x))),
        None => Step::Stay,
    }
}

// 13
fn factor_in(pool: &Pool, c: Option<i64>, x: Option<(Node, i64)>) -> Step
    requires { IfSome x (λ p. p.0.0 < length pool.now) }
    ensures { IsPlan pool.now result (spec.factor_in c (offset_at pool.now x)) }
{
    let (Some(c), Some((x, d))) = (c, x) else {
        return Step::Stay;
    };
    match c.checked_mul(d) {
        Some(n) => Step::MakePlus(Draft::Multiply(Part::Number(c), Part::Have(x)), n),
        None => Step::Stay,
    }
}

/// The rules at `x * y`, the last one first.
#[tactic(auto, unfolding(crate::specs::Rules::product_rule))]
pub fn product_step(pool: &Pool, x: Node, y: Node) -> Step
    requires x { x.0 < length pool.now }
    requires y { y.0 < length pool.now }
    ensures { IsPlan pool.now result (spec.product_rule (tree_at pool.now x.0) (tree_at pool.now y.0)) }
{
    let c = pool.literal(x);
    let d = pool.literal(y);
    let step = factor_in(pool, c, offset(pool, y));
    let step = first(pool, join_factors(pool, c, multiple(pool, y)), step);
    let step = first(pool, one_times(pool, c, y), step);
    let step = first(pool, zero_times(pool, c), step);
    let step = first(pool, factor_first(pool, x, c, d), step);
    first(pool, fold_product(pool, c, d), step)
}
