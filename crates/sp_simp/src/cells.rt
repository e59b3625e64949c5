//! The rules at choices and at cells of memories.

ghost use Rattle.std.specs.Prelude.{◌≡◌, ◌<◌, length};
ghost use Rattle.sp_term.specs.Pools.{tree_at};
ghost use Rattle.sp_simp.specs.Rules as spec;
ghost use Rattle.sp_simp.specs.code.Plans.{IsPlan};

use crate::roots::{base, same, same_base, truth};
use crate::step::{Draft, Part, Step, first};
use sp_term::{Interval, Node, Pool, Shape};

// 27
fn choice(pool: &Pool, p: Option<bool>, same: bool, x: Node, y: Node) -> Step
    requires x { x.0 < length pool.now }
    requires y { y.0 < length pool.now }
    ensures { IsPlan pool.now result (spec.choice p same (tree_at pool.now x.0) (tree_at pool.now y.0)) }
{
    let _ = y;
    match p {
        Some(true) => Step::Is(Part::Have(x)),
        _ => {
            if same {
                Step::Is(Part::Have(x))
            } else {
                Step::Stay
            }
        }
    }
}

// 27
fn choice_false(pool: &Pool, p: Option<bool>, y: Node) -> Step
    requires { y.0 < length pool.now }
    ensures { IsPlan pool.now result (spec.choice_false p (tree_at pool.now y.0)) }
{
    match p {
        Some(false) => Step::Is(Part::Have(y)),
        _ => Step::Stay,
    }
}

/// The rules at `if(p,x,y)`.
#[tactic(auto, unfolding(crate::specs::Rules::choice_rule))]
pub fn choice_step(pool: &Pool, p: Node, x: Node, y: Node) -> Step
    requires p { p.0 < length pool.now }
    requires x { x.0 < length pool.now }
    requires y { y.0 < length pool.now }
    ensures { IsPlan pool.now result (spec.choice_rule (tree_at pool.now p.0) (tree_at pool.now x.0) (tree_at pool.now y.0)) }
{
    let p = truth(pool, p);
    let step = choice_false(pool, p, y);
    first(pool, choice(pool, p, same(pool, x, y), x, y), step)
}

fn are_disjoint(x: Option<Interval>, y: Option<Interval>) -> bool
    ensures { result ≡ spec.are_disjoint x y }
{
    match (x, y) {
        (Some(i), Some(j)) => i.high < j.low || j.high < i.low,
        _ => false,
    }
}

/// Whether two places have the same base and other offsets.
fn is_shifted(pool: &Pool, x: Node, y: Node) -> bool
    requires x { x.0 < length pool.now }
    requires y { y.0 < length pool.now }
    ensures { result ≡ spec.is_shifted (spec.base (tree_at pool.now x.0)) (spec.base (tree_at pool.now y.0)) }
{
    let (b, c) = base(pool, x);
    let (d, e) = base(pool, y);
    same_base(pool, b, d) && c != e
}

/// Whether two places have values that differ.
fn are_apart(pool: &Pool, x: Node, y: Node) -> bool
    requires x { x.0 < length pool.now }
    requires y { y.0 < length pool.now }
    ensures { result ≡ spec.are_apart (tree_at pool.now x.0) (tree_at pool.now y.0) }
{
    is_shifted(pool, x, y) || are_disjoint(pool.span(x), pool.span(y))
}

/// The rules at `element(m,[y])`, 28 and 29.
pub fn element_step(pool: &Pool, m: Node, y: Node) -> Step
    requires m { m.0 < length pool.now }
    requires y { y.0 < length pool.now }
    ensures { IsPlan pool.now result (spec.element_of (tree_at pool.now m.0) (tree_at pool.now y.0)) }
{
    let Shape::Update(m, x, v) = pool.shape(m) else {
        return Step::Stay;
    };
    if same(pool, x, y) {
        Step::Is(Part::Have(v))
    } else if are_apart(pool, x, y) {
        Step::Make(Draft::Element(m, y))
    } else {
        Step::Stay
    }
}

/// The rule at `update(m,[y],w)`, 30.
pub fn update_step(pool: &Pool, m: Node, y: Node, w: Node) -> Step
    requires m { m.0 < length pool.now }
    requires y { y.0 < length pool.now }
    requires w { w.0 < length pool.now }
    ensures { IsPlan pool.now result (spec.update_of (tree_at pool.now m.0) (tree_at pool.now y.0) (tree_at pool.now w.0)) }
{
    let Shape::Update(m, x, _) = pool.shape(m) else {
        return Step::Stay;
    };
    if same(pool, x, y) {
        Step::Make(Draft::Update(m, y, w))
    } else {
        Step::Stay
    }
}

/// Whether two literals are the ends of no number.
pub fn is_empty(c: Option<i64>, d: Option<i64>) -> bool
    ensures { result ≡ spec.is_empty c d }
{
    match (c, d) {
        (Some(c), Some(d)) => d < c,
        _ => false,
    }
}

// 41
fn empty_total(pool: &Pool, c: Option<i64>, d: Option<i64>) -> Step
    ensures { IsPlan pool.now result (spec.empty_total c d) }
{
    if is_empty(c, d) {
        Step::Is(Part::Number(0))
    } else {
        Step::Stay
    }
}

// 42
fn total_of_one(pool: &Pool, same: bool, m: Node, x: Node) -> Step
    requires m { m.0 < length pool.now }
    requires x { x.0 < length pool.now }
    ensures { IsPlan pool.now result (spec.total_of_one same (tree_at pool.now m.0) (tree_at pool.now x.0)) }
{
    if same {
        Step::Make(Draft::Element(m, x))
    } else {
        Step::Stay
    }
}

/// The rules at `total(m,[x],[y])`.
#[tactic(auto, unfolding(crate::specs::Rules::total_rule))]
pub fn total_step(pool: &Pool, m: Node, x: Node, y: Node) -> Step
    requires m { m.0 < length pool.now }
    requires x { x.0 < length pool.now }
    requires y { y.0 < length pool.now }
    ensures { IsPlan pool.now result (spec.total_rule (tree_at pool.now m.0) (tree_at pool.now x.0) (tree_at pool.now y.0)) }
{
    let step = total_of_one(pool, same(pool, x, y), m, x);
    first(
        pool,
        empty_total(pool, pool.literal(x), pool.literal(y)),
        step,
    )
}
