//! The rules at sums and differences.

ghost use Rattle.std.specs.Prelude.{◌≡◌, ◌<◌, ◌+ℤ◌, ◌-ℤ◌, length, IfSome};
ghost use Rattle.sp_term.specs.Pools.{tree_at};
ghost use Rattle.sp_simp.specs.Rules as spec;
ghost use Rattle.sp_simp.specs.code.Plans.{offset_at, multiple_at, IsPlan};

use crate::roots::{divided, multiple, offset, reduced, same};
use crate::step::{Draft, Part, Step, first};
use sp_term::{Node, Pool};

// 1
fn fold_sum(pool: &Pool, c: Option<i64>, d: Option<i64>) -> Step
    ensures { IsPlan pool.now result (spec.fold_two (λ c d. c +ℤ d) c d) }
{
    let (Some(c), Some(d)) = (c, d) else {
        return Step::Stay;
    };
    match c.checked_add(d) {
        Some(n) => Step::Is(Part::Number(n)),
        None => Step::Stay,
    }
}

// 1
fn fold_difference(pool: &Pool, c: Option<i64>, d: Option<i64>) -> Step
    ensures { IsPlan pool.now result (spec.fold_two (λ c d. c -ℤ d) c d) }
{
    let (Some(c), Some(d)) = (c, d) else {
        return Step::Stay;
    };
    match c.checked_sub(d) {
        Some(n) => Step::Is(Part::Number(n)),
        None => Step::Stay,
    }
}

// 2
fn same_difference(pool: &Pool, same: bool) -> Step
    ensures { IsPlan pool.now result (spec.same_difference same) }
{
    if same {
        Step::Is(Part::Number(0))
    } else {
        Step::Stay
    }
}

// 3
fn literal_last(pool: &Pool, c: Option<i64>, x: Node, d: Option<i64>) -> Step
    requires { x.0 < length pool.now }
    ensures { IsPlan pool.now result (spec.literal_last c (tree_at pool.now x.0) d) }
{
    match (c, d) {
        (Some(c), None) => Step::Make(Draft::Add(Part::Have(x), Part::Number(c))),
        _ => Step::Stay,
    }
}

// 5
fn plus_zero(pool: &Pool, x: Node, c: Option<i64>) -> Step
    requires { x.0 < length pool.now }
    ensures { IsPlan pool.now result (spec.plus_zero (tree_at pool.now x.0) c) }
{
    match c {
        Some(c) => {
            if c == 0 {
                Step::Is(Part::Have(x))
            } else {
                Step::Stay
            }
        }
        None => Step::Stay,
    }
}

// 6
fn minus_literal(pool: &Pool, x: Node, c: Option<i64>) -> Step
    requires { x.0 < length pool.now }
    ensures { IsPlan pool.now result (spec.minus_literal (tree_at pool.now x.0) c) }
{
    let Some(c) = c else {
        return Step::Stay;
    };
    match c.checked_neg() {
        Some(n) => Step::Make(Draft::Add(Part::Have(x), Part::Number(n))),
        None => Step::Stay,
    }
}

// 7
fn join_offsets(pool: &Pool, x: Option<(Node, i64)>, d: Option<i64>) -> Step
    requires { IfSome x (λ p. p.0.0 < length pool.now) }
    ensures { IsPlan pool.now result (spec.join_offsets (offset_at pool.now x) d) }
{
    let (Some((x, c)), Some(d)) = (x, d) else {
        return Step::Stay;
    };
    match c.checked_add(d) {
        Some(n) => Step::Make(Draft::Add(Part::Have(x), Part::Number(n))),
        None => Step::Stay,
    }
}

// 8
fn left_offset_out(pool: &Pool, x: Option<(Node, i64)>, y: Node, d: Option<i64>) -> Step
    requires x { IfSome x (λ p. p.0.0 < length pool.now) }
    requires y { y.0 < length pool.now }
    ensures { IsPlan pool.now result (spec.left_offset_out (offset_at pool.now x) (tree_at pool.now y.0) d) }
{
    match (x, d) {
        (Some((x, c)), None) => Step::MakePlus(Draft::Add(Part::Have(x), Part::Have(y)), c),
        _ => Step::Stay,
    }
}

// 9
fn right_offset_out(pool: &Pool, x: Node, y: Option<(Node, i64)>) -> Step
    requires x { x.0 < length pool.now }
    requires y { IfSome y (λ p. p.0.0 < length pool.now) }
    ensures { IsPlan pool.now result (spec.right_offset_out (tree_at pool.now x.0) (offset_at pool.now y)) }
{
    match y {
        Some((y, c)) => Step::MakePlus(Draft::Add(Part::Have(x), Part::Have(y)), c),
        None => Step::Stay,
    }
}

fn are_parts(pool: &Pool, c: i64, q: (Node, i64), r: (Node, i64)) -> bool
    requires q { q.0.0 < length pool.now }
    requires r { r.0.0 < length pool.now }
    ensures { result ≡ spec.are_parts c (tree_at pool.now q.0.0, q.1) (tree_at pool.now r.0.0, r.1) }
{
    0 < c && c == q.1 && c == r.1 && same(pool, q.0, r.0)
}

fn whole_of(pool: &Pool, c: i64, q: Option<(Node, i64)>, r: Option<(Node, i64)>) -> Step
    requires q { IfSome q (λ p. p.0.0 < length pool.now) }
    requires r { IfSome r (λ p. p.0.0 < length pool.now) }
    ensures { IsPlan pool.now result (spec.whole_of c (offset_at pool.now q) (offset_at pool.now r)) }
{
    let (Some(q), Some(r)) = (q, r) else {
        return Step::Stay;
    };
    if are_parts(pool, c, q, r) {
        Step::Is(Part::Have(r.0))
    } else {
        Step::Stay
    }
}

// 14
fn whole_again(pool: &Pool, m: Option<(i64, Node)>, r: Option<(Node, i64)>) -> Step
    requires m { IfSome m (λ p. p.1.0 < length pool.now) }
    requires r { IfSome r (λ p. p.0.0 < length pool.now) }
    ensures { IsPlan pool.now result (spec.whole_again (multiple_at pool.now m) (offset_at pool.now r)) }
{
    match m {
        Some((c, x)) => whole_of(pool, c, divided(pool, x), r),
        None => Step::Stay,
    }
}

/// The rules at `x + y`, the last one first.
#[tactic(auto, unfolding(crate::specs::Rules::sum_rule))]
pub fn sum_step(pool: &Pool, x: Node, y: Node) -> Step
    requires x { x.0 < length pool.now }
    requires y { y.0 < length pool.now }
    ensures { IsPlan pool.now result (spec.sum_rule (tree_at pool.now x.0) (tree_at pool.now y.0)) }
{
    let c = pool.literal(x);
    let d = pool.literal(y);
    let step = whole_again(pool, multiple(pool, x), reduced(pool, y));
    let step = first(pool, right_offset_out(pool, x, offset(pool, y)), step);
    let step = first(pool, left_offset_out(pool, offset(pool, x), y, d), step);
    let step = first(pool, join_offsets(pool, offset(pool, x), d), step);
    let step = first(pool, plus_zero(pool, x, d), step);
    let step = first(pool, literal_last(pool, c, y, d), step);
    first(pool, fold_sum(pool, c, d), step)
}

/// The rules at `x - y`, the last one first.
#[tactic(auto, unfolding(crate::specs::Rules::difference_rule))]
pub fn difference_step(pool: &Pool, x: Node, y: Node) -> Step
    requires x { x.0 < length pool.now }
    requires y { y.0 < length pool.now }
    ensures { IsPlan pool.now result (spec.difference_rule (tree_at pool.now x.0) (tree_at pool.now y.0)) }
{
    let c = pool.literal(x);
    let d = pool.literal(y);
    let step = first(
        pool,
        same_difference(pool, same(pool, x, y)),
        minus_literal(pool, x, d),
    );
    first(pool, fold_difference(pool, c, d), step)
}
