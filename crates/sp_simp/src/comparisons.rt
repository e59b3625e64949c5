//! The rules at comparisons.

ghost use Rattle.std.specs.Prelude.{◌≡◌, ◌<◌, ◌||◌, length, IfSome};
ghost use Rattle.sp_term.specs.Pools.{tree_at};
ghost use Rattle.sp_simp.specs.Rules as spec;
ghost use Rattle.sp_simp.specs.code.Plans.{offset_at, base_tree, part_tree, IsPartWithin, IsPlan};

use crate::Relation;
use crate::roots::{base, offset, same, same_base};
use crate::step::{Draft, Part, Step, first};
use sp_term::{Interval, Node, Pool, Shape};

// 31
fn compare_same(pool: &Pool, r: Relation, same: bool) -> Step
    ensures { IsPlan pool.now result (spec.compare_same r same) }
{
    if same {
        match r {
            Relation::Less => Step::Is(Part::Truth(false)),
            _ => Step::Is(Part::Truth(true)),
        }
    } else {
        Step::Stay
    }
}

fn verdict(pool: &Pool, holds: bool, fails: bool) -> Step
    ensures { IsPlan pool.now result (spec.verdict holds fails) }
{
    if holds {
        Step::Is(Part::Truth(true))
    } else if fails {
        Step::Is(Part::Truth(false))
    } else {
        Step::Stay
    }
}

fn decided(pool: &Pool, r: Relation, i: Interval, j: Interval) -> Step
    ensures { IsPlan pool.now result (spec.decided r i j) }
{
    match r {
        Relation::Equal => {
            let one = i.high <= j.low && j.high <= i.low;
            let apart = i.high < j.low || j.high < i.low;
            verdict(pool, one, apart)
        }
        Relation::Less => verdict(pool, i.high < j.low, j.high <= i.low),
        Relation::LessOrEqual => verdict(pool, i.high <= j.low, j.high < i.low),
    }
}

// 32
fn compare_intervals(pool: &Pool, r: Relation, x: Option<Interval>, y: Option<Interval>) -> Step
    ensures { IsPlan pool.now result (spec.compare_intervals r x y) }
{
    match (x, y) {
        (Some(i), Some(j)) => decided(pool, r, i, j),
        _ => Step::Stay,
    }
}

// 33
fn compare_left_offset(pool: &Pool, r: Relation, x: Option<(Node, i64)>, d: Option<i64>) -> Step
    requires { IfSome x (λ p. p.0.0 < length pool.now) }
    ensures { IsPlan pool.now result (spec.compare_left_offset r (offset_at pool.now x) d) }
{
    let (Some((x, c)), Some(d)) = (x, d) else {
        return Step::Stay;
    };
    match d.checked_sub(c) {
        Some(n) => Step::Make(Draft::Compare(r, Part::Have(x), Part::Number(n))),
        None => Step::Stay,
    }
}

// 33
fn compare_right_offset(pool: &Pool, r: Relation, d: Option<i64>, y: Option<(Node, i64)>) -> Step
    requires { IfSome y (λ p. p.0.0 < length pool.now) }
    ensures { IsPlan pool.now result (spec.compare_right_offset r d (offset_at pool.now y)) }
{
    let (Some(d), Some((y, c))) = (d, y) else {
        return Step::Stay;
    };
    match d.checked_sub(c) {
        Some(n) => Step::Make(Draft::Compare(r, Part::Number(n), Part::Have(y))),
        None => Step::Stay,
    }
}

// 34
fn compare_offsets(
    pool: &Pool,
    r: Relation,
    sum: bool,
    a: (Option<Node>, i64),
    b: (Option<Node>, i64),
) -> Step
    requires a { IfSome a.0 (λ n. n.0 < length pool.now) }
    requires b { IfSome b.0 (λ n. n.0 < length pool.now) }
    ensures { IsPlan pool.now result (spec.compare_offsets r sum (base_tree pool.now a.0, a.1) (base_tree pool.now b.0, b.1)) }
{
    if sum && same_base(pool, a.0, b.0) {
        Step::Make(Draft::Compare(r, Part::Number(a.1), Part::Number(b.1)))
    } else {
        Step::Stay
    }
}

/// A base as a part of what a rule writes.
fn base_part(pool: &Pool, x: Option<Node>) -> Part
    requires { IfSome x (λ n. n.0 < length pool.now) }
    ensures is { part_tree pool.now result ≡ base_tree pool.now x }
    ensures within { IsPartWithin (length pool.now) result }
{
    match x {
        Some(n) => Part::Have(n),
        None => Part::Number(0),
    }
}

// 34
fn compare_bases(
    pool: &Pool,
    r: Relation,
    sum: bool,
    a: (Option<Node>, i64),
    b: (Option<Node>, i64),
) -> Step
    requires a { IfSome a.0 (λ n. n.0 < length pool.now) }
    requires b { IfSome b.0 (λ n. n.0 < length pool.now) }
    ensures { IsPlan pool.now result (spec.compare_bases r sum (base_tree pool.now a.0, a.1) (base_tree pool.now b.0, b.1)) }
{
    if sum && a.1 == b.1 && a.1 != 0 {
        Step::Make(Draft::Compare(r, base_part(pool, a.0), base_part(pool, b.0)))
    } else {
        Step::Stay
    }
}

/// Whether one of two places has a sum x + c.
fn is_sum(pool: &Pool, x: Node, y: Node) -> bool
    requires x { x.0 < length pool.now }
    requires y { y.0 < length pool.now }
    ensures { result ≡ (spec.is_sum (spec.offset (tree_at pool.now x.0)) || spec.is_sum (spec.offset (tree_at pool.now y.0))) }
{
    match (offset(pool, x), offset(pool, y)) {
        (None, None) => false,
        _ => true,
    }
}

// 34
fn compare_based(pool: &Pool, r: Relation, x: Node, y: Node) -> Step
    requires x { x.0 < length pool.now }
    requires y { y.0 < length pool.now }
    ensures { IsPlan pool.now result (spec.compare_based r (tree_at pool.now x.0) (tree_at pool.now y.0)) }
{
    let sum = is_sum(pool, x, y);
    let a = base(pool, x);
    let b = base(pool, y);
    first(
        pool,
        compare_offsets(pool, r, sum, a, b),
        compare_bases(pool, r, sum, a, b),
    )
}

/// The rules at a comparison, the last one first.
#[tactic(auto, unfolding(crate::specs::Rules::comparison_rule))]
pub fn comparison_step(pool: &Pool, r: Relation, x: Node, y: Node) -> Step
    requires x { x.0 < length pool.now }
    requires y { y.0 < length pool.now }
    ensures { IsPlan pool.now result (spec.comparison_rule r (tree_at pool.now x.0) (tree_at pool.now y.0)) }
{
    let step = compare_based(pool, r, x, y);
    let step = first(
        pool,
        compare_right_offset(pool, r, pool.literal(x), offset(pool, y)),
        step,
    );
    let step = first(
        pool,
        compare_left_offset(pool, r, offset(pool, x), pool.literal(y)),
        step,
    );
    let step = first(
        pool,
        compare_intervals(pool, r, pool.span(x), pool.span(y)),
        step,
    );
    first(pool, compare_same(pool, r, same(pool, x, y)), step)
}

// 35
fn equal_turned(pool: &Pool, c: Option<i64>, x: Node, d: Option<i64>) -> Step
    requires { x.0 < length pool.now }
    ensures { IsPlan pool.now result (spec.equal_turned c (tree_at pool.now x.0) d) }
{
    match (c, d) {
        (Some(c), None) => Step::Make(Draft::Compare(
            Relation::Equal,
            Part::Have(x),
            Part::Number(c),
        )),
        _ => Step::Stay,
    }
}

fn chosen_is(pool: &Pool, p: Node, c: Option<i64>, d: Option<i64>, e: i64) -> Step
    requires { p.0 < length pool.now }
    ensures { IsPlan pool.now result (spec.chosen_is (tree_at pool.now p.0) c d e) }
{
    let (Some(c), Some(d)) = (c, d) else {
        return Step::Stay;
    };
    if c == d {
        Step::Stay
    } else if c == e {
        Step::Is(Part::Have(p))
    } else if d == e {
        Step::Make(Draft::Not(p))
    } else {
        Step::Is(Part::Truth(false))
    }
}

// 36
fn equal_choice(pool: &Pool, x: Node, e: Option<i64>) -> Step
    requires { x.0 < length pool.now }
    ensures { IsPlan pool.now result (spec.equal_choice (tree_at pool.now x.0) e) }
{
    let (Shape::If(p, x, y), Some(e)) = (pool.shape(x), e) else {
        return Step::Stay;
    };
    chosen_is(pool, p, pool.literal(x), pool.literal(y), e)
}

/// The rules at `x = y`, the last one first.
#[tactic(auto, unfolding(crate::specs::Rules::equality_rule))]
pub fn equality_step(pool: &Pool, x: Node, y: Node) -> Step
    requires x { x.0 < length pool.now }
    requires y { y.0 < length pool.now }
    ensures { IsPlan pool.now result (spec.equality_rule (tree_at pool.now x.0) (tree_at pool.now y.0)) }
{
    let step = equal_choice(pool, x, pool.literal(y));
    let step = first(
        pool,
        equal_turned(pool, pool.literal(x), y, pool.literal(y)),
        step,
    );
    first(pool, comparison_step(pool, Relation::Equal, x, y), step)
}
