//! The rules at connectives and quantifiers.

ghost use Rattle.std.specs.Prelude.{◌≡◌, ◌<◌, length, true, false};
ghost use Rattle.sp_term.specs.Intervals.{literal as literal_of};
ghost use Rattle.sp_term.specs.Pools.{tree_at};
ghost use Rattle.sp_simp.specs.Same.{tree_eq};
ghost use Rattle.sp_simp.specs.Rules as spec;
ghost use Rattle.sp_simp.specs.code.Plans.{IsPlan};

use crate::Relation;
use crate::cells::is_empty;
use crate::roots::{same, truth};
use crate::step::{Draft, Part, Step};
use sp_term::{Node, Pool, Shape};

/// The rule at `not p`, 37.
pub fn not_step(pool: &Pool, p: Node) -> Step
    requires { p.0 < length pool.now }
    ensures { IsPlan pool.now result (spec.negated (tree_at pool.now p.0)) }
{
    match pool.shape(p) {
        Shape::Truth(b) => Step::Is(Part::Truth(!b)),
        Shape::Not(q) => Step::Is(Part::Have(q)),
        Shape::LessOrEqual(x, y) => Step::Make(Draft::Compare(
            Relation::Less,
            Part::Have(y),
            Part::Have(x),
        )),
        Shape::Less(x, y) => Step::Make(Draft::Compare(
            Relation::LessOrEqual,
            Part::Have(y),
            Part::Have(x),
        )),
        _ => Step::Stay,
    }
}

/// What is left of `p and q` where p is known, with `unit` true; of `p or q` with `unit` false.
fn with_known(pool: &Pool, unit: bool, b: bool, q: Node) -> Step
    requires { q.0 < length pool.now }
    ensures { IsPlan pool.now result (spec.with_known unit b (tree_at pool.now q.0)) }
{
    if b == unit {
        Step::Is(Part::Have(q))
    } else {
        Step::Is(Part::Truth(b))
    }
}

// 38
fn joined(pool: &Pool, unit: bool, p: Node, q: Node) -> Step
    requires p { p.0 < length pool.now }
    requires q { q.0 < length pool.now }
    ensures { IsPlan pool.now result (spec.joined unit (tree_at pool.now p.0) (spec.truth (tree_at pool.now p.0)) (tree_at pool.now q.0)
        (spec.truth (tree_at pool.now q.0)) (tree_eq (tree_at pool.now p.0) (tree_at pool.now q.0))) }
{
    match (truth(pool, p), truth(pool, q)) {
        (Some(b), _) => with_known(pool, unit, b, q),
        (None, Some(b)) => with_known(pool, unit, b, p),
        (None, None) => {
            if same(pool, p, q) {
                Step::Is(Part::Have(p))
            } else {
                Step::Stay
            }
        }
    }
}

/// The rules at `p and q`.
pub fn and_step(pool: &Pool, p: Node, q: Node) -> Step
    requires p { p.0 < length pool.now }
    requires q { q.0 < length pool.now }
    ensures { IsPlan pool.now result (spec.joined true (tree_at pool.now p.0) (spec.truth (tree_at pool.now p.0)) (tree_at pool.now q.0)
        (spec.truth (tree_at pool.now q.0)) (tree_eq (tree_at pool.now p.0) (tree_at pool.now q.0))) }
{
    joined(pool, true, p, q)
}

/// The rules at `p or q`.
pub fn or_step(pool: &Pool, p: Node, q: Node) -> Step
    requires p { p.0 < length pool.now }
    requires q { q.0 < length pool.now }
    ensures { IsPlan pool.now result (spec.joined false (tree_at pool.now p.0) (spec.truth (tree_at pool.now p.0)) (tree_at pool.now q.0)
        (spec.truth (tree_at pool.now q.0)) (tree_eq (tree_at pool.now p.0) (tree_at pool.now q.0))) }
{
    joined(pool, false, p, q)
}

/// The rules at `p -> q`, 39.
pub fn implies_step(pool: &Pool, p: Node, q: Node) -> Step
    requires p { p.0 < length pool.now }
    requires q { q.0 < length pool.now }
    ensures { IsPlan pool.now result (spec.implied (tree_at pool.now p.0) (spec.truth (tree_at pool.now p.0)) (tree_at pool.now q.0)
        (spec.truth (tree_at pool.now q.0)) (tree_eq (tree_at pool.now p.0) (tree_at pool.now q.0))) }
{
    match (truth(pool, p), truth(pool, q)) {
        (Some(true), _) => Step::Is(Part::Have(q)),
        (Some(false), _) | (None, Some(true)) => Step::Is(Part::Truth(true)),
        (None, Some(false)) => Step::Make(Draft::Not(p)),
        (None, None) => {
            if same(pool, p, q) {
                Step::Is(Part::Truth(true))
            } else {
                Step::Stay
            }
        }
    }
}

/// The rules at `p <-> q`, 39.
pub fn iff_step(pool: &Pool, p: Node, q: Node) -> Step
    requires p { p.0 < length pool.now }
    requires q { q.0 < length pool.now }
    ensures { IsPlan pool.now result (spec.equivalent (tree_at pool.now p.0) (spec.truth (tree_at pool.now p.0)) (tree_at pool.now q.0)
        (spec.truth (tree_at pool.now q.0)) (tree_eq (tree_at pool.now p.0) (tree_at pool.now q.0))) }
{
    match (truth(pool, p), truth(pool, q)) {
        (Some(true), _) => Step::Is(Part::Have(q)),
        (_, Some(true)) => Step::Is(Part::Have(p)),
        (Some(false), _) => Step::Make(Draft::Not(q)),
        (None, Some(false)) => Step::Make(Draft::Not(p)),
        (None, None) => {
            if same(pool, p, q) {
                Step::Is(Part::Truth(true))
            } else {
                Step::Stay
            }
        }
    }
}

fn is_known(unit: bool, p: Option<bool>) -> bool
    ensures { result ≡ spec.is_known unit p }
{
    match p {
        Some(b) => b == unit,
        None => false,
    }
}

/// The rules at `for_all` with `unit` true, and at `for_some` with `unit` false, 40.
pub fn quantified_step(pool: &Pool, unit: bool, x: Node, y: Node, p: Node) -> Step
    requires x { x.0 < length pool.now }
    requires y { y.0 < length pool.now }
    requires p { p.0 < length pool.now }
    ensures { IsPlan pool.now result (spec.quantified unit (literal_of (tree_at pool.now x.0)) (literal_of (tree_at pool.now y.0))
        (spec.truth (tree_at pool.now p.0))) }
{
    if is_known(unit, truth(pool, p)) || is_empty(pool.literal(x), pool.literal(y)) {
        Step::Is(Part::Truth(unit))
    } else {
        Step::Stay
    }
}
