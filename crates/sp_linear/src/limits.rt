//! The limits of the step, read from the terms and the multipliers.

ghost use Rattle.std.specs.Prelude.{◌≡◌, ◌+◌, ◌*◌, ◌^◌, min, max, unsigned_abs};
ghost use Rattle.sp_linear.specs.Polynomials.{size, count};
ghost use Rattle.sp_linear.specs.Linear.{goal_sides, sides_of_not, hypothesis_sides, sizes, counts, named};
ghost use Rattle.sp_linear.specs.code.Tests.{is_small};

use sp_term::{Kind, Term};

const SIZES: u128 = 1 << 120;

const COUNTS: u64 = 1025;

fn size_sum(a: u128, b: u128) -> u128
    ensures { result ≡ min (a + b) (2 ^ 120) }
{
    a.saturating_add(b).min(SIZES)
}

fn size_product(a: u128, b: u128) -> u128
    ensures { result ≡ min (a * b) (2 ^ 120) }
{
    a.saturating_mul(b).min(SIZES)
}

fn count_sum(a: u64, b: u64) -> u64
    ensures { result ≡ min (a + b) 1025 }
{
    a.saturating_add(b).min(COUNTS)
}

fn count_product(a: u64, b: u64) -> u64
    ensures { result ≡ min (a * b) 1025 }
{
    a.saturating_mul(b).min(COUNTS)
}

/// The greater of 1 and the absolute value.
fn weight(n: i64) -> u128
    ensures { result ≡ max 1 (unsigned_abs n) }
{
    (n.unsigned_abs() as u128).max(1)
}

/// The size of a term, at most the limit.
#[tactic(auto, using(crate::proofs::LimitLemmas::caps))]
fn size_of(t: &Term) -> u128
    ensures { result ≡ min (size t.now) (2 ^ 120) }
{
    match t.kind() {
        Kind::Literal(n) => weight(*n),
        Kind::Add(x, y) | Kind::Subtract(x, y) => size_sum(size_of(x), size_of(y)),
        Kind::Multiply(x, y) => size_product(size_of(x), size_of(y)),
        _ => 1,
    }
}

/// The count of a term, at most one more than the limit.
#[tactic(auto, using(crate::proofs::LimitLemmas::caps))]
fn count_of(t: &Term) -> u64
    ensures { result ≡ min (count t.now) 1025 }
{
    match t.kind() {
        Kind::Add(x, y) | Kind::Subtract(x, y) => count_sum(count_of(x), count_of(y)),
        Kind::Multiply(x, y) => count_product(count_of(x), count_of(y)),
        _ => 1,
    }
}

/// The size of a comparison of two terms, at most the limit.
fn compared_size(x: &Term, y: &Term) -> u128
    ensures { result ≡ min (size x.now + size y.now + 1) (2 ^ 120) }
{
    size_sum(size_sum(size_of(x), size_of(y)), 1)
}

fn compared_count(x: &Term, y: &Term) -> u64
    ensures { result ≡ min (count x.now + count y.now + 1) 1025 }
{
    count_sum(count_sum(count_of(x), count_of(y)), 1)
}

fn goal_size(goal: &Term) -> u128
    ensures { result ≡ min (goal_sides goal.now size) (2 ^ 120) }
{
    match goal.kind() {
        Kind::LessOrEqual(x, y) | Kind::Less(x, y) | Kind::Equal(x, y) => compared_size(x, y),
        _ => 0,
    }
}

fn goal_count(goal: &Term) -> u64
    ensures { result ≡ min (goal_sides goal.now count) 1025 }
{
    match goal.kind() {
        Kind::LessOrEqual(x, y) | Kind::Less(x, y) | Kind::Equal(x, y) => compared_count(x, y),
        _ => 0,
    }
}

fn negation_size(p: &Term) -> u128
    ensures { result ≡ min (sides_of_not p.now size) (2 ^ 120) }
{
    match p.kind() {
        Kind::Less(x, y) | Kind::LessOrEqual(x, y) => compared_size(x, y),
        _ => 0,
    }
}

fn negation_count(p: &Term) -> u64
    ensures { result ≡ min (sides_of_not p.now count) 1025 }
{
    match p.kind() {
        Kind::Less(x, y) | Kind::LessOrEqual(x, y) => compared_count(x, y),
        _ => 0,
    }
}

fn hypothesis_size(h: &Term) -> u128
    ensures { result ≡ min (hypothesis_sides h.now size) (2 ^ 120) }
{
    match h.kind() {
        Kind::LessOrEqual(x, y) | Kind::Less(x, y) | Kind::Equal(x, y) => compared_size(x, y),
        Kind::Not(p) => negation_size(p),
        _ => 0,
    }
}

fn hypothesis_count(h: &Term) -> u64
    ensures { result ≡ min (hypothesis_sides h.now count) 1025 }
{
    match h.kind() {
        Kind::LessOrEqual(x, y) | Kind::Less(x, y) | Kind::Equal(x, y) => compared_count(x, y),
        Kind::Not(p) => negation_count(p),
        _ => 0,
    }
}

/// A size taken so many times.
fn weighted(size: u128, n: i64) -> u128
    ensures { result ≡ min (size * max 1 (unsigned_abs n)) (2 ^ 120) }
{
    size_product(size, weight(n))
}

/// What a hypothesis adds to the size of the step.
#[tactic(auto, using(crate::proofs::LimitLemmas::cap_hypothesis))]
fn named_size(n: i64, h: &Term) -> u128
    ensures { result ≡ min (hypothesis_sides h.now size * max 1 (unsigned_abs n)) (2 ^ 120) }
{
    weighted(hypothesis_size(h), n)
}

#[tactic(auto, using(crate::proofs::LimitLemmas::cap_goal))]
fn weighted_goal(n0: i64, goal: &Term) -> u128
    ensures { result ≡ min (goal_sides goal.now size * max 1 (unsigned_abs n0)) (2 ^ 120) }
{
    weighted(goal_size(goal), n0)
}

fn all_sizes(by: &[(i64, &Term)]) -> u128
    ensures { result ≡ min (sizes (named by.now)) (2 ^ 120) }
{
    let mut total = 0u128;
    for h in by {
        total = size_sum(total, named_size(h.0, h.1));
    }
    total
}

fn all_counts(by: &[(i64, &Term)]) -> u64
    ensures { result ≡ min (counts (named by.now)) 1025 }
{
    let mut total = 0u64;
    for h in by {
        total = count_sum(total, hypothesis_count(h.1));
    }
    total
}

/// Whether the size of the step is below 2 to the power 120, and its count at most 1,024.
#[tactic(auto, using(crate::proofs::LimitLemmas::small_tests))]
pub(crate) fn keeps_limits(goal: &Term, n0: i64, by: &[(i64, &Term)]) -> bool
    ensures { result ≡ is_small n0 (named by.now) goal.now }
{
    let size = size_sum(weighted_goal(n0, goal), all_sizes(by));
    let count = count_sum(goal_count(goal), all_counts(by));
    size < SIZES && count < COUNTS
}
