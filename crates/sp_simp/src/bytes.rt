//! The rules at bytes, bits and flags.

ghost use Rattle.std.specs.Prelude.{◌≡◌, ◌<◌, length, pos};
ghost use Rattle.sp_base.specs.Integers.{low_byte as byte_of, byte_and, byte_or, byte_xor, parity as parity_of};
ghost use Rattle.sp_term.specs.Intervals.{literal as literal_of};
ghost use Rattle.sp_term.specs.Pools.{tree_at};
ghost use Rattle.sp_term.specs.Value.{bit as bit_of, psw as psw_of, low_bit as low_bit_of};
ghost use Rattle.sp_simp.specs.Rules as spec;
ghost use Rattle.sp_simp.specs.code.Plans.{IsPlan};

use crate::quotients::is_within;
use crate::roots::same;
use crate::step::{Draft, Part, Step, first};
use sp_term::{Node, Pool, Shape};

/// A number modulo 256.
fn low_byte(x: i64) -> u8
    ensures { result ≡ byte_of x }
{
    x.rem_euclid(256) as u8
}

/// A number modulo 2.
fn low_bit(x: i64) -> u8
    ensures is { result ≡ low_bit_of x }
    ensures small { result < 2 }
{
    x.rem_euclid(2) as u8
}

// 1
fn fold_and(pool: &Pool, c: Option<i64>, d: Option<i64>) -> Step
    ensures { IsPlan pool.now result (spec.fold_two byte_and c d) }
{
    let (Some(c), Some(d)) = (c, d) else {
        return Step::Stay;
    };
    Step::Is(Part::Number(i64::from(low_byte(c) & low_byte(d))))
}

// 1
fn fold_or(pool: &Pool, c: Option<i64>, d: Option<i64>) -> Step
    ensures { IsPlan pool.now result (spec.fold_two byte_or c d) }
{
    let (Some(c), Some(d)) = (c, d) else {
        return Step::Stay;
    };
    Step::Is(Part::Number(i64::from(low_byte(c) | low_byte(d))))
}

// 1
fn fold_xor(pool: &Pool, c: Option<i64>, d: Option<i64>) -> Step
    ensures { IsPlan pool.now result (spec.fold_two byte_xor c d) }
{
    let (Some(c), Some(d)) = (c, d) else {
        return Step::Stay;
    };
    Step::Is(Part::Number(i64::from(low_byte(c) ^ low_byte(d))))
}

/// 1 where a number modulo 256 has an even number of ones, and else 0.
fn parity(x: i64) -> i64
    ensures { result ≡ parity_of x }
{
    if low_byte(x).count_ones() % 2 == 0 {
        1
    } else {
        0
    }
}

/// The rule at `par(x)`, 1.
pub fn parity_step(pool: &Pool, x: Node) -> Step
    requires { x.0 < length pool.now }
    ensures { IsPlan pool.now result (spec.fold parity_of (literal_of (tree_at pool.now x.0))) }
{
    match pool.literal(x) {
        Some(c) => Step::Is(Part::Number(parity(c))),
        None => Step::Stay,
    }
}

// 25
fn byte_with_itself(pool: &Pool, same: bool, x: Node) -> Step
    requires { x.0 < length pool.now }
    ensures { IsPlan pool.now result (spec.byte_with_itself same (tree_at pool.now x.0)) }
{
    if same {
        Step::Make(Draft::Remainder(Part::Have(x), Part::Number(256)))
    } else {
        Step::Stay
    }
}

// 25
fn byte_xor_itself(pool: &Pool, same: bool) -> Step
    ensures { IsPlan pool.now result (spec.byte_xor_itself same) }
{
    if same {
        Step::Is(Part::Number(0))
    } else {
        Step::Stay
    }
}

fn is_number(n: i64, c: Option<i64>) -> bool
    ensures { result ≡ spec.is_number n c }
{
    match c {
        Some(c) => c == n,
        None => false,
    }
}

// 26
fn byte_and_zero(pool: &Pool, c: Option<i64>, d: Option<i64>) -> Step
    ensures { IsPlan pool.now result (spec.byte_and_zero c d) }
{
    if is_number(0, c) || is_number(0, d) {
        Step::Is(Part::Number(0))
    } else {
        Step::Stay
    }
}

// 26
fn byte_with(pool: &Pool, n: i64, x: Node, c: Option<i64>, y: Node, d: Option<i64>) -> Step
    requires x { x.0 < length pool.now }
    requires y { y.0 < length pool.now }
    ensures { IsPlan pool.now result (spec.byte_with n (tree_at pool.now x.0) c (tree_at pool.now y.0) d) }
{
    if is_number(n, c) {
        Step::Make(Draft::Remainder(Part::Have(y), Part::Number(256)))
    } else if is_number(n, d) {
        Step::Make(Draft::Remainder(Part::Have(x), Part::Number(256)))
    } else {
        Step::Stay
    }
}

/// The rules at `band(x,y)`, the last one first.
#[tactic(auto, unfolding(crate::specs::Rules::byte_and_rule))]
pub fn and_step(pool: &Pool, x: Node, y: Node) -> Step
    requires x { x.0 < length pool.now }
    requires y { y.0 < length pool.now }
    ensures { IsPlan pool.now result (spec.byte_and_rule (tree_at pool.now x.0) (tree_at pool.now y.0)) }
{
    let c = pool.literal(x);
    let d = pool.literal(y);
    let step = byte_with(pool, 255, x, c, y, d);
    let step = first(pool, byte_and_zero(pool, c, d), step);
    let step = first(pool, byte_with_itself(pool, same(pool, x, y), x), step);
    first(pool, fold_and(pool, c, d), step)
}

/// The rules at `bor(x,y)`, the last one first.
#[tactic(auto, unfolding(crate::specs::Rules::byte_or_rule))]
pub fn or_step(pool: &Pool, x: Node, y: Node) -> Step
    requires x { x.0 < length pool.now }
    requires y { y.0 < length pool.now }
    ensures { IsPlan pool.now result (spec.byte_or_rule (tree_at pool.now x.0) (tree_at pool.now y.0)) }
{
    let c = pool.literal(x);
    let d = pool.literal(y);
    let step = byte_with(pool, 0, x, c, y, d);
    let step = first(pool, byte_with_itself(pool, same(pool, x, y), x), step);
    first(pool, fold_or(pool, c, d), step)
}

/// The rules at `bxor(x,y)`, the last one first.
#[tactic(auto, unfolding(crate::specs::Rules::byte_xor_rule))]
pub fn xor_step(pool: &Pool, x: Node, y: Node) -> Step
    requires x { x.0 < length pool.now }
    requires y { y.0 < length pool.now }
    ensures { IsPlan pool.now result (spec.byte_xor_rule (tree_at pool.now x.0) (tree_at pool.now y.0)) }
{
    let c = pool.literal(x);
    let d = pool.literal(y);
    let step = byte_with(pool, 0, x, c, y, d);
    let step = first(pool, byte_xor_itself(pool, same(pool, x, y)), step);
    first(pool, fold_xor(pool, c, d), step)
}

/// Bit k of a number.
fn bit(k: u8, x: i64) -> i64
    ensures { result ≡ bit_of k x }
{
    i64::from(low_bit(x >> k.min(63)))
}

// 1
fn fold_bit(pool: &Pool, k: u8, c: Option<i64>) -> Step
    ensures { IsPlan pool.now result (spec.fold (bit_of k) c) }
{
    match c {
        Some(c) => Step::Is(Part::Number(bit(k, c))),
        None => Step::Stay,
    }
}

fn flag(pool: &Pool, x: Node) -> Step
    requires { x.0 < length pool.now }
    ensures { IsPlan pool.now result (spec.flag (tree_at pool.now x.0)) }
{
    if is_within(pool.span(x), 2) {
        Step::Is(Part::Have(x))
    } else {
        Step::Stay
    }
}

// 24
fn flag_bit(pool: &Pool, k: u8, x: Node) -> Step
    requires { x.0 < length pool.now }
    ensures { IsPlan pool.now result (spec.flag_bit k (tree_at pool.now x.0)) }
{
    let Shape::Psw(s, z, ac, p, cy) = pool.shape(x) else {
        return Step::Stay;
    };
    match k {
        7 => flag(pool, s),
        6 => flag(pool, z),
        4 => flag(pool, ac),
        2 => flag(pool, p),
        0 => flag(pool, cy),
        1 => Step::Is(Part::Number(1)),
        3 | 5 => Step::Is(Part::Number(0)),
        _ => Step::Stay,
    }
}

/// The rules at `bit(k,x)`.
#[tactic(auto, unfolding(crate::specs::Rules::bit_rule))]
pub fn bit_step(pool: &Pool, k: u8, x: Node) -> Step
    requires { x.0 < length pool.now }
    ensures { IsPlan pool.now result (spec.bit_rule k (tree_at pool.now x.0)) }
{
    first(
        pool,
        fold_bit(pool, k, pool.literal(x)),
        flag_bit(pool, k, x),
    )
}

/// The flags as a byte.
fn psw(s: i64, z: i64, ac: i64, p: i64, cy: i64) -> i64
    ensures { result ≡ psw_of s z ac p cy }
{
    let high = 128 * low_bit(s) + 64 * low_bit(z) + 16 * low_bit(ac);
    i64::from(high + 4 * low_bit(p) + 2 + low_bit(cy))
}

// 1
fn fold_psw(
    pool: &Pool,
    s: Option<i64>,
    z: Option<i64>,
    ac: Option<i64>,
    p: Option<i64>,
    cy: Option<i64>,
) -> Step
    ensures { IsPlan pool.now result (spec.fold_psw s z ac p cy) }
{
    let (Some(s), Some(z), Some(ac), Some(p), Some(cy)) = (s, z, ac, p, cy) else {
        return Step::Stay;
    };
    Step::Is(Part::Number(psw(s, z, ac, p, cy)))
}

/// The rule at `psw(s,z,ac,p,cy)`.
pub fn psw_step(pool: &Pool, s: Node, z: Node, ac: Node, p: Node, cy: Node) -> Step
    requires s { s.0 < length pool.now }
    requires z { z.0 < length pool.now }
    requires ac { ac.0 < length pool.now }
    requires p { p.0 < length pool.now }
    requires cy { cy.0 < length pool.now }
    ensures { IsPlan pool.now result (spec.fold_psw (literal_of (tree_at pool.now s.0)) (literal_of (tree_at pool.now z.0))
        (literal_of (tree_at pool.now ac.0)) (literal_of (tree_at pool.now p.0)) (literal_of (tree_at pool.now cy.0))) }
{
    fold_psw(
        pool,
        pool.literal(s),
        pool.literal(z),
        pool.literal(ac),
        pool.literal(p),
        pool.literal(cy),
    )
}
