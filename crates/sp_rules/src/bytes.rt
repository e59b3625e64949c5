//! Rules on the bits of a number.

ghost use Rattle.std.specs.Prelude.{◌≡◌, pos, IfOk};
ghost use Rattle.sp_term.specs.Tree.{Add, Bit, Literal, Multiply, Remainder, Subtract};
ghost use Rattle.sp_steps.specs.Steps.{Bits, BitOf};
ghost use Rattle.sp_steps.specs.Rows.{in_bits, bit_of, bit_of_parts, bit_is, weighed_bit, sum_of_bits, parity_sum};
ghost use Rattle.sp_steps.specs.Next.{Applies};
ghost use Rattle.sp_rules.specs.code.Work.{IsWork};
ghost use Rattle.sp_rules.specs.code.Digits.{digit};
ghost use Rattle.sp_rules.specs.code.Outcome.{Becomes, carried};
ghost use Rattle.sp_rules.specs.code.Rewritten.{now_if};

use crate::formulas::{built, number, sum};
use crate::goals::{After, Goals};
use crate::work::{Work, enter};
use bumpalo::Bump;
use sp_base::Memory;
use sp_steps::RuleRefusal;
use sp_term::{Kind, Term, make};

/// `bits X`: that `(X mod 256)` is the sum of its bits, each times its weight, is added; and that the sum of `par(X)` and all
/// bits is odd.
pub fn bits<'a>(arena: &'a Bump, goals: Goals<'a>, x: &'a Term<'a>) -> After<'a>
    ensures { Applies (Bits x.now) goals.entry result }
{
    let (work, goal) = enter(goals)?;
    bits_at(arena, work, goal, x)
}

fn bits_at<'a>(arena: &'a Bump, work: Work<'a>, goal: &'a Term<'a>, x: &'a Term<'a>) -> After<'a>
    requires { IsWork work }
    ensures { Becomes result (carried (in_bits x.now goal.now) work.entry) }
{
    let byte = remainder(arena, x, 256)?;
    let weighed = weighed_sum(arena, x)?;
    let is = built(arena, Kind::Equal(byte, weighed))?;
    let ones = parity_and_bits(arena, x)?;
    let rest = remainder(arena, ones, 2)?;
    let one = number(arena, 1)?;
    let odd = built(arena, Kind::Equal(rest, one))?;
    work.add_two(arena, is, odd, goal)
}

/// `(x mod n)`
fn remainder<'a>(arena: &'a Bump, x: &'a Term<'a>, n: u16) -> Result<&'a Term<'a>, Memory>
    ensures { IfOk result (λ t. t.now ≡ Remainder x.now (Literal (pos n))) }
{
    let n = number(arena, i64::from(n))?;
    make(arena, Kind::Remainder(x, n))
}

/// `(weight * bit(k,x))`
fn weighed<'a>(arena: &'a Bump, weight: u8, k: u8, x: &'a Term<'a>) -> Result<&'a Term<'a>, Memory>
    ensures { IfOk result (λ t. t.now ≡ weighed_bit weight k x.now) }
{
    let weight = number(arena, i64::from(weight))?;
    let bit = make(arena, Kind::Bit(k, x))?;
    make(arena, Kind::Multiply(weight, bit))
}

/// `(before + (weight * bit(k,x)))`
fn plus_weighed<'a>(
    arena: &'a Bump,
    before: &'a Term<'a>,
    weight: u8,
    k: u8,
    x: &'a Term<'a>,
) -> Result<&'a Term<'a>, Memory>
    ensures { IfOk result (λ t. t.now ≡ Add before.now (weighed_bit weight k x.now)) }
{
    let bit = weighed(arena, weight, k, x)?;
    sum(arena, before, bit)
}

/// `(before + bit(k,x))`
fn plus_bit<'a>(
    arena: &'a Bump,
    before: &'a Term<'a>,
    k: u8,
    x: &'a Term<'a>,
) -> Result<&'a Term<'a>, Memory>
    ensures { IfOk result (λ t. t.now ≡ Add before.now (Bit k x.now)) }
{
    let bit = make(arena, Kind::Bit(k, x))?;
    sum(arena, before, bit)
}

/// The bits of x, each times its weight, from the highest, summed from the left.
fn weighed_sum<'a>(arena: &'a Bump, x: &'a Term<'a>) -> Result<&'a Term<'a>, Memory>
    ensures { IfOk result (λ t. t.now ≡ sum_of_bits x.now) }
{
    let seventh = weighed(arena, 128, 7, x)?;
    let sixth = plus_weighed(arena, seventh, 64, 6, x)?;
    let fifth = plus_weighed(arena, sixth, 32, 5, x)?;
    let fourth = plus_weighed(arena, fifth, 16, 4, x)?;
    let third = plus_weighed(arena, fourth, 8, 3, x)?;
    let second = plus_weighed(arena, third, 4, 2, x)?;
    let first = plus_weighed(arena, second, 2, 1, x)?;
    plus_bit(arena, first, 0, x)
}

/// `par(x)` and the bits of x from the lowest, summed from the left.
fn parity_and_bits<'a>(arena: &'a Bump, x: &'a Term<'a>) -> Result<&'a Term<'a>, Memory>
    ensures { IfOk result (λ t. t.now ≡ parity_sum x.now) }
{
    let parity = make(arena, Kind::Parity(x))?;
    let zeroth = plus_bit(arena, parity, 0, x)?;
    let first = plus_bit(arena, zeroth, 1, x)?;
    let second = plus_bit(arena, first, 2, x)?;
    let third = plus_bit(arena, second, 3, x)?;
    let fourth = plus_bit(arena, third, 4, x)?;
    let fifth = plus_bit(arena, fourth, 5, x)?;
    let sixth = plus_bit(arena, fifth, 6, x)?;
    plus_bit(arena, sixth, 7, x)
}

/// `bitof k X`, where k is 0 to 7 and X is `band`, `bor` or `bxor` of two numbers: what `bit(k,X)` is of the bits of the two is
/// added.
pub fn bitof<'a>(arena: &'a Bump, goals: Goals<'a>, k: i64, x: &'a Term<'a>) -> After<'a>
    ensures { Applies (BitOf k x.now) goals.entry result }
{
    let (work, goal) = enter(goals)?;
    bitof_at(arena, work, goal, k, x)
}

fn bitof_at<'a>(
    arena: &'a Bump,
    work: Work<'a>,
    goal: &'a Term<'a>,
    k: i64,
    x: &'a Term<'a>,
) -> After<'a>
    requires { IsWork work }
    ensures { Becomes result (carried (bit_of k x.now goal.now) work.entry) }
{
    match bit_number(k) {
        Some(k) => bit_at(arena, work, goal, k, x),
        None => Err(RuleRefusal::NoApply),
    }
}

/// A number from 0 to 7.
fn bit_number(k: i64) -> Option<u8>
    ensures { result ≡ digit k }
{
    match u8::try_from(k) {
        Ok(k) if k <= 7 => Some(k),
        _ => None,
    }
}

fn bit_at<'a>(
    arena: &'a Bump,
    work: Work<'a>,
    goal: &'a Term<'a>,
    k: u8,
    x: &'a Term<'a>,
) -> After<'a>
    requires { IsWork work }
    ensures { Becomes result (carried (bit_is k x.now (bit_of_parts k x.now) goal.now) work.entry) }
{
    let Some(value) = of_parts(arena, k, x)? else {
        return Err(RuleRefusal::NoApply);
    };
    let bit = make(arena, Kind::Bit(k, x))?;
    let added = built(arena, Kind::Equal(bit, value))?;
    work.add_one(arena, added, goal)
}

/// Bit k of `band`, `bor` or `bxor` by those of the two parts.
fn of_parts<'a>(arena: &'a Bump, k: u8, x: &'a Term<'a>) -> Result<Option<&'a Term<'a>>, Memory>
    ensures { IfOk result (λ t. now_if t ≡ bit_of_parts k x.now) }
{
    match x.kind() {
        Kind::ByteAnd(y, z) => Ok(Some(both_bits(arena, k, y, z)?)),
        Kind::ByteOr(y, z) => Ok(Some(some_bit(arena, k, y, z)?)),
        Kind::ByteXor(y, z) => Ok(Some(one_bit(arena, k, y, z)?)),
        _ => Ok(None),
    }
}

/// `(bit(k,y) * bit(k,z))`
fn both_bits<'a>(
    arena: &'a Bump,
    k: u8,
    y: &'a Term<'a>,
    z: &'a Term<'a>,
) -> Result<&'a Term<'a>, Memory>
    ensures { IfOk result (λ t. t.now ≡ Multiply (Bit k y.now) (Bit k z.now)) }
{
    let one = make(arena, Kind::Bit(k, y))?;
    let other = make(arena, Kind::Bit(k, z))?;
    make(arena, Kind::Multiply(one, other))
}

/// `(bit(k,y) + bit(k,z))`
fn bits_added<'a>(
    arena: &'a Bump,
    k: u8,
    y: &'a Term<'a>,
    z: &'a Term<'a>,
) -> Result<&'a Term<'a>, Memory>
    ensures { IfOk result (λ t. t.now ≡ Add (Bit k y.now) (Bit k z.now)) }
{
    let one = make(arena, Kind::Bit(k, y))?;
    plus_bit(arena, one, k, z)
}

/// `((bit(k,y) + bit(k,z)) - (bit(k,y) * bit(k,z)))`
fn some_bit<'a>(
    arena: &'a Bump,
    k: u8,
    y: &'a Term<'a>,
    z: &'a Term<'a>,
) -> Result<&'a Term<'a>, Memory>
    ensures { IfOk result (λ t. t.now ≡ Subtract (Add (Bit k y.now) (Bit k z.now)) (Multiply (Bit k y.now) (Bit k z.now))) }
{
    let added = bits_added(arena, k, y, z)?;
    let both = both_bits(arena, k, y, z)?;
    make(arena, Kind::Subtract(added, both))
}

/// `((bit(k,y) + bit(k,z)) - (2 * (bit(k,y) * bit(k,z))))`
fn one_bit<'a>(
    arena: &'a Bump,
    k: u8,
    y: &'a Term<'a>,
    z: &'a Term<'a>,
) -> Result<&'a Term<'a>, Memory>
    ensures { IfOk result (λ t. t.now ≡ Subtract (Add (Bit k y.now) (Bit k z.now)) (Multiply (Literal (pos 2)) (Multiply (Bit k y.now) (Bit k z.now)))) }
{
    let added = bits_added(arena, k, y, z)?;
    let both = both_bits(arena, k, y, z)?;
    let two = number(arena, 2)?;
    let twice = make(arena, Kind::Multiply(two, both))?;
    make(arena, Kind::Subtract(added, twice))
}
