//! Terms of the shapes that the tables of translation have.
ghost use Rattle.std.specs.Prelude.{◌≡◌, IfOk};
ghost use Rattle.sp_term.specs.Tree.{Add, Subtract, Multiply, ByteOr, Parity, Bit, If, Element, Equal};
ghost use Rattle.sp_trans.specs.Symbolic.{number};
ghost use Rattle.sp_trans.specs.Translation.{modulo, over, flag_if, doubled};

use bumpalo::Bump;
use sp_base::Memory;
use sp_term::{Kind, Term, make};

pub fn number<'a>(arena: &'a Bump, n: u32) -> Result<&'a Term<'a>, Memory>
    ensures { IfOk result (λ t. t.now ≡ number n) }
{
    make(arena, Kind::Literal(i64::from(n)))
}

pub fn add<'a>(arena: &'a Bump, x: &'a Term<'a>, y: &'a Term<'a>) -> Result<&'a Term<'a>, Memory>
    ensures { IfOk result (λ t. t.now ≡ Add x.now y.now) }
{
    make(arena, Kind::Add(x, y))
}

pub fn subtract<'a>(
    arena: &'a Bump,
    x: &'a Term<'a>,
    y: &'a Term<'a>,
) -> Result<&'a Term<'a>, Memory>
    ensures { IfOk result (λ t. t.now ≡ Subtract x.now y.now) }
{
    make(arena, Kind::Subtract(x, y))
}

/// The product of a number and a term.
pub fn times<'a>(arena: &'a Bump, n: u32, x: &'a Term<'a>) -> Result<&'a Term<'a>, Memory>
    ensures { IfOk result (λ t. t.now ≡ Multiply (number n) x.now) }
{
    let factor = number(arena, n)?;
    make(arena, Kind::Multiply(factor, x))
}

/// A term divided by a number.
pub fn over<'a>(arena: &'a Bump, x: &'a Term<'a>, n: u32) -> Result<&'a Term<'a>, Memory>
    ensures { IfOk result (λ t. t.now ≡ over x.now n) }
{
    let divisor = number(arena, n)?;
    make(arena, Kind::Divide(x, divisor))
}

pub fn modulo<'a>(arena: &'a Bump, x: &'a Term<'a>, n: u32) -> Result<&'a Term<'a>, Memory>
    ensures { IfOk result (λ t. t.now ≡ modulo x.now n) }
{
    let divisor = number(arena, n)?;
    make(arena, Kind::Remainder(x, divisor))
}

/// Whether a term is a number.
pub fn equals<'a>(arena: &'a Bump, x: &'a Term<'a>, n: u32) -> Result<&'a Term<'a>, Memory>
    ensures { IfOk result (λ t. t.now ≡ Equal x.now (number n)) }
{
    let n = number(arena, n)?;
    make(arena, Kind::Equal(x, n))
}

/// One of two numbers by a formula.
pub fn choice<'a>(
    arena: &'a Bump,
    p: &'a Term<'a>,
    yes: u32,
    no: u32,
) -> Result<&'a Term<'a>, Memory>
    ensures { IfOk result (λ t. t.now ≡ If p.now (number yes) (number no)) }
{
    let yes = number(arena, yes)?;
    let no = number(arena, no)?;
    make(arena, Kind::If(p, yes, no))
}

/// 1 where a formula is true, else 0.
pub fn flag_if<'a>(arena: &'a Bump, p: &'a Term<'a>) -> Result<&'a Term<'a>, Memory>
    ensures { IfOk result (λ t. t.now ≡ flag_if p.now) }
{
    choice(arena, p, 1, 0)
}

pub fn bit<'a>(arena: &'a Bump, k: u8, x: &'a Term<'a>) -> Result<&'a Term<'a>, Memory>
    ensures { IfOk result (λ t. t.now ≡ Bit k x.now) }
{
    make(arena, Kind::Bit(k, x))
}

/// A byte doubled without its bit 7.
pub fn doubled<'a>(arena: &'a Bump, x: &'a Term<'a>) -> Result<&'a Term<'a>, Memory>
    ensures { IfOk result (λ t. t.now ≡ doubled x.now) }
{
    let two = times(arena, 2, x)?;
    modulo(arena, two, 256)
}

/// What a memory has at a term.
pub fn element<'a>(
    arena: &'a Bump,
    memory: &'a Term<'a>,
    at: &'a Term<'a>,
) -> Result<&'a Term<'a>, Memory>
    ensures { IfOk result (λ t. t.now ≡ Element memory.now at.now) }
{
    make(arena, Kind::Element(memory, at))
}
