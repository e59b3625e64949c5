//! Arithmetic and logic as terms.
ghost use Rattle.std.specs.Prelude.{◌≡◌, IfOk};
ghost use Rattle.sp_isa.specs.declared.instr.Op.TheVariants as op;
ghost use Rattle.sp_term.specs.Tree.{Subtract};
ghost use Rattle.sp_trans.specs.Translation.{
  modulo,
  with_szp_term,
  increased,
  decreased,
  with_sum,
  with_compared,
  with_difference,
  with_logic,
  operated,
  pair_added,
};
ghost use Rattle.sp_trans.specs.code.Terms.{state};

use crate::build::{add, bit, choice, equals, flag_if, modulo, number, over, subtract};
use crate::operands::{arg_term, pair_term, with_arg, with_word};
use crate::terms::Terms;
use bumpalo::Bump;
use sp_base::{Loc, Memory, Pair};
use sp_isa::{Arg, Op};
use sp_term::{Kind, Term, make};

/// S, Z and P of a byte.
#[tactic(auto, unfolding(crate::specs::Translation::with_szp_term))]
pub fn with_szp<'a>(arena: &'a Bump, r: &'a Term<'a>, g: Terms<'a>) -> Result<Terms<'a>, Memory>
    ensures { IfOk result (λ t. state t ≡ with_szp_term r.now (state g.entry)) }
{
    let s = over(arena, r, 128)?;
    let zero = equals(arena, r, 0)?;
    let z = flag_if(arena, zero)?;
    let p = make(arena, Kind::Parity(r))?;
    Ok(g.with(Loc::P, p).with(Loc::Z, z).with(Loc::S, s))
}

/// INR.
#[tactic(auto, unfolding(crate::specs::Translation::increased))]
pub fn increased<'a>(arena: &'a Bump, y: Arg, g: Terms<'a>) -> Result<Terms<'a>, Memory>
    ensures { IfOk result (λ t. state t ≡ increased y (state g.entry)) }
{
    let x = arg_term(arena, y, g)?;
    let one = number(arena, 1)?;
    let sum = add(arena, x, one)?;
    let r = modulo(arena, sum, 256)?;
    let digit = modulo(arena, r, 16)?;
    let none = equals(arena, digit, 0)?;
    let ac = flag_if(arena, none)?;
    let flags = with_szp(arena, r, g.with(Loc::Ac, ac))?;
    with_arg(arena, y, r, flags)
}

/// DCR.
#[tactic(auto, unfolding(crate::specs::Translation::decreased))]
pub fn decreased<'a>(arena: &'a Bump, y: Arg, g: Terms<'a>) -> Result<Terms<'a>, Memory>
    ensures { IfOk result (λ t. state t ≡ decreased y (state g.entry)) }
{
    let x = arg_term(arena, y, g)?;
    let one = number(arena, 1)?;
    let difference = subtract(arena, x, one)?;
    let r = modulo(arena, difference, 256)?;
    let digit = modulo(arena, x, 16)?;
    let none = equals(arena, digit, 0)?;
    let ac = choice(arena, none, 0, 1)?;
    let flags = with_szp(arena, r, g.with(Loc::Ac, ac))?;
    with_arg(arena, y, r, flags)
}

/// A takes a sum; that of the low digits gives AC.
#[tactic(auto, unfolding(crate::specs::Translation::with_sum))]
fn with_sum<'a>(
    arena: &'a Bump,
    t: &'a Term<'a>,
    digits: &'a Term<'a>,
    g: Terms<'a>,
) -> Result<Terms<'a>, Memory>
    ensures { IfOk result (λ r. state r ≡ with_sum t.now digits.now (state g.entry)) }
{
    let r = modulo(arena, t, 256)?;
    let cy = over(arena, t, 256)?;
    let ac = over(arena, digits, 16)?;
    let flags = with_szp(arena, r, g.with(Loc::Ac, ac).with(Loc::Cy, cy))?;
    Ok(flags.with(Loc::A, r))
}

/// The flags of a difference; that of the low digits gives AC.
#[tactic(auto, unfolding(crate::specs::Translation::with_compared))]
fn with_compared<'a>(
    arena: &'a Bump,
    t: &'a Term<'a>,
    digits: &'a Term<'a>,
    g: Terms<'a>,
) -> Result<Terms<'a>, Memory>
    ensures { IfOk result (λ r. state r ≡ with_compared t.now digits.now (state g.entry)) }
{
    let r = modulo(arena, t, 256)?;
    let zero = number(arena, 0)?;
    let below = make(arena, Kind::Less(t, zero))?;
    let cy = flag_if(arena, below)?;
    let sixteen = number(arena, 16)?;
    let raised = add(arena, digits, sixteen)?;
    let ac = over(arena, raised, 16)?;
    with_szp(arena, r, g.with(Loc::Ac, ac).with(Loc::Cy, cy))
}

/// A takes a difference.
#[tactic(auto, unfolding(crate::specs::Translation::with_difference))]
fn with_difference<'a>(
    arena: &'a Bump,
    t: &'a Term<'a>,
    digits: &'a Term<'a>,
    g: Terms<'a>,
) -> Result<Terms<'a>, Memory>
    ensures { IfOk result (λ r. state r ≡ with_difference t.now digits.now (state g.entry)) }
{
    let flags = with_compared(arena, t, digits, g)?;
    let r = modulo(arena, t, 256)?;
    Ok(flags.with(Loc::A, r))
}

/// A takes a byte made of bits.
#[tactic(auto, unfolding(crate::specs::Translation::with_logic))]
fn with_logic<'a>(
    arena: &'a Bump,
    r: &'a Term<'a>,
    ac: &'a Term<'a>,
    g: Terms<'a>,
) -> Result<Terms<'a>, Memory>
    ensures { IfOk result (λ t. state t ≡ with_logic r.now ac.now (state g.entry)) }
{
    let cy = number(arena, 0)?;
    let flags = with_szp(arena, r, g.with(Loc::Ac, ac).with(Loc::Cy, cy))?;
    Ok(flags.with(Loc::A, r))
}

#[tactic(auto, unfolding(crate::specs::Translation::operated))]
fn added<'a>(arena: &'a Bump, y: &'a Term<'a>, g: Terms<'a>) -> Result<Terms<'a>, Memory>
    ensures { IfOk result (λ t. state t ≡ operated op.Add y.now (state g.entry)) }
{
    let sum = add(arena, g.a, y)?;
    let first = modulo(arena, g.a, 16)?;
    let second = modulo(arena, y, 16)?;
    let digits = add(arena, first, second)?;
    with_sum(arena, sum, digits, g)
}

#[tactic(auto, unfolding(crate::specs::Translation::operated))]
fn added_with_carry<'a>(arena: &'a Bump, y: &'a Term<'a>, g: Terms<'a>) -> Result<Terms<'a>, Memory>
    ensures { IfOk result (λ t. state t ≡ operated op.Adc y.now (state g.entry)) }
{
    let sum = add(arena, g.a, y)?;
    let sum = add(arena, sum, g.cy)?;
    let first = modulo(arena, g.a, 16)?;
    let second = modulo(arena, y, 16)?;
    let digits = add(arena, first, second)?;
    let digits = add(arena, digits, g.cy)?;
    with_sum(arena, sum, digits, g)
}

/// The low digit of A minus that of a byte.
fn digit_difference<'a>(
    arena: &'a Bump,
    y: &'a Term<'a>,
    g: Terms<'a>,
) -> Result<&'a Term<'a>, Memory>
    ensures { IfOk result (λ t. t.now ≡ Subtract (modulo g.entry.a.now 16) (modulo y.now 16)) }
{
    let first = modulo(arena, g.a, 16)?;
    let second = modulo(arena, y, 16)?;
    subtract(arena, first, second)
}

#[tactic(auto, unfolding(crate::specs::Translation::operated))]
fn subtracted<'a>(arena: &'a Bump, y: &'a Term<'a>, g: Terms<'a>) -> Result<Terms<'a>, Memory>
    ensures { IfOk result (λ t. state t ≡ operated op.Sub y.now (state g.entry)) }
{
    let t = subtract(arena, g.a, y)?;
    let digits = digit_difference(arena, y, g)?;
    with_difference(arena, t, digits, g)
}

#[tactic(auto, unfolding(crate::specs::Translation::operated))]
fn subtracted_with_borrow<'a>(
    arena: &'a Bump,
    y: &'a Term<'a>,
    g: Terms<'a>,
) -> Result<Terms<'a>, Memory>
    ensures { IfOk result (λ t. state t ≡ operated op.Sbb y.now (state g.entry)) }
{
    let t = subtract(arena, g.a, y)?;
    let t = subtract(arena, t, g.cy)?;
    let digits = digit_difference(arena, y, g)?;
    let digits = subtract(arena, digits, g.cy)?;
    with_difference(arena, t, digits, g)
}

#[tactic(auto, unfolding(crate::specs::Translation::operated))]
fn compared<'a>(arena: &'a Bump, y: &'a Term<'a>, g: Terms<'a>) -> Result<Terms<'a>, Memory>
    ensures { IfOk result (λ t. state t ≡ operated op.Cmp y.now (state g.entry)) }
{
    let t = subtract(arena, g.a, y)?;
    let digits = digit_difference(arena, y, g)?;
    with_compared(arena, t, digits, g)
}

#[tactic(auto, unfolding(crate::specs::Translation::operated))]
fn and<'a>(arena: &'a Bump, y: &'a Term<'a>, g: Terms<'a>) -> Result<Terms<'a>, Memory>
    ensures { IfOk result (λ t. state t ≡ operated op.Ana y.now (state g.entry)) }
{
    let r = make(arena, Kind::ByteAnd(g.a, y))?;
    let either = make(arena, Kind::ByteOr(g.a, y))?;
    let ac = bit(arena, 3, either)?;
    with_logic(arena, r, ac, g)
}

#[tactic(auto, unfolding(crate::specs::Translation::operated))]
fn exclusive_or<'a>(arena: &'a Bump, y: &'a Term<'a>, g: Terms<'a>) -> Result<Terms<'a>, Memory>
    ensures { IfOk result (λ t. state t ≡ operated op.Xra y.now (state g.entry)) }
{
    let r = make(arena, Kind::ByteXor(g.a, y))?;
    let ac = number(arena, 0)?;
    with_logic(arena, r, ac, g)
}

#[tactic(auto, unfolding(crate::specs::Translation::operated))]
fn or<'a>(arena: &'a Bump, y: &'a Term<'a>, g: Terms<'a>) -> Result<Terms<'a>, Memory>
    ensures { IfOk result (λ t. state t ≡ operated op.Ora y.now (state g.entry)) }
{
    let r = make(arena, Kind::ByteOr(g.a, y))?;
    let ac = number(arena, 0)?;
    with_logic(arena, r, ac, g)
}

/// ADD, ADC, SUB, SBB, ANA, XRA, ORA and CMP.
pub fn operated<'a>(
    arena: &'a Bump,
    o: Op,
    y: &'a Term<'a>,
    g: Terms<'a>,
) -> Result<Terms<'a>, Memory>
    ensures { IfOk result (λ t. state t ≡ operated o y.now (state g.entry)) }
{
    match o {
        Op::Add => added(arena, y, g),
        Op::Adc => added_with_carry(arena, y, g),
        Op::Sub => subtracted(arena, y, g),
        Op::Sbb => subtracted_with_borrow(arena, y, g),
        Op::Ana => and(arena, y, g),
        Op::Xra => exclusive_or(arena, y, g),
        Op::Ora => or(arena, y, g),
        Op::Cmp => compared(arena, y, g),
    }
}

/// DAD.
#[tactic(auto, unfolding(crate::specs::Translation::pair_added))]
pub fn pair_added<'a>(arena: &'a Bump, p: Pair, g: Terms<'a>) -> Result<Terms<'a>, Memory>
    ensures { IfOk result (λ t. state t ≡ pair_added p (state g.entry)) }
{
    let hl = pair_term(arena, Pair::H, g)?;
    let other = pair_term(arena, p, g)?;
    let sum = add(arena, hl, other)?;
    let cy = over(arena, sum, 65_536)?;
    let w = modulo(arena, sum, 65_536)?;
    with_word(arena, Pair::H, w, g.with(Loc::Cy, cy))
}
