//! Rotates of the accumulator, its decimal adjustment and complement, and the carry.
ghost use Rattle.std.specs.Prelude.{◌≡◌, IfOk};
ghost use Rattle.sp_base.specs.declared.location.Loc.TheVariants as loc;
ghost use Rattle.sp_term.specs.Tree.{Or, Less, Equal, Subtract, Add, Multiply};
ghost use Rattle.sp_trans.specs.Symbolic.{number, term_at, with_term};
ghost use Rattle.sp_trans.specs.Translation.{modulo, over, doubled, rotated, adjusted};
ghost use Rattle.sp_trans.specs.code.Terms.{state};

use crate::arithmetic::with_szp;
use crate::build::{add, choice, doubled, equals, flag_if, modulo, number, over, subtract, times};
use crate::terms::Terms;
use bumpalo::Bump;
use sp_base::{Loc, Memory};
use sp_term::{Kind, Term, make};

/// RLC.
#[tactic(auto, unfolding(crate::specs::Translation::rotated))]
pub fn rotated_left<'a>(arena: &'a Bump, g: Terms<'a>) -> Result<Terms<'a>, Memory>
    ensures { IfOk result (λ t. state t ≡
        rotated (Add (doubled g.entry.a.now) (over g.entry.a.now 128)) (over g.entry.a.now 128) (state g.entry)) }
{
    let two = doubled(arena, g.a)?;
    let out = over(arena, g.a, 128)?;
    let r = add(arena, two, out)?;
    Ok(g.with(Loc::Cy, out).with(Loc::A, r))
}

/// RRC.
#[tactic(auto, unfolding(crate::specs::Translation::rotated))]
pub fn rotated_right<'a>(arena: &'a Bump, g: Terms<'a>) -> Result<Terms<'a>, Memory>
    ensures { IfOk result (λ t. state t ≡
        rotated (Add (over g.entry.a.now 2) (Multiply (number 128) (modulo g.entry.a.now 2))) (modulo g.entry.a.now 2) (state g.entry)) }
{
    let half = over(arena, g.a, 2)?;
    let out = modulo(arena, g.a, 2)?;
    let top = times(arena, 128, out)?;
    let r = add(arena, half, top)?;
    Ok(g.with(Loc::Cy, out).with(Loc::A, r))
}

/// RAL.
#[tactic(auto, unfolding(crate::specs::Translation::rotated))]
pub fn rotated_left_through_carry<'a>(arena: &'a Bump, g: Terms<'a>) -> Result<Terms<'a>, Memory>
    ensures { IfOk result (λ t. state t ≡
        rotated (Add (doubled g.entry.a.now) g.entry.cy.now) (over g.entry.a.now 128) (state g.entry)) }
{
    let two = doubled(arena, g.a)?;
    let r = add(arena, two, g.cy)?;
    let out = over(arena, g.a, 128)?;
    Ok(g.with(Loc::Cy, out).with(Loc::A, r))
}

/// RAR.
#[tactic(auto, unfolding(crate::specs::Translation::rotated))]
pub fn rotated_right_through_carry<'a>(arena: &'a Bump, g: Terms<'a>) -> Result<Terms<'a>, Memory>
    ensures { IfOk result (λ t. state t ≡
        rotated (Add (over g.entry.a.now 2) (Multiply (number 128) g.entry.cy.now)) (modulo g.entry.a.now 2) (state g.entry)) }
{
    let half = over(arena, g.a, 2)?;
    let top = times(arena, 128, g.cy)?;
    let r = add(arena, half, top)?;
    let out = modulo(arena, g.a, 2)?;
    Ok(g.with(Loc::Cy, out).with(Loc::A, r))
}

/// Whether a digit is over a number, or a flag is 1.
fn over_or_set<'a>(
    arena: &'a Bump,
    most: u32,
    digit: &'a Term<'a>,
    flag: &'a Term<'a>,
) -> Result<&'a Term<'a>, Memory>
    ensures { IfOk result (λ t. t.now ≡ Or (Less (number most) digit.now) (Equal flag.now (number 1))) }
{
    let most = number(arena, most)?;
    let over = make(arena, Kind::Less(most, digit))?;
    let set = equals(arena, flag, 1)?;
    make(arena, Kind::Or(over, set))
}

/// DAA.
#[tactic(auto, unfolding(crate::specs::Translation::adjusted))]
pub fn adjusted<'a>(arena: &'a Bump, g: Terms<'a>) -> Result<Terms<'a>, Memory>
    ensures { IfOk result (λ t. state t ≡ adjusted (state g.entry)) }
{
    let digit = modulo(arena, g.a, 16)?;
    let low = over_or_set(arena, 9, digit, g.ac)?;
    let high = over_or_set(arena, 153, g.a, g.cy)?;
    let six = choice(arena, low, 6, 0)?;
    let sixty = choice(arena, high, 96, 0)?;
    let sum = add(arena, g.a, six)?;
    let sum = add(arena, sum, sixty)?;
    let r = modulo(arena, sum, 256)?;
    let cy = flag_if(arena, high)?;
    let digits = add(arena, digit, six)?;
    let ac = over(arena, digits, 16)?;
    let flags = with_szp(arena, r, g.with(Loc::Ac, ac).with(Loc::Cy, cy))?;
    Ok(flags.with(Loc::A, r))
}

/// A number minus a term goes to a location: CMA and CMC.
pub fn complemented<'a>(
    arena: &'a Bump,
    most: u32,
    x: Loc,
    g: Terms<'a>,
) -> Result<Terms<'a>, Memory>
    ensures { IfOk result (λ t. state t ≡ with_term x (Subtract (number most) (term_at x (state g.entry))) (state g.entry)) }
{
    let most = number(arena, most)?;
    let t = subtract(arena, most, g.at(x))?;
    Ok(g.with(x, t))
}

/// STC.
pub fn carry_set<'a>(arena: &'a Bump, g: Terms<'a>) -> Result<Terms<'a>, Memory>
    ensures { IfOk result (λ t. state t ≡ with_term loc.Cy (number 1) (state g.entry)) }
{
    let one = number(arena, 1)?;
    Ok(g.with(Loc::Cy, one))
}
