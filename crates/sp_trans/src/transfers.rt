//! Moves, loads, stores and the stack as terms.
ghost use Rattle.std.specs.Prelude.{◌≡◌, ◌+◌, ◌/◌, ◌%◌, ◌∷◌, IfOk};
ghost use Rattle.sp_base.specs.declared.location.Loc.TheVariants as loc;
ghost use Rattle.sp_base.specs.declared.pair.Pair.TheVariants as pair;
ghost use Rattle.sp_term.specs.declared.var.Var.TheVariants as var;
ghost use Rattle.sp_term.specs.Tree.{Variable, Add, Subtract};
ghost use Rattle.sp_trans.specs.Symbolic.{number, pair_term, with_term, with_slots};
ghost use Rattle.sp_trans.specs.Translation.{
  arg_term,
  modulo,
  element,
  with_cell_term,
  with_arg_term,
  with_bytes,
  with_word,
  exchanged,
  next,
  pushed,
  with_flag_bits,
  with_top,
  popped,
  top_exchanged,
};
ghost use Rattle.sp_trans.specs.View.{word_of};
ghost use Rattle.sp_trans.specs.code.Terms.{state};

use crate::build::{add, bit, element, modulo, number, subtract};
use crate::operands::{arg_term, pair_term, with_arg, with_bytes, with_cell, with_word};
use crate::terms::{Terms, Word};
use bumpalo::Bump;
use sp_base::{Loc, Memory, Pair};
use sp_isa::{Arg, StackPair};
use sp_term::{Kind, Term, Var, make};

/// MOV.
pub fn moved<'a>(arena: &'a Bump, to: Arg, from: Arg, g: Terms<'a>) -> Result<Terms<'a>, Memory>
    ensures { IfOk result (λ t. state t ≡ with_arg_term to (arg_term from (state g.entry)) (state g.entry)) }
{
    let t = arg_term(arena, from, g)?;
    with_arg(arena, to, t, g)
}

/// MVI.
pub fn byte_moved<'a>(arena: &'a Bump, to: Arg, n: u8, g: Terms<'a>) -> Result<Terms<'a>, Memory>
    ensures { IfOk result (λ t. state t ≡ with_arg_term to (number n) (state g.entry)) }
{
    let t = number(arena, u32::from(n))?;
    with_arg(arena, to, t, g)
}

/// LXI.
pub fn word_moved<'a>(arena: &'a Bump, p: Pair, w: u16, g: Terms<'a>) -> Result<Terms<'a>, Memory>
    ensures { IfOk result (λ t. state t ≡ with_bytes p (number (w / 256)) (number (w % 256)) (state g.entry)) }
{
    let high = number(arena, u32::from(w / 256))?;
    let low = number(arena, u32::from(w % 256))?;
    Ok(with_bytes(p, high, low, g))
}

/// INX.
pub fn pair_increased<'a>(arena: &'a Bump, p: Pair, g: Terms<'a>) -> Result<Terms<'a>, Memory>
    ensures { IfOk result (λ t. state t ≡
        with_word p (modulo (Add (pair_term p (state g.entry)) (number 1)) 65536) (state g.entry)) }
{
    let w = pair_term(arena, p, g)?;
    let one = number(arena, 1)?;
    let sum = add(arena, w, one)?;
    let w = modulo(arena, sum, 65_536)?;
    with_word(arena, p, w, g)
}

/// DCX.
pub fn pair_decreased<'a>(arena: &'a Bump, p: Pair, g: Terms<'a>) -> Result<Terms<'a>, Memory>
    ensures { IfOk result (λ t. state t ≡
        with_word p (modulo (Subtract (pair_term p (state g.entry)) (number 1)) 65536) (state g.entry)) }
{
    let w = pair_term(arena, p, g)?;
    let one = number(arena, 1)?;
    let difference = subtract(arena, w, one)?;
    let w = modulo(arena, difference, 65_536)?;
    with_word(arena, p, w, g)
}

/// A takes what a cell has.
fn loaded_from<'a>(arena: &'a Bump, at: &'a Term<'a>, g: Terms<'a>) -> Result<Terms<'a>, Memory>
    ensures { IfOk result (λ t. state t ≡ with_term loc.A (element (state g.entry) at.now) (state g.entry)) }
{
    let t = element(arena, g.memory, at)?;
    Ok(g.with(Loc::A, t))
}

/// STAX.
pub fn stored_at_pair<'a>(arena: &'a Bump, p: Pair, g: Terms<'a>) -> Result<Terms<'a>, Memory>
    ensures { IfOk result (λ t. state t ≡ with_cell_term (pair_term p (state g.entry)) g.entry.a.now (state g.entry)) }
{
    let at = pair_term(arena, p, g)?;
    with_cell(arena, at, g.a, g)
}

/// LDAX.
pub fn loaded_from_pair<'a>(arena: &'a Bump, p: Pair, g: Terms<'a>) -> Result<Terms<'a>, Memory>
    ensures { IfOk result (λ t. state t ≡
        with_term loc.A (element (state g.entry) (pair_term p (state g.entry))) (state g.entry)) }
{
    let at = pair_term(arena, p, g)?;
    loaded_from(arena, at, g)
}

/// STA.
pub fn stored<'a>(arena: &'a Bump, w: u16, g: Terms<'a>) -> Result<Terms<'a>, Memory>
    ensures { IfOk result (λ t. state t ≡ with_cell_term (number w) g.entry.a.now (state g.entry)) }
{
    let at = number(arena, u32::from(w))?;
    with_cell(arena, at, g.a, g)
}

/// LDA.
pub fn loaded<'a>(arena: &'a Bump, w: u16, g: Terms<'a>) -> Result<Terms<'a>, Memory>
    ensures { IfOk result (λ t. state t ≡ with_term loc.A (element (state g.entry) (number w)) (state g.entry)) }
{
    let at = number(arena, u32::from(w))?;
    loaded_from(arena, at, g)
}

/// SHLD.
pub fn word_stored<'a>(arena: &'a Bump, w: u16, g: Terms<'a>) -> Result<Terms<'a>, Memory>
    ensures { IfOk result (λ t. state t ≡
        with_cell_term (number (next w)) g.entry.h.now (with_cell_term (number w) g.entry.l.now (state g.entry))) }
{
    let low = number(arena, u32::from(w))?;
    let high = number(arena, u32::from(w.wrapping_add(1)))?;
    let half = with_cell(arena, low, g.l, g)?;
    with_cell(arena, high, g.h, half)
}

/// LHLD.
pub fn word_loaded<'a>(arena: &'a Bump, w: u16, g: Terms<'a>) -> Result<Terms<'a>, Memory>
    ensures { IfOk result (λ t. state t ≡
        with_bytes pair.H (element (state g.entry) (number (next w))) (element (state g.entry) (number w)) (state g.entry)) }
{
    let at = number(arena, u32::from(w))?;
    let low = element(arena, g.memory, at)?;
    let at = number(arena, u32::from(w.wrapping_add(1)))?;
    let high = element(arena, g.memory, at)?;
    Ok(with_bytes(Pair::H, high, low, g))
}

/// XCHG.
#[tactic(auto, unfolding(crate::specs::Translation::exchanged))]
pub fn exchanged<'a>(g: Terms<'a>) -> Terms<'a>
    ensures { state result ≡ exchanged (state g.entry) }
{
    let de = with_bytes(Pair::D, g.h, g.l, g);
    with_bytes(Pair::H, g.d, g.e, de)
}

/// The word that a PUSH puts onto the stack.
#[tactic(auto, unfolding(crate::specs::Translation::pushed))]
fn pushed_word<'a>(arena: &'a Bump, p: StackPair, g: Terms<'a>) -> Result<Word<'a>, Memory>
    ensures { IfOk result (λ w. word_of w ≡ pushed p (state g.entry)) }
{
    match p {
        StackPair::B => Ok((g.b, g.c)),
        StackPair::D => Ok((g.d, g.e)),
        StackPair::H => Ok((g.h, g.l)),
        StackPair::Psw => {
            let flags = make(arena, Kind::Psw(g.s, g.z, g.ac, g.p, g.cy))?;
            Ok((g.a, flags))
        }
    }
}

/// PUSH.
pub fn pushed<'a>(arena: &'a Bump, p: StackPair, g: Terms<'a>) -> Result<Terms<'a>, Memory>
    ensures { IfOk result (λ t. state t ≡ with_slots (pushed p (state g.entry) ∷ (state g.entry).slots) (state g.entry)) }
{
    let word = pushed_word(arena, p, g)?;
    g.with_word(arena, word)
}

/// The five flags from a byte.
#[tactic(auto, unfolding(crate::specs::Translation::with_flag_bits))]
fn with_flag_bits<'a>(arena: &'a Bump, y: &'a Term<'a>, g: Terms<'a>) -> Result<Terms<'a>, Memory>
    ensures { IfOk result (λ t. state t ≡ with_flag_bits y.now (state g.entry)) }
{
    let s = bit(arena, 7, y)?;
    let z = bit(arena, 6, y)?;
    let ac = bit(arena, 4, y)?;
    let p = bit(arena, 2, y)?;
    let cy = bit(arena, 0, y)?;
    Ok(
        g.with(Loc::Cy, cy)
            .with(Loc::P, p)
            .with(Loc::Ac, ac)
            .with(Loc::Z, z)
            .with(Loc::S, s),
    )
}

/// The registers that a POP sets.
#[tactic(auto, unfolding(crate::specs::Translation::with_top))]
fn with_top<'a>(
    arena: &'a Bump,
    p: StackPair,
    top: Word<'a>,
    g: Terms<'a>,
) -> Result<Terms<'a>, Memory>
    ensures { IfOk result (λ t. state t ≡ with_top p (word_of top.entry) (state g.entry)) }
{
    match p {
        StackPair::B => Ok(with_bytes(Pair::B, top.0, top.1, g)),
        StackPair::D => Ok(with_bytes(Pair::D, top.0, top.1, g)),
        StackPair::H => Ok(with_bytes(Pair::H, top.0, top.1, g)),
        StackPair::Psw => {
            let flags = with_flag_bits(arena, top.1, g)?;
            Ok(flags.with(Loc::A, top.0))
        }
    }
}

/// POP.
#[tactic(auto, unfolding(crate::specs::Translation::popped))]
pub fn popped<'a>(arena: &'a Bump, p: StackPair, g: Terms<'a>) -> Result<Terms<'a>, Memory>
    ensures { IfOk result (λ t. state t ≡ popped p (state g.entry).slots (state g.entry)) }
{
    match g.slots.split_last() {
        Some((top, rest)) => {
            let taken = with_top(arena, p, *top, g)?;
            Ok(taken.with_slots(rest))
        }
        None => Ok(g),
    }
}

/// XTHL.
#[tactic(auto, unfolding(crate::specs::Translation::top_exchanged, crate::specs::Translation::pushed, crate::specs::Symbolic::with_slots))]
pub fn top_exchanged<'a>(arena: &'a Bump, g: Terms<'a>) -> Result<Terms<'a>, Memory>
    ensures { IfOk result (λ t. state t ≡ top_exchanged (state g.entry).slots (state g.entry)) }
{
    match g.slots.split_last() {
        Some((top, rest)) => {
            let changed = g.with_slots(rest).with_word(arena, (g.h, g.l))?;
            Ok(with_bytes(Pair::H, top.0, top.1, changed))
        }
        None => Ok(g),
    }
}

/// IN.
pub fn taken<'a>(arena: &'a Bump, number: u32, g: Terms<'a>) -> Result<Terms<'a>, Memory>
    ensures { IfOk result (λ t. state t ≡ with_term loc.A (Variable (var.In number)) (state g.entry)) }
{
    let byte = make(arena, Kind::Variable(Var::In(number)))?;
    Ok(g.with(Loc::A, byte))
}
