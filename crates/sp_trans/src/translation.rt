ghost use Rattle.std.specs.Prelude.{◌≡◌, ◌≤◌, length, IfOk};
ghost use Rattle.sp_trans.specs.Symbolic.{number};
ghost use Rattle.sp_trans.specs.Translation.{applied, operated, arg_term};
ghost use Rattle.sp_trans.specs.Meaning.{IsTranslated, IsIn, words_taken};
ghost use Rattle.sp_trans.specs.View.{symbolic_of};
ghost use Rattle.sp_trans.specs.code.Terms.{state};

use crate::Sym;
use crate::accumulator::{
    adjusted, carry_set, complemented, rotated_left, rotated_left_through_carry, rotated_right,
    rotated_right_through_carry,
};
use crate::arithmetic::{decreased, increased, operated, pair_added};
use crate::build::number;
use crate::operands::arg_term;
use crate::terms::{Terms, terms_of};
use crate::transfers::{
    byte_moved, exchanged, loaded, loaded_from_pair, moved, pair_decreased, pair_increased, popped,
    pushed, stored, stored_at_pair, taken, top_exchanged, word_loaded, word_moved, word_stored,
};
use bumpalo::Bump;
use sp_base::{Loc, Memory};
use sp_isa::{Arg, Instr, Op};

/// An operation between the accumulator and an operand.
fn operated_with<'a>(arena: &'a Bump, o: Op, y: Arg, g: Terms<'a>) -> Result<Terms<'a>, Memory>
    ensures { IfOk result (λ t. state t ≡ operated o (arg_term y (state g.entry)) (state g.entry)) }
{
    let y = arg_term(arena, y, g)?;
    operated(arena, o, y, g)
}

/// An operation between the accumulator and a byte.
fn operated_with_byte<'a>(arena: &'a Bump, o: Op, n: u8, g: Terms<'a>) -> Result<Terms<'a>, Memory>
    ensures { IfOk result (λ t. state t ≡ operated o (number n) (state g.entry)) }
{
    let y = number(arena, u32::from(n))?;
    operated(arena, o, y, g)
}

/// Every row of the table.
#[tactic(auto, unfolding(crate::specs::Translation::applied))]
fn translated<'a>(arena: &'a Bump, i: Instr, number: u32, g: Terms<'a>) -> Result<Terms<'a>, Memory>
    ensures { IfOk result (λ t. state t ≡ applied i number (state g.entry)) }
{
    match i {
        Instr::Mov(to, from) => moved(arena, to, from, g),
        Instr::Mvi(to, n) => byte_moved(arena, to, n, g),
        Instr::Inr(y) => increased(arena, y, g),
        Instr::Dcr(y) => decreased(arena, y, g),
        Instr::Alu(o, y) => operated_with(arena, o, y, g),
        Instr::AluImmediate(o, n) => operated_with_byte(arena, o, n, g),
        Instr::Lxi(p, w) => word_moved(arena, p, w, g),
        Instr::Dad(p) => pair_added(arena, p, g),
        Instr::Inx(p) => pair_increased(arena, p, g),
        Instr::Dcx(p) => pair_decreased(arena, p, g),
        Instr::Stax(p) => stored_at_pair(arena, p, g),
        Instr::Ldax(p) => loaded_from_pair(arena, p, g),
        Instr::Shld(w) => word_stored(arena, w, g),
        Instr::Lhld(w) => word_loaded(arena, w, g),
        Instr::Sta(w) => stored(arena, w, g),
        Instr::Lda(w) => loaded(arena, w, g),
        Instr::Rlc => rotated_left(arena, g),
        Instr::Rrc => rotated_right(arena, g),
        Instr::Ral => rotated_left_through_carry(arena, g),
        Instr::Rar => rotated_right_through_carry(arena, g),
        Instr::Daa => adjusted(arena, g),
        Instr::Cma => complemented(arena, 255, Loc::A, g),
        Instr::Stc => carry_set(arena, g),
        Instr::Cmc => complemented(arena, 1, Loc::Cy, g),
        Instr::Push(p) => pushed(arena, p, g),
        Instr::Pop(p) => popped(arena, p, g),
        Instr::Xthl => top_exchanged(arena, g),
        Instr::Xchg => Ok(exchanged(g)),
        Instr::In(_) => taken(arena, number, g),
        _ => Ok(g),
    }
}

/// The symbolic state after an instruction, `number` being the number of an IN on its walk.
pub fn apply<'a>(arena: &'a Bump, i: &Instr, state: Sym<'a>, number: u32) -> Result<Sym<'a>, Memory>
    requires form { IsTranslated i.now }
    requires locations { length state.locs.now ≡ 12 }
    requires words { words_taken i.now ≤ length state.slots.now }
    requires number { IsIn i.now → 1 ≤ number }
    ensures terms { IfOk result (λ s. symbolic_of s ≡ applied i.now number (symbolic_of state.entry)) }
    ensures locations { IfOk result (λ s. length s.locs.now ≡ 12) }
{
    let before = terms_of(state);
    let after = translated(arena, *i, number, before)?;
    after.into_sym(arena)
}
