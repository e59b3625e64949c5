//! The symbolic state at a walk's start.
ghost use Rattle.std.specs.Prelude.{◌≡◌, ◌<◌, ◌/◌, IfOk, IfSome, IsTrue, length, map, reverse};
ghost use Rattle.sp_base.specs.declared.location.Loc.{Loc};
ghost use Rattle.sp_base.specs.Locs.{has};
ghost use Rattle.sp_isa.specs.Code.{valid};
ghost use Rattle.sp_trans.specs.View.{symbolic_of, word_of};
ghost use Rattle.sp_cond.specs.Start.{callee_stores, entry_state, fresh_words, has_store, is_set, start_state};
ghost use Rattle.sp_conditions.specs.code.Places.{AreValid, option_now, setting_at, sets_at, stores_at, word};

use crate::calls::callee_of;
use crate::place::Place;
use crate::states::{Word, state_with};
use crate::steps::is_store;
use bumpalo::Bump;
use bumpalo::collections::into_bump_slice;
use sp_base::{Locs, Memory};
use sp_isa::{Instr, writes};
use sp_prog::{Routine, Unit};
use sp_term::{Kind, Var, make};
use sp_trans::Sym;

/// What an instruction sets, or a routine that it calls lists.
fn set_by(unit: &Unit, i: &Instr) -> Locs
    requires { IsTrue (valid i.now) }
    ensures { (x : Loc) → has x result ≡ sets_at unit.now.routines x i.now }
{
    match callee_of(unit, i) {
        Some(callee) => writes(i).union(callee.changes.locs),
        None => writes(i),
    }
}

/// What the instructions of a routine set, or the routines that it calls list.
fn set_in(u: &Place<'_>) -> Locs
    requires { AreValid u.now.routine.now.code }
    ensures { (x : Loc) → has x result ≡ is_set (setting_at u.now) x }
{
    let code = u.routine.code.as_slice();
    let mut set = Locs::empty();
    'code: for stmt in code {
        set = set.union(set_by(u.unit, &stmt.instr));
    }
    set
}

/// Whether a routine that is called lists an area in `changes`.
fn callee_stores(callee: Option<&Routine>) -> bool
    ensures { result ≡ callee_stores (option_now callee.entry) }
{
    match callee {
        Some(callee) => !callee.changes.areas.as_slice().is_empty(),
        None => false,
    }
}

/// Whether an instruction stores, or a routine that it calls lists an area.
fn stores(unit: &Unit, i: &Instr) -> bool
    ensures { result ≡ stores_at unit.now.routines i.now }
{
    is_store(i) || callee_stores(callee_of(unit, i))
}

/// Whether a routine has a store, or a routine that it calls lists an area.
pub fn has_store(u: &Place<'_>) -> bool
    ensures { result ≡ has_store (setting_at u.now) }
{
    let unit = u.unit;
    u.routine
        .code
        .as_slice()
        .iter()
        .any(|stmt| stores(unit, &stmt.instr))
}

/// The two variables of the k-th word.
fn fresh_word<'a>(arena: &'a Bump, k: u32) -> Result<Word<'a>, Memory>
    ensures { IfOk result (λ w. word_of w ≡ word k) }
{
    let high = make(arena, Kind::Variable(Var::SlotHigh(k)))?;
    let low = make(arena, Kind::Variable(Var::SlotLow(k)))?;
    Ok((high, low))
}

/// Words on the stack, from the base down.
#[derive(Clone, Copy, Drop)]
pub struct Words<'a> {
    pub list: &'a [Word<'a>],
}

/// So many words of variables.
fn fresh_words<'a>(arena: &'a Bump, count: u32) -> Result<Words<'a>, Memory>
    ensures { IfOk result (λ w. reverse (map word_of w.list.now) ≡ fresh_words count) }
{
    let mut words = Vec::new(arena);
    'words: for k in 0..count {
        let word = fresh_word(arena, k + 1)?;
        words.push(word)?;
    }
    Ok(Words {
        list: into_bump_slice(words),
    })
}

/// The state at a routine's entry.
pub fn entry_state<'a>(arena: &'a Bump) -> Result<Sym<'a>, Memory>
    ensures state { IfOk result (λ s. symbolic_of s ≡ entry_state) }
    ensures locations { IfOk result (λ s. length s.locs.now ≡ 12) }
{
    state_with(arena, Locs::empty(), false, &[])
}

/// The state at a walk's start, the entry or an assertion.
pub fn start_state<'a>(
    arena: &'a Bump,
    u: &Place<'_>,
    from: Option<usize>,
) -> Result<Sym<'a>, Memory>
    requires code { AreValid u.now.routine.now.code }
    requires depths { IfSome from (λ at. at < length u.now.depths.now) }
    ensures state { IfOk result (λ s. symbolic_of s ≡ start_state (setting_at u.now) from) }
    ensures locations { IfOk result (λ s. length s.locs.now ≡ 12) }
    ensures words { IfOk result (λ s. length s.slots.now ≡ length (start_state (setting_at u.now) from).slots) }
{
    match from {
        None => entry_state(arena),
        Some(at) => {
            let words = fresh_words(arena, u.depths[at] / 2)?;
            state_with(arena, set_in(u), has_store(u), words.list)
        }
    }
}
