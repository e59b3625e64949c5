ghost use Rattle.std.specs.Prelude.{◌≡◌, IfOk, length};

use crate::forms::{has_form, words_taken};
use crate::rows::{ENTRY, MIXED, OF_ENTRY, OF_MIXED, OF_STARTED, Row, STARTED};
use crate::states::{Texts, changes, symbolic};
use bumpalo::Bump;
use bumpalo::collections::into_bump_slice;
use sp_base::{Loc, Memory, Pair};
use sp_isa::{Instr, decode, valid};
use sp_term::{Kind, Term, Var, depth, make, size};
use sp_trans::{Sym, apply};
use std::alloc::Global;
use std::process::Abort;
use std::test::Fail;

/// Takes a state through an instruction, and compares what changed.
fn check(rt: &impl Abort, alloc: Global, start: &Texts, row: &Row) -> Result<(), Fail> {
    let arena = Bump::new(alloc);
    let Some(state) = symbolic(alloc, &arena, start) else {
        assert!(rt; false, "{}", row.after);
        return Ok(());
    };
    let Some((i, _)) = decode(row.bytes) else {
        assert!(rt; false, "{}", row.after);
        return Ok(());
    };
    if !valid(&i) || !has_form(&i) || words_taken(&i) > state.slots.len() || row.number == 0 {
        assert!(rt; false, "{}", row.after);
        return Ok(());
    }
    let after = apply(&arena, &i, state, row.number)?;
    let text = changes(alloc, start, state, after)?;
    assert_eq!(rt; text.as_slice(), row.after.as_bytes());
    Ok(())
}

#[test]
fn entry_states(rt: HostRuntime) -> Result<(), Fail> {
    for row in &OF_ENTRY {
        check(&rt, rt.alloc(), &ENTRY, row)?;
    }
    Ok(())
}

#[test]
fn started_states(rt: HostRuntime) -> Result<(), Fail> {
    for row in &OF_STARTED {
        check(&rt, rt.alloc(), &STARTED, row)?;
    }
    Ok(())
}

#[test]
fn mixed_states(rt: HostRuntime) -> Result<(), Fail> {
    for row in &OF_MIXED {
        check(&rt, rt.alloc(), &MIXED, row)?;
    }
    Ok(())
}

/// One of two states: B and C are the quotient and the remainder of a term by 256, all else are entry variables.
fn split_state<'a>(arena: &'a Bump, z: &'a Term<'a>) -> Result<Sym<'a>, Memory>
    ensures { IfOk result (λ s. length s.locs.now ≡ 12) }
{
    let number = make(arena, Kind::Literal(256))?;
    let high = make(arena, Kind::Divide(z, number))?;
    let low = make(arena, Kind::Remainder(z, number))?;
    let a = make(arena, Kind::Variable(Var::Entry(Loc::A)))?;
    let mem = make(arena, Kind::Variable(Var::MemEntry))?;
    let mut locs = Vec::new(arena);
    locs.extend_from_slice(&[a, high, low, a, a, a, a, a, a, a, a, a])?;
    Ok(Sym {
        locs: into_bump_slice(locs),
        mem,
        slots: &[],
    })
}

/// The nodes and the depth of memory after STAX B where B and C are the two parts of a term.
fn stored_at(arena: &Bump, z: &Term) -> Result<(u64, u32), Memory> {
    let state = split_state(arena, z)?;
    let after = apply(arena, &Instr::Stax(Pair::B), state, 1)?;
    Ok((size(after.mem), depth(after.mem)))
}

/// A sum of so many numbers 1, one inside the other.
fn deep<'a>(arena: &'a Bump, count: u32) -> Result<&'a Term<'a>, Memory> {
    let one = make(arena, Kind::Literal(1))?;
    let mut t = one;
    for done in 1..count {
        t = make(arena, Kind::Add(t, one))?;
    }
    Ok(t)
}

/// A number, doubled so many times.
fn wide<'a>(arena: &'a Bump, count: u32) -> Result<&'a Term<'a>, Memory> {
    let mut t = make(arena, Kind::Literal(1))?;
    for done in 0..count {
        t = make(arena, Kind::Add(t, t))?;
    }
    Ok(t)
}

#[test]
fn parts_are_joined_up_to_depth_2000(rt: HostRuntime) -> Result<(), Fail> {
    let arena = Bump::new(rt.alloc());
    let joined = stored_at(&arena, deep(&arena, 2_000)?)?;
    let apart = stored_at(&arena, deep(&arena, 2_001)?)?;
    assert_eq!(rt; (joined, apart), ((4_002, 2_001), (8_012, 2_005)));
    Ok(())
}

#[test]
fn parts_are_joined_up_to_65536_nodes(rt: HostRuntime) -> Result<(), Fail> {
    let arena = Bump::new(rt.alloc());
    let most = make(&arena, Kind::Parity(wide(&arena, 15)?))?;
    let more = make(&arena, Kind::Parity(most))?;
    let joined = stored_at(&arena, most)?;
    let apart = stored_at(&arena, more)?;
    assert_eq!(rt; (joined, apart), ((65_539, 18), (131_084, 22)));
    Ok(())
}
