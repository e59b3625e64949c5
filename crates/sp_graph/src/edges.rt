ghost use Rattle.std.specs.Prelude.{◌≡◌, ◌<◌, ◌+◌, ℕ, Some, IfOk, OnOk, length, map};
ghost use Rattle.sp_graph.specs.Successors.{next_by, target_by, successors, AreBefore};
ghost use Rattle.sp_graph.specs.code.Before.{AreFirstBefore, with_before, noted, second_of};
ghost use Rattle.sp_prog.specs.Rules.{AreLaidOut, address_of, first_address};

use crate::control::{Control, control_of};
use crate::places::{next_of, place_of};
use smallvec::SmallVec;
use sp_base::Memory;
use sp_prog::{Routine, Stmt};
use std::alloc::Global;

/// The next instruction, unless this one is JMP, RET or HLT.
fn next_by(code: &[Stmt], at: usize, control: Control) -> Option<usize>
    requires { at < length code.now }
    ensures { result ≡ next_by code.now at control }
{
    match control {
        Control::Jump(_) | Control::Return | Control::Halt => None,
        _ => next_of(code, at),
    }
}

/// The target of a jump.
fn target_by(code: &[Stmt], control: Control) -> Option<usize>
    requires { AreLaidOut (first_address code.now) code.now }
    ensures { result ≡ target_by code.now control }
{
    match control {
        Control::Jump(address) | Control::JumpIf(address) => place_of(code, address),
        _ => None,
    }
}

/// The places at which an instruction of a routine goes on: the next one, then the target. It takes no memory.
pub fn successors(alloc: Global, routine: &Routine, at: usize) -> SmallVec<usize, 2, Global>
    requires at { at < length routine.now.code }
    requires laid_out { AreLaidOut (address_of routine.now) routine.now.code }
    ensures { result.items ≡ successors routine.now.code at }
{
    let code = routine.code.as_slice();
    let control = control_of(&code[at].instr);
    let mut places = SmallVec::new(alloc);
    if let Some(next) = next_by(code, at, control) {
        places.push_reserved(next);
    }
    if let Some(target) = target_by(code, control) {
        places.push_reserved(target);
    }
    places
}

/// Notes an instruction as one before another.
fn note_before(
    lists: &mut Vec<SmallVec<usize, 4, Global>>,
    to: usize,
    at: usize,
) -> Result<(), Memory>
    requires { to < length lists.old.items }
    ensures { OnOk result (map (λ list. list.items) lists.new.items ≡ with_before (map (λ list. list.items) lists.old.items) to at) }
{
    lists[to].push(at)?;
    Ok(())
}

/// The same, where there is such an instruction.
fn note(
    lists: &mut Vec<SmallVec<usize, 4, Global>>,
    to: Option<usize>,
    at: usize,
) -> Result<(), Memory>
    requires { (place : ℕ) → to ≡ Some place → place < length lists.old.items }
    ensures { OnOk result (map (λ list. list.items) lists.new.items ≡ noted to at (map (λ list. list.items) lists.old.items)) }
{
    match to {
        Some(to) => note_before(lists, to, at),
        None => Ok(()),
    }
}

/// The second successor, if it is another one than the first.
fn second_of(next: Option<usize>, target: Option<usize>) -> Option<usize>
    ensures { result ≡ second_of next target }
{
    let target = target?;
    match next {
        Some(next) => { if next == target { None } else { Some(target) } }
        None => Some(target),
    }
}

/// Notes an instruction as one before each of its successors.
fn note_successors(
    code: &[Stmt],
    lists: &mut Vec<SmallVec<usize, 4, Global>>,
    at: usize,
) -> Result<(), Memory>
    requires at { at < length code.now }
    requires laid_out { AreLaidOut (first_address code.now) code.now }
    requires first { AreFirstBefore code.now at (map (λ list. list.items) lists.old.items) }
    ensures { OnOk result (AreFirstBefore code.now (at + 1) (map (λ list. list.items) lists.new.items)) }
{
    let control = control_of(&code[at].instr);
    let next = next_by(code, at, control);
    let target = target_by(code, control);
    note(lists, next, at)?;
    note(lists, second_of(next, target), at)?;
    Ok(())
}

/// For each instruction of a routine the places of those that go on there, in rising order.
pub fn before(alloc: Global, routine: &Routine) -> Result<Vec<SmallVec<usize, 4, Global>>, Memory>
    requires { AreLaidOut (address_of routine.now) routine.now.code }
    ensures { IfOk result (λ lists. AreBefore routine.now.code (map (λ list. list.items) lists.items)) }
{
    let code = routine.code.as_slice();
    let mut lists = Vec::with_capacity(alloc, code.len())?;
    'starts: for _ in 0..code.len() {
        lists.push(SmallVec::new(alloc))?;
    }
    'places: for at in 0..code.len() {
        note_successors(code, &mut lists, at)?;
    }
    Ok(lists)
}
