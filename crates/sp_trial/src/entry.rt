//! Entries of routines, their preconditions left out.
ghost use Rattle.std.specs.Prelude.{◌≡◌, ◌↔◌, ◌+◌, IsTrue, false, []};
ghost use Rattle.sp_isa.specs.Core.{IsCore};
ghost use Rattle.sp_logic.specs.View as view;
ghost use Rattle.sp_prog.specs.Rules.{address_of};
ghost use Rattle.sp_trial.specs.Setup.{setup, frame};
ghost use Rattle.sp_trial.specs.code.Entering.{IsLoaded, HasRoom, Begins};

use sp_base::Image;
use sp_logic::Frame;
use sp_machine::Machine;
use sp_prog::{Routine, Unit};

/// Whether each byte of an image is in memory at its address.
fn is_loaded(image: &Image, machine: &Machine) -> bool
    ensures { IsTrue result ↔ IsLoaded image.now machine.now }
{
    let mut from = 0u32;
    while let Some((address, byte)) = image.next(from) {
        if machine.cell(address) != byte {
            return false;
        }
        from = u32::from(address) + 1;
    }
    true
}

/// The address of the routine's first instruction, 0 where it has none.
fn address_of(routine: &Routine) -> u16
    ensures { result ≡ address_of routine.now }
{
    match routine.code.as_slice().first() {
        Some(stmt) => stmt.addr,
        None => 0,
    }
}

/// Whether the stack region has room for the return address, and below it for what the routine takes.
fn has_room(unit: &Unit, depth: u16, sp: u16) -> bool
    ensures { IsTrue result ↔ HasRoom unit.now depth sp }
{
    u32::from(unit.first) + u32::from(depth) <= u32::from(sp)
        && u32::from(sp) + 1 <= u32::from(unit.last)
}

/// Whether there is room for the routine, which a start routine doesn't need.
fn has_own_room(unit: &Unit, routine: &Routine, sp: u16) -> bool
    ensures { IsTrue result ↔ (routine.now.start ≡ false → HasRoom unit.now routine.now.depth sp) }
{
    if routine.start {
        return true;
    }
    has_room(unit, routine.depth, sp)
}

/// Whether a machine is at an entry of the routine, its preconditions left out.
pub fn may_enter(unit: &Unit, routine: &Routine, machine: &Machine) -> bool
    ensures begins { IsTrue result ↔ Begins unit.now routine.now machine.now }
    ensures core { IsCore machine.now }
{
    if machine.halted() {
        return false;
    }
    if machine.pc() != address_of(routine) {
        return false;
    }
    if !has_own_room(unit, routine, machine.sp()) {
        return false;
    }
    is_loaded(&unit.image, machine)
}

/// What the routine's annotations are read in, for a run from a machine.
pub fn frame_of(unit: &Unit, routine: &Routine, machine: &Machine) -> Frame
    ensures { view.frame_of result ≡ frame (setup unit.now routine.now machine.now [] 0) }
{
    let base = if routine.start {
        u32::from(unit.last) + 1
    } else {
        u32::from(machine.sp())
    };
    Frame {
        first: unit.first,
        last: unit.last,
        base,
    }
}
