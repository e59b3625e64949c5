//! Which routine an instruction calls.
ghost use Rattle.std.specs.Prelude.{◌≡◌, option_map};
ghost use Rattle.sp_graph.specs.Routines.{callee_at};
ghost use Rattle.sp_graph.specs.Structure.{call_target};
ghost use Rattle.sp_cond.specs.Calls.{called_by, called_place, callee_of, place_at};

use crate::place::{routine_at_place, routines_of};
use sp_graph::{Control, control_of, routine_at};
use sp_isa::Instr;
use sp_prog::{Routine, Unit};

/// The place of the routine at an address, if there is an address.
fn place_at(unit: &Unit, address: Option<u16>) -> Option<usize>
    ensures { result ≡ place_at unit.now.routines address }
{
    match address {
        Some(address) => routine_at(routines_of(unit), address),
        None => None,
    }
}

/// The routine at a place, if there is one.
pub fn routine_in<'u>(unit: &'u Unit, place: Option<usize>) -> Option<&'u Routine>
    ensures { option_map (λ r. r.now) result ≡ callee_at unit.now.routines place }
{
    match place {
        Some(place) => routine_at_place(routines_of(unit), place),
        None => None,
    }
}

/// The address that an instruction calls.
fn target(control: Control) -> Option<u16>
    ensures { result ≡ call_target control }
{
    match control {
        Control::Call(address) | Control::CallIf(address) => Some(address),
        _ => None,
    }
}

/// The routine that an instruction calls where its call is taken.
pub fn callee_of<'u>(unit: &'u Unit, i: &Instr) -> Option<&'u Routine>
    ensures { option_map (λ r. r.now) result ≡ callee_of unit.now.routines i.now }
{
    routine_in(unit, place_at(unit, target(control_of(i))))
}

/// The address that an instruction calls by a choice.
fn called_by(control: Control, taken: bool) -> Option<u16>
    ensures { result ≡ called_by control taken }
{
    match control {
        Control::Call(address) => Some(address),
        Control::CallIf(address) => if taken { Some(address) } else { None },
        _ => None,
    }
}

/// The place of the routine that an instruction calls by a choice.
pub fn called_place(unit: &Unit, i: &Instr, taken: bool) -> Option<usize>
    ensures { result ≡ called_place unit.now.routines i.now taken }
{
    place_at(unit, called_by(control_of(i), taken))
}
