ghost use Rattle.std.specs.Prelude.{◌≡◌, ◌+◌, ◌≤◌, ◌⊎◌, ℕ, IsTrue, None, Some, map, slice_get};
ghost use Rattle.sp_flow.specs.code.Counts.{Called, Direct, callee_by, own_lists, own_of};
ghost use Rattle.sp_flow.specs.code.Faults.{IsFirst};
ghost use Rattle.sp_graph.specs.Control.{control_of};
ghost use Rattle.std.specs.List.Sorted.{IsStrictlyIncreasing};
ghost use Rattle.sp_prog.specs.Rules.{address_of};
ghost use Rattle.sp_isa.specs.Code.{valid};
ghost use Rattle.sp_prog.specs.declared.area.Area.{Area};

use crate::fault::{Fault, with_kind};
use crate::kinds::{calls_cell, calls_loc, uses_cell, uses_loc, uses_port, writes_cell};
use crate::listed::lowest_listed;
use crate::missing::first_lacking;
use crate::own::{lowest_read, lowest_written, put_port, taken_port};
use crate::ports::lowest_port;
use sp_base::{Line, Locs};
use sp_graph::{Control, control_of, routine_at};
use sp_isa::{Instr, reads};
use sp_prog::{Area, Routine};

/// What a routine lists: locations and areas that it reads, areas that it changes, and ports.
#[derive(Clone, Copy)]
pub struct Listed<'u> {
    pub locs: Locs,
    pub reads: &'u [usize],
    pub changes: &'u [usize],
    pub ins: &'u [u8],
    pub outs: &'u [u8],
}

/// The first of the rules so far and of those that an instruction itself breaks.
pub fn count_own(
    areas: &[Area],
    own: &Listed<'_>,
    line: Line,
    instr: &Instr,
    unset: u16,
    best: Option<Fault>,
) -> Option<Fault>
    requires { IsTrue (valid instr.now) }
    ensures { IsFirst (λ f. (best ≡ Some f) ⊎ ((f.line ≡ line)
        × Direct areas.now (own_lists own.now.locs own.now.reads.now own.now.changes.now own.now.ins.now own.now.outs.now) instr.now unset f.kind)) result }
{
    let used = reads(instr);
    let x = first_lacking(used, own.locs, unset);
    let cell = lowest_read(areas, own.reads, own.changes, instr);
    let written = lowest_written(areas, own.changes, instr);
    let taken = taken_port(own.ins, instr);
    let put = put_port(own.outs, instr);
    let one = uses_loc(x);
    let two = uses_cell(cell);
    let three = writes_cell(written);
    let four = uses_port(taken);
    let five = uses_port(put);
    let first = with_kind(best, line, one);
    let second = with_kind(first, line, two);
    let third = with_kind(second, line, three);
    let fourth = with_kind(third, line, four);
    let fifth = with_kind(fourth, line, five);
    fifth
}

/// The first of the rules so far and of those that the call of a routine breaks.
pub fn count_call(
    areas: &[Area],
    own: &Listed<'_>,
    callee: &Listed<'_>,
    line: Line,
    unset: u16,
    best: Option<Fault>,
) -> Option<Fault>
    requires { (at : ℕ) (area : Area) → slice_get areas.now at ≡ Some area → area.addr + area.len ≤ 65536 }
    ensures { IsFirst (λ f. (best ≡ Some f) ⊎ ((f.line ≡ line)
        × Called areas.now (own_lists own.now.locs own.now.reads.now own.now.changes.now own.now.ins.now own.now.outs.now)
        (own_lists callee.now.locs callee.now.reads.now callee.now.changes.now callee.now.ins.now callee.now.outs.now) unset f.kind)) result }
{
    let written = lowest_listed(areas, own.changes, own.changes, None, callee.changes);
    let taken = lowest_port(None, callee.ins, own.ins);
    let put = lowest_port(None, callee.outs, own.outs);
    let x = first_lacking(callee.locs, own.locs, unset);
    let cell = lowest_listed(areas, own.reads, own.changes, None, callee.reads);
    let one = writes_cell(written);
    let two = uses_port(taken);
    let three = uses_port(put);
    let four = calls_loc(x);
    let five = calls_cell(cell);
    let first = with_kind(best, line, one);
    let second = with_kind(first, line, two);
    let third = with_kind(second, line, three);
    let fourth = with_kind(third, line, four);
    let fifth = with_kind(fourth, line, five);
    fifth
}

/// The place of the routine that an instruction calls.
pub fn callee_of(routines: &[Routine], instr: &Instr) -> Option<usize>
    requires { IsStrictlyIncreasing (map address_of routines.now) }
    ensures { result ≡ callee_by routines.now (control_of instr.now) }
{
    match control_of(instr) {
        Control::Call(address) => routine_at(routines, address),
        Control::CallIf(address) => routine_at(routines, address),
        _ => None,
    }
}

/// What a routine lists.
pub fn listed_of(routine: &Routine) -> Listed<'_>
    ensures { own_lists result.locs result.reads.now result.changes.now result.ins.now result.outs.now ≡ own_of routine.now }
{
    Listed {
        locs: routine.reads.locs,
        reads: routine.reads.areas.as_slice(),
        changes: routine.changes.areas.as_slice(),
        ins: routine.ins.as_slice(),
        outs: routine.outs.as_slice(),
    }
}
