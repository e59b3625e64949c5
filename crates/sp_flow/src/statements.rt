ghost use Rattle.std.specs.List.Sorted.{IsStrictlyIncreasing};
ghost use Rattle.std.specs.Prelude.{◌≡◌, ◌<◌, ◌+◌, ◌≤◌, ◌⊎◌, ℕ, All, IsTrue, Some, length, map, slice_get, slice_index};
ghost use Rattle.sp_flow.specs.code.Counts.{CalledAt, Faulty, FaultyIn, callee_by, own_lists};
ghost use Rattle.sp_flow.specs.code.Faults.{IsFirst};
ghost use Rattle.sp_graph.specs.Control.{control_of};
ghost use Rattle.sp_graph.specs.Routines.{callee_at};
ghost use Rattle.sp_isa.specs.Code.{valid};
ghost use Rattle.sp_prog.specs.Rules.{address_of};
ghost use Rattle.sp_prog.specs.declared.area.Area.{Area};
ghost use Rattle.sp_prog.specs.declared.routine.Stmt.{Stmt};

use crate::counting::{Listed, callee_of, count_call, count_own, listed_of};
use crate::fault::Fault;
use sp_base::Line;
use sp_isa::Instr;
use sp_prog::{Area, Routine, Stmt};

/// The first of the rules so far and of those that the call of a routine at a place breaks.
fn count_callee(
    areas: &[Area],
    own: &Listed<'_>,
    routine: &Routine,
    line: Line,
    unset: u16,
    best: Option<Fault>,
) -> Option<Fault>
    requires { (at : ℕ) (area : Area) → slice_get areas.now at ≡ Some area → area.addr + area.len ≤ 65536 }
    ensures { IsFirst (λ f. (best ≡ Some f) ⊎ ((f.line ≡ line)
        × CalledAt areas.now (own_lists own.now.locs own.now.reads.now own.now.changes.now own.now.ins.now own.now.outs.now)
        (Some routine.now) unset f.kind)) result }
{
    let callee = listed_of(routine);
    let counted = count_call(areas, own, &callee, line, unset, best);
    counted
}

/// The first of the rules so far and of those that the call of an instruction breaks, if it calls a routine.
fn count_called(
    areas: &[Area],
    routines: &[Routine],
    own: &Listed<'_>,
    stmt: &Stmt,
    unset: u16,
    best: Option<Fault>,
) -> Option<Fault>
    requires rising { IsStrictlyIncreasing (map address_of routines.now) }
    requires within { (at : ℕ) (area : Area) → slice_get areas.now at ≡ Some area → area.addr + area.len ≤ 65536 }
    ensures { IsFirst (λ f. (best ≡ Some f) ⊎ ((f.line ≡ stmt.now.line)
        × CalledAt areas.now (own_lists own.now.locs own.now.reads.now own.now.changes.now own.now.ins.now own.now.outs.now)
        (callee_at routines.now (callee_by routines.now (control_of stmt.now.instr))) unset f.kind)) result }
{
    match callee_of(routines, &stmt.instr) {
        Some(place) => count_callee(areas, own, &routines[place], stmt.line, unset, best),
        None => best,
    }
}

/// The first of the rules so far and of those that an instruction and its call break.
pub fn count_stmt(
    areas: &[Area],
    routines: &[Routine],
    own: &Listed<'_>,
    stmt: &Stmt,
    unset: u16,
    best: Option<Fault>,
) -> Option<Fault>
    requires rising { IsStrictlyIncreasing (map address_of routines.now) }
    requires within { (at : ℕ) (area : Area) → slice_get areas.now at ≡ Some area → area.addr + area.len ≤ 65536 }
    requires valid { IsTrue (valid stmt.now.instr) }
    ensures { IsFirst (λ f. (best ≡ Some f) ⊎ ((f.line ≡ stmt.now.line)
        × Faulty areas.now routines.now (own_lists own.now.locs own.now.reads.now own.now.changes.now own.now.ins.now own.now.outs.now)
        stmt.now unset f.kind)) result }
{
    let first = count_own(areas, own, stmt.line, &stmt.instr, unset, best);
    let both = count_called(areas, routines, own, stmt, unset, first);
    both
}

/// The locations that are left unset at a place, none where there is no such place.
fn unset_at(sets: &[u16], at: usize) -> u16
    ensures { result ≡ slice_index sets.now at }
{
    match sets.get(at) {
        Some(set) => *set,
        None => 0,
    }
}

/// The first of the rules so far and of those that the instructions of a routine and their calls break.
pub fn count_code(
    areas: &[Area],
    routines: &[Routine],
    own: &Listed<'_>,
    code: &[Stmt],
    sets: &[u16],
    so_far: Option<Fault>,
) -> Option<Fault>
    requires rising { IsStrictlyIncreasing (map address_of routines.now) }
    requires within { (at : ℕ) (area : Area) → slice_get areas.now at ≡ Some area → area.addr + area.len ≤ 65536 }
    requires valid { (at : ℕ) (s : Stmt) → slice_get code.now at ≡ Some s → IsTrue (valid s.instr) }
    ensures { IsFirst (λ f. (so_far ≡ Some f) ⊎ FaultyIn areas.now routines.now
        (own_lists own.now.locs own.now.reads.now own.now.changes.now own.now.ins.now own.now.outs.now) code.now sets.now f) result }
{
    let mut best = so_far;
    'places: for at in 0..code.len() {
        let unset = unset_at(sets, at);
        best = count_stmt(areas, routines, own, &code[at], unset, best);
    }
    best
}
