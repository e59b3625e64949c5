ghost use Rattle.std.specs.Prelude.{◌≡◌, ◌<◌, ◌+◌, IfOk, length, map};
ghost use Rattle.std.specs.List.Sorted.{IsStrictlyIncreasing};
ghost use Rattle.sp_graph.specs.Structure.{Recurs};
ghost use Rattle.sp_prog.specs.Rules.{address_of};
ghost use Rattle.sp_struct.specs.Kinds.{IsLowestLine};
ghost use Rattle.sp_struct.specs.code.Calls.{callee_of, leads_back, RecursHere, TellLeads};
ghost use Rattle.sp_struct.specs.code.Lowest.{LowestSoFar};

use crate::calls::{all_leads, callee_of};
use crate::finding::lower;
use crate::sets::BitSet;
use sp_base::{Line, Memory};
use sp_prog::{Routine, Stmt, Unit};
use std::alloc::Global;

/// Whether an instruction calls a routine from which calls lead back.
fn leads_back(routines: &[Routine], rows: &[BitSet], place: usize, stmt: &Stmt) -> bool
    requires rising { IsStrictlyIncreasing (map address_of routines.now) }
    requires size { length rows.now ≡ length routines.now }
    ensures { result ≡ leads_back rows.now (callee_of routines.now stmt.now.instr) place }
{
    match callee_of(routines, &stmt.instr) {
        Some(callee) => rows[callee].has(place),
        None => false,
    }
}

/// The lowest line of such an instruction of this routine, or of one before it.
fn recursion_in(unit: &Unit, rows: &[BitSet], place: usize, so_far: Option<Line>) -> Option<Line>
    requires place { place < length unit.now.routines }
    requires rows { TellLeads unit.now rows.now }
    requires so_far { LowestSoFar (RecursHere unit.now) place 0 so_far }
    ensures { LowestSoFar (RecursHere unit.now) (place + 1) 0 result }
{
    let routine = &unit.routines.as_slice()[place];
    let code = routine.code.as_slice();
    let mut best = so_far;
    'places: for at in 0..code.len() {
        let stmt = &code[at];
        if leads_back(unit.routines.as_slice(), rows, place, stmt) {
            best = lower(best, stmt.line);
        }
    }
    best
}

/// The lowest line of a call of a routine from which calls lead back to the caller.
pub fn lowest_recursion(alloc: Global, unit: &Unit) -> Result<Option<Line>, Memory>
    ensures { IfOk result (IsLowestLine (Recurs unit.now)) }
{
    let rows = all_leads(alloc, unit)?;
    let mut best = None;
    'routines: for place in 0..unit.routines.as_slice().len() {
        best = recursion_in(unit, &rows, place, best);
    }
    Ok(best)
}
