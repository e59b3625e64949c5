ghost use Rattle.std.specs.Prelude.{◌≡◌, ◌<◌, ◌+◌, ◌||◌, ℕ, IfOk, IfSome, length, map};
ghost use Rattle.std.specs.List.Sorted.{IsStrictlyIncreasing};
ghost use Rattle.sp_prog.specs.Rules.{address_of};
ghost use Rattle.sp_struct.specs.code.Bits.{has};
ghost use Rattle.sp_struct.specs.code.Calls.{callee_of, calls_first, is_place, words_for, TellCalls, TellLeads};

use crate::closing::close;
use crate::rules::call_target;
use crate::sets::BitSet;
use sp_base::Memory;
use sp_graph::{control_of, routine_at};
use sp_isa::Instr;
use sp_prog::{Routine, Stmt, Unit};
use std::alloc::Global;

/// The place of the routine that an instruction calls.
pub fn callee_of(routines: &[Routine], instr: &Instr) -> Option<usize>
    requires { IsStrictlyIncreasing (map address_of routines.now) }
    ensures place { result ≡ callee_of routines.now instr.now }
    ensures within { IfSome result (λ place. place < length routines.now) }
{
    match call_target(control_of(instr)) {
        Some(address) => routine_at(routines, address),
        None => None,
    }
}

/// Puts the routine that an instruction calls into a row, if it calls one.
fn note_call(row: &mut BitSet, routines: &[Routine], stmt: &Stmt)
    requires rising { IsStrictlyIncreasing (map address_of routines.now) }
    requires size { length row.old ≡ words_for routines.now }
    ensures size { length row.new ≡ length row.old }
    ensures has { (c : ℕ) → has row.new c ≡ (has row.old c || is_place (callee_of routines.now stmt.now.instr) c) }
{
    if let Some(callee) = callee_of(routines, &stmt.instr) {
        row.put(callee);
    }
}

/// The routines that a routine calls.
fn row_of(alloc: Global, routines: &[Routine], code: &[Stmt]) -> Result<BitSet, Memory>
    requires rising { IsStrictlyIncreasing (map address_of routines.now) }
    ensures size { IfOk result (λ row. length row ≡ words_for routines.now) }
    ensures has { IfOk result (λ row. (c : ℕ) → has row c ≡ calls_first routines.now code.now (length code.now) c) }
{
    let mut row = BitSet::new(alloc, routines.len() / 64 + 1)?;
    'places: for at in 0..code.len() {
        note_call(&mut row, routines, &code[at]);
    }
    Ok(row)
}

/// For each routine a row with the routines that it calls.
fn rows_of(alloc: Global, unit: &Unit) -> Result<Vec<BitSet>, Memory>
    ensures { IfOk result (λ rows. TellCalls unit.now (length unit.now.routines) rows.items) }
{
    let routines = unit.routines.as_slice();
    let mut rows = Vec::with_capacity(alloc, routines.len())?;
    'routines: for place in 0..routines.len() {
        let code = routines[place].code.as_slice();
        let row = row_of(alloc, routines, code)?;
        rows.push(row)?;
    }
    Ok(rows)
}

/// For each routine a row with the routines to which calls lead from it, in one call or more.
pub fn all_leads(alloc: Global, unit: &Unit) -> Result<Vec<BitSet>, Memory>
    ensures { IfOk result (λ rows. TellLeads unit.now rows.items) }
{
    let mut rows = rows_of(alloc, unit)?;
    close(&mut rows)?;
    Ok(rows)
}
