ghost use Rattle.std.specs.Prelude.{◌≡◌, ◌<◌, ℕ, length, map};
ghost use Rattle.std.specs.List.Sorted.{IsStrictlyIncreasing};
ghost use Rattle.sp_graph.specs.Successors.{place_of, routine_at, next_of};
ghost use Rattle.sp_prog.specs.Rules.{AreLaidOut, address_of, first_address};

use sp_prog::{Routine, Stmt};

/// The place of the instruction at an address.
pub fn place_of(code: &[Stmt], address: u16) -> Option<usize>
    requires { AreLaidOut (first_address code.now) code.now }
    ensures { result ≡ place_of code.now address }
{
    match code.binary_search_by_key(&address, |stmt| stmt.addr) {
        Ok(place) => Some(place),
        Err(_) => None,
    }
}

/// The address of a routine's first instruction, 0 where it has none.
fn address_of(routine: &Routine) -> u16
    ensures { result ≡ address_of routine.now }
{
    match routine.code.as_slice().first() {
        Some(stmt) => stmt.addr,
        None => 0,
    }
}

/// The place of the routine that begins at an address.
pub fn routine_at(routines: &[Routine], address: u16) -> Option<usize>
    requires { IsStrictlyIncreasing (map address_of routines.now) }
    ensures { result ≡ routine_at routines.now address }
{
    match routines.binary_search_by_key(&address, |routine| address_of(routine)) {
        Ok(place) => Some(place),
        Err(_) => None,
    }
}

/// The place after this one, where there is an instruction.
pub fn next_of(code: &[Stmt], at: usize) -> Option<usize>
    requires { at < length code.now }
    ensures { result ≡ next_of code.now at }
{
    if at + 1 < code.len() {
        Some(at + 1)
    } else {
        None
    }
}
