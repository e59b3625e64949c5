//! From the program counter to what is asserted there.
ghost use Rattle.std.specs.Prelude.{◌≡◌, ◌<◌, IfOk};
ghost use Rattle.sp_trial.specs.Setup.{asserted_at};
ghost use Rattle.sp_trial.specs.code.Tables.{IsTable};

use sp_base::Memory;
use sp_prog::{Noted, Stmt};
use std::alloc::Global;

/// The table of the places of instructions by their addresses.
pub fn table_of(alloc: Global, code: &[Stmt]) -> Result<Vec<usize>, Memory>
    ensures { IfOk result (λ table. IsTable code.now code.now table.items) }
{
    let mut table = vec![in alloc; 0usize; 65_536]?;
    let mut place = code.len();
    while place > 0 {
        let last = place - 1;
        let stmt = &code[last];
        table[stmt.addr as usize] = place;
        place = last;
    }
    Ok(table)
}

/// What is asserted at an address.
pub fn asserted_at<'a>(code: &'a [Stmt], table: &[usize], address: u16) -> &'a [Noted]
    requires { IsTable code.now code.now table.now }
    ensures { result.now ≡ asserted_at code.now address }
{
    let place = table[address as usize];
    if place == 0 {
        return &[];
    }
    match code.get(place - 1) {
        Some(stmt) => stmt.asserts.as_slice(),
        None => &[],
    }
}
