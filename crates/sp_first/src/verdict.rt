//! Whether a routine of the first form meets its annotations, and its image.
ghost use Rattle.std.specs.Prelude.{◌≡◌, ◌≤◌, ◌&&◌, Some, length, flat_map, map, IfOk, OnOk, Contains, IsTrue, ◌↔◌};
ghost use Rattle.std.specs.List.{list_all, enumerate_from};
ghost use Rattle.std.specs.FinMap as maps;
ghost use Rattle.sp_isa.specs.Code.{code};
ghost use Rattle.sp_first.specs.Program.{image_of, Meets};
ghost use Rattle.sp_first.specs.Reading.{meets, sets_listed};
ghost use Rattle.sp_first.specs.Source.{reading_of_source};

use crate::source::{Source, last_value};
use crate::transfer::Transfer;
use sp_base::{Image, Memory, Reg};
use std::alloc::{AllocError, Global};

/// Whether an instruction sets only a register of the list.
fn sets_listed_register(listed: &[Reg], transfer: Transfer) -> bool
    ensures { result ≡ sets_listed listed.now transfer }
{
    match transfer {
        Transfer::Mvi(to, _) | Transfer::Mov(to, _) => listed.contains(&to),
    }
}

fn all_set_listed(listed: &[Reg], transfers: &[Transfer]) -> bool
    ensures { result ≡ list_all (sets_listed listed.now) transfers.now }
{
    transfers
        .iter()
        .all(|transfer| sets_listed_register(listed, *transfer))
}

/// Whether the routine meets its annotations: the register of the postcondition has its value at last, and each
/// register that is set is listed.
pub fn is_met(source: &Source) -> bool
    ensures { result ≡ meets (reading_of_source source.now) }
{
    last_value(&source.program, source.post).map(u16::from) == Some(source.value)
        && all_set_listed(&source.changes, &source.program)
}
