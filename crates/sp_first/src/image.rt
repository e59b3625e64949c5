//! The image of a program.
ghost use Rattle.std.specs.Prelude.{◌≡◌, ◌<◌, ◌≤◌, ◌++◌, ◌∷◌, [], length, flat_map, IfOk, OnOk};
ghost use Rattle.std.specs.List.{enumerate_from};
ghost use Rattle.std.specs.FinMap as maps;
ghost use Rattle.sp_isa.specs.Code.{code};
ghost use Rattle.sp_first.specs.Program.{instrs_of};

use crate::transfer::Transfer;
use sp_base::{Image, Memory};
use sp_isa::{Instr, encode};
use std::alloc::{AllocError, Global};

/// The codes of the instructions and of RET behind them.
fn codes_of(alloc: Global, transfers: &[Transfer]) -> Result<Vec<u8>, AllocError>
    ensures { IfOk result (λ bytes. bytes.items ≡ flat_map code (instrs_of transfers.now)) }
{
    let mut bytes = Vec::new(alloc);
    for transfer in transfers {
        bytes.extend_from_slice(&encode(alloc, &transfer.instr()))?;
    }
    bytes.extend_from_slice(&encode(alloc, &Instr::Ret))?;
    Ok(bytes)
}

/// The bytes at the addresses from 0 on.
fn placed(alloc: Global, bytes: &[u8]) -> Result<Image, Memory>
    requires { length bytes.now ≤ 65536 }
    ensures { IfOk result (λ image. image ≡ maps.from_entries (enumerate_from 0 bytes.now)) }
{
    let mut image = Image::new(alloc);
    for n in 0..bytes.len() {
        image.set(n as u16, bytes[n])?;
    }
    Ok(image)
}

/// The image of a program of at most 16 instructions and RET, from address 0 on.
pub fn image_of(alloc: Global, transfers: &[Transfer]) -> Result<Image, Memory>
    requires { length transfers.now ≤ 16 }
    ensures { IfOk result (λ image. image ≡ maps.from_entries (enumerate_from 0 (flat_map code (instrs_of transfers.now)))) }
{
    let bytes = codes_of(alloc, transfers)?;
    placed(alloc, &bytes)
}
