ghost use Rattle.std.specs.Prelude.{◌≡◌, ◌<◌, ◌⊎◌, ℕ, Contains, Some, slice_get};
ghost use Rattle.sp_flow.specs.Flow.{cells_read, cells_written, ports_in, ports_out};
ghost use Rattle.sp_flow.specs.code.Least.{HasEither, IsFree, IsLeast};

use crate::cells::covered_by;
use sp_isa::Instr;
use sp_prog::Area;

/// The cells that an instruction reads by their addresses: the first one, or the second one.
pub fn cell_read(instr: &Instr, at: usize) -> Option<u16>
    requires { at < 2 }
    ensures { result ≡ slice_get (cells_read instr.now) at }
{
    match *instr {
        Instr::Lda(a) => { if at == 0 { Some(a) } else { None } }
        Instr::Lhld(a) => {
            if at == 0 {
                Some(a)
            } else {
                Some(a.wrapping_add(1))
            }
        }
        _ => None,
    }
}

/// The cells that an instruction writes by their addresses: the first one, or the second one.
pub fn cell_written(instr: &Instr, at: usize) -> Option<u16>
    requires { at < 2 }
    ensures { result ≡ slice_get (cells_written instr.now) at }
{
    match *instr {
        Instr::Sta(a) => { if at == 0 { Some(a) } else { None } }
        Instr::Shld(a) => {
            if at == 0 {
                Some(a)
            } else {
                Some(a.wrapping_add(1))
            }
        }
        _ => None,
    }
}

/// The port of IN.
pub fn port_in(instr: &Instr) -> Option<u8>
    ensures { result ≡ slice_get (ports_in instr.now) 0 }
{
    match *instr {
        Instr::In(port) => Some(port),
        _ => None,
    }
}

/// The port of OUT.
pub fn port_out(instr: &Instr) -> Option<u8>
    ensures { result ≡ slice_get (ports_out instr.now) 0 }
{
    match *instr {
        Instr::Out(port) => Some(port),
        _ => None,
    }
}

/// Whether a cell is in no area of two lists.
fn is_free(areas: &[Area], one: &[usize], other: &[usize], cell: u16) -> bool
    ensures { IsFree (HasEither areas.now one.now other.now cell) result }
{
    match covered_by(areas, one, other, u32::from(cell)) {
        Some(_) => false,
        None => true,
    }
}

/// The lower of a cell and the lowest so far.
pub fn lower(best: Option<u16>, cell: u16) -> Option<u16>
    ensures { IsLeast (λ n. (best ≡ Some n) ⊎ (n ≡ cell)) result }
{
    match best {
        Some(found) => {
            if cell < found {
                Some(cell)
            } else {
                Some(found)
            }
        }
        None => Some(cell),
    }
}

/// The lower of a cell, if it is in no area of two lists, and the lowest so far.
pub fn lower_free(
    areas: &[Area],
    one: &[usize],
    other: &[usize],
    best: Option<u16>,
    cell: u16,
) -> Option<u16>
    ensures { IsLeast (λ n. (best ≡ Some n) ⊎ ((n ≡ cell) × (HasEither areas.now one.now other.now n → ⊥))) result }
{
    if is_free(areas, one, other, cell) {
        lower(best, cell)
    } else {
        best
    }
}
