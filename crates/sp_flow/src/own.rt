ghost use Rattle.std.specs.Prelude.{◌≡◌, ◌⊎◌, Contains, Some};
ghost use Rattle.sp_flow.specs.Flow.{cells_read, cells_written, ports_in, ports_out};
ghost use Rattle.sp_flow.specs.code.Least.{HasEither, IsLeast};

use crate::direct::{cell_read, cell_written, lower_free, port_in, port_out};
use crate::ports::lower_unless;
use sp_isa::Instr;
use sp_prog::Area;

/// The lower of a cell that may be, if it is in no area of two lists, and the lowest so far.
fn lower_maybe(
    areas: &[Area],
    one: &[usize],
    other: &[usize],
    best: Option<u16>,
    cell: Option<u16>,
) -> Option<u16>
    ensures { IsLeast (λ n. (best ≡ Some n) ⊎ ((cell ≡ Some n) × (HasEither areas.now one.now other.now n → ⊥))) result }
{
    match cell {
        Some(cell) => lower_free(areas, one, other, best, cell),
        None => best,
    }
}

/// The lowest cell of LDA or LHLD that is in no area of two lists.
pub fn lowest_read(areas: &[Area], one: &[usize], other: &[usize], instr: &Instr) -> Option<u16>
    ensures { IsLeast (λ n. Contains (cells_read instr.now) n × (HasEither areas.now one.now other.now n → ⊥)) result }
{
    let low = cell_read(instr, 0);
    let high = cell_read(instr, 1);
    let first = lower_maybe(areas, one, other, None, low);
    let both = lower_maybe(areas, one, other, first, high);
    both
}

/// The lowest cell of STA or SHLD that is in no area of a list.
pub fn lowest_written(areas: &[Area], own: &[usize], instr: &Instr) -> Option<u16>
    ensures { IsLeast (λ n. Contains (cells_written instr.now) n × (HasEither areas.now own.now own.now n → ⊥)) result }
{
    let low = cell_written(instr, 0);
    let high = cell_written(instr, 1);
    let first = lower_maybe(areas, own, own, None, low);
    let both = lower_maybe(areas, own, own, first, high);
    both
}

/// A port that may be, unless it is in a list.
fn unless_listed(own: &[u8], port: Option<u8>) -> Option<u8>
    ensures { IsLeast (λ n. (port ≡ Some n) × (Contains own.now n → ⊥)) result }
{
    match port {
        Some(port) => lower_unless(None, own, port),
        None => None,
    }
}

/// The port of IN, unless it is in a list.
pub fn taken_port(own: &[u8], instr: &Instr) -> Option<u8>
    ensures { IsLeast (λ n. Contains (ports_in instr.now) n × (Contains own.now n → ⊥)) result }
{
    let port = port_in(instr);
    let left = unless_listed(own, port);
    left
}

/// The port of OUT, unless it is in a list.
pub fn put_port(own: &[u8], instr: &Instr) -> Option<u8>
    ensures { IsLeast (λ n. Contains (ports_out instr.now) n × (Contains own.now n → ⊥)) result }
{
    let port = port_out(instr);
    let left = unless_listed(own, port);
    left
}
