ghost use Rattle.std.specs.Prelude.{◌≡◌};
ghost use Rattle.sp_flow.specs.code.Counts.{told};
ghost use Rattle.sp_flow.specs.declared.refusal.FlowKind.TheVariants as kind;
ghost use Rattle.sp_flow.specs.declared.refusal.Spot.TheVariants as spot;

use crate::{FlowKind, Spot};
use sp_base::Loc;

/// The kind of a location that is used.
pub fn uses_loc(x: Option<Loc>) -> Option<FlowKind>
    ensures { result ≡ told (λ y. kind.Uses (spot.Loc y)) x }
{
    match x {
        Some(x) => Some(FlowKind::Uses(Spot::Loc(x))),
        None => None,
    }
}

/// The kind of a cell that is read.
pub fn uses_cell(cell: Option<u16>) -> Option<FlowKind>
    ensures { result ≡ told (λ n. kind.Uses (spot.Cell n)) cell }
{
    match cell {
        Some(cell) => Some(FlowKind::Uses(Spot::Cell(cell))),
        None => None,
    }
}

/// The kind of a cell that is changed.
pub fn writes_cell(cell: Option<u16>) -> Option<FlowKind>
    ensures { result ≡ told (λ n. kind.Writes n) cell }
{
    match cell {
        Some(cell) => Some(FlowKind::Writes(cell)),
        None => None,
    }
}

/// The kind of a port.
pub fn uses_port(port: Option<u8>) -> Option<FlowKind>
    ensures { result ≡ told (λ n. kind.Port n) port }
{
    match port {
        Some(port) => Some(FlowKind::Port(port)),
        None => None,
    }
}

/// The kind of a location that a callee reads.
pub fn calls_loc(x: Option<Loc>) -> Option<FlowKind>
    ensures { result ≡ told (λ y. kind.CallsReads (spot.Loc y)) x }
{
    match x {
        Some(x) => Some(FlowKind::CallsReads(Spot::Loc(x))),
        None => None,
    }
}

/// The kind of a cell that a callee reads.
pub fn calls_cell(cell: Option<u16>) -> Option<FlowKind>
    ensures { result ≡ told (λ n. kind.CallsReads (spot.Cell n)) cell }
{
    match cell {
        Some(cell) => Some(FlowKind::CallsReads(Spot::Cell(cell))),
        None => None,
    }
}
