ghost use Rattle.std.specs.Prelude.{◌≡◌, ◌⊎◌, ◌↔◌, IsTrue, Some};
ghost use Rattle.sp_base.specs.Locs.{place};
ghost use Rattle.sp_flow.specs.Flow.{rank, number, detail};
ghost use Rattle.sp_flow.specs.code.Faults.{Before, IsFirst};
ghost use Rattle.sp_flow.specs.declared.fault.Fault.{Fault};

use crate::{FlowKind, Spot};
use sp_base::{Line, Loc};

/// A broken rule with its line.
#[derive(Clone, Copy, Debug)]
pub struct Fault {
    pub line: Line,
    pub kind: FlowKind,
}

/// The place of a location in their order.
fn place(x: Loc) -> u32
    ensures { result ≡ place x }
{
    match x {
        Loc::A => 0,
        Loc::B => 1,
        Loc::C => 2,
        Loc::D => 3,
        Loc::E => 4,
        Loc::H => 5,
        Loc::L => 6,
        Loc::S => 7,
        Loc::Z => 8,
        Loc::Ac => 9,
        Loc::P => 10,
        Loc::Cy => 11,
    }
}

/// The order on one line of locations and cells.
fn number(spot: Spot) -> u32
    ensures { result ≡ number spot }
{
    match spot {
        Spot::Loc(x) => place(x),
        Spot::Cell(cell) => 12 + u32::from(cell),
    }
}

/// The order of kinds.
fn rank(kind: FlowKind) -> u32
    ensures { result ≡ rank kind }
{
    match kind {
        FlowKind::Uses(_) => 0,
        FlowKind::Writes(_) => 1,
        FlowKind::Port(_) => 2,
        FlowKind::CallsReads(_) => 3,
    }
}

/// The order on one line within a kind.
fn detail(kind: FlowKind) -> u32
    ensures { result ≡ detail kind }
{
    match kind {
        FlowKind::Uses(spot) => number(spot),
        FlowKind::Writes(cell) => u32::from(cell),
        FlowKind::Port(port) => u32::from(port),
        FlowKind::CallsReads(spot) => number(spot),
    }
}

/// Whether a broken rule counts before another.
fn comes_before(one: Fault, other: Fault) -> bool
    ensures { IsTrue result ↔ Before one other }
{
    let (low, high) = (rank(one.kind), rank(other.kind));
    low < high
        || (low == high
            && (one.line.0 < other.line.0
                || (one.line.0 == other.line.0 && detail(one.kind) < detail(other.kind))))
}

/// The first of a broken rule and the first so far.
pub fn first(best: Option<Fault>, fault: Fault) -> Option<Fault>
    ensures { IsFirst (λ f. (best ≡ Some f) ⊎ (f ≡ fault)) result }
{
    match best {
        Some(found) => {
            if comes_before(fault, found) {
                Some(fault)
            } else {
                Some(found)
            }
        }
        None => Some(fault),
    }
}

/// The first of a broken rule on a line, if there is one, and the first so far.
pub fn with_kind(best: Option<Fault>, line: Line, kind: Option<FlowKind>) -> Option<Fault>
    ensures { IsFirst (λ f. (best ≡ Some f) ⊎ ((f.line ≡ line) × (kind ≡ Some f.kind))) result }
{
    match kind {
        Some(kind) => first(best, Fault { line, kind }),
        None => best,
    }
}
