use sp_base::{Loc, Refused};

/// A location or a cell of memory.
#[derive(Clone, Copy, Debug, PartialEq, Eq)]
pub enum Spot {
    Loc(Loc),
    Cell(u16),
}

/// How an instruction breaks a rule on flow. The kinds count in this order over the whole unit, each at its lowest line,
/// and there with its first location, lowest cell or lowest port. A location stands before a cell.
#[derive(Clone, Copy, Debug, PartialEq, Eq)]
pub enum FlowKind {
    /// It uses a location that some walk leaves unset, or a cell of no listed area.
    Uses(Spot),
    /// It or its callee changes a cell of no area that the routine changes.
    Writes(u16),
    /// It or its callee takes from or puts to a port that the routine doesn't list.
    Port(u8),
    /// Its callee reads a location that some walk leaves unset, or a cell of no listed area.
    CallsReads(Spot),
}

/// Why the flow of a unit isn't right: the first rule that is broken, at its lowest line, or want of memory.
pub type FlowRefusal = Refused<FlowKind>;
