use sp_base::Refused;

/// How a line breaks the rules of units. Of several ways in which one line does the first of this order counts.
#[derive(Clone, Copy, Debug, PartialEq, Eq)]
pub enum UnitKind {
    /// There is no `stack` line. It stands at line 0.
    NoStack,
    /// A line that doesn't belong where it stands: a second `stack`, a second `start` or `depth` of a header, a line of a
    /// header outside one, `assert` or `end` outside a routine, a `routine` inside one or without an `end` below it, an
    /// `assert` without an instruction of its routine after it.
    Stray,
    /// A name without meaning, a zero divisor, or a routine whose name isn't a label at its first instruction.
    Unknown,
    /// A stack region, an area or a port outside its range, a stack region or an area that meets what it mustn't, or a
    /// name that is declared twice.
    Clash,
    /// An instruction outside a routine.
    OutsideRoutine,
    /// DB, DW, DS or ORG inside a routine; `STKk` at entry or return; what is said of a start routine's return, or asserted
    /// at its first instruction.
    NotHere,
    /// The 1,025th routine or area, the 65th `pre` or `post` of a routine, the 65th `assert` at one instruction.
    TooMany,
}

/// Why a source has no unit, with the lowest line that breaks a rule.
pub type UnitRefusal = Refused<UnitKind>;
