use crate::note::{Comparison, Connective, Moment, Operator, Quantifier, RegisterPair};
use sp_base::{Loc, Name};

/// An annotation as its line has it, with names in place of addresses. Numbers and truth values stand in one tree, since
/// whether each is in its place is looked at once the line is read.
#[derive(Debug, Drop)]
pub enum RawNote {
    /// A number from 0 to 9,223,372,036,854,775,807.
    Literal(u64),
    /// `true` or `false`.
    Constant(bool),
    /// A register or a flag, as `A` or `CY~`.
    Location(Moment, Loc),
    /// A register pair, as `HL` or `BC~`.
    Pair(Moment, RegisterPair),
    /// A cell of memory, as `mem[x]` or `mem~[x]`.
    Cell(Moment, Box<RawNote>),
    /// `STKk`, k from 1 to 32,767.
    StackWord(u16),
    /// The sum of the cells from one address to another, as `total(x, y)` or `total~(x, y)`.
    Total(Moment, Box<RawNote>, Box<RawNote>),
    /// A bound name, a name of an area or a name of the assembler, as `CNT` or `CNT~`.
    Named(Moment, Name),
    /// A cell of an area, as `BUF[x]` or `BUF~[x]`.
    Element(Moment, Name, Box<RawNote>),
    /// `addr(NAME)`.
    Address(Name),
    /// `len(NAME)`.
    Length(Name),
    /// `-x`.
    Negative(Box<RawNote>),
    /// `par(x)`.
    Parity(Box<RawNote>),
    /// Two parts with an operator, as `x + y` or `band(x, y)`.
    Operate(Operator, Box<RawNote>, Box<RawNote>),
    /// A comparison, as `x <= y`.
    Compare(Comparison, Box<RawNote>, Box<RawNote>),
    /// `not p`.
    Not(Box<RawNote>),
    /// Two parts with a connective, as `p -> q`.
    Connect(Connective, Box<RawNote>, Box<RawNote>),
    /// `for all I in x..y: p` or `for some I in x..y: p`.
    Quantify(Quantifier, Name, Box<RawNote>, Box<RawNote>, Box<RawNote>),
}
