use sp_base::{Loc, Name};
use sp_logic::{Comparison, Quantifier, RegisterPair};

/// An operator between two parts of a condition.
#[derive(Clone, Copy, Debug, PartialEq, Eq)]
pub enum Infix {
    Iff,
    Implies,
    Or,
    And,
    Compare(Comparison),
    Add,
    /// `-` between two parts; before one it is a sign.
    Subtract,
    Multiply,
    Divide,
    Modulo,
}

/// `band`, `bor` and `bxor`.
#[derive(Clone, Copy, Debug, PartialEq, Eq)]
pub enum Bits {
    And,
    Or,
    Xor,
}

/// `addr` and `len`.
#[derive(Clone, Copy, Debug, PartialEq, Eq)]
pub enum Measure {
    Address,
    Length,
}

/// A word or symbol of a condition.
#[derive(Clone, Copy, Debug)]
pub enum Word {
    Number(u64),
    /// `true` or `false`.
    Constant(bool),
    /// A register or a flag.
    Location(Loc),
    Pair(RegisterPair),
    /// `STKk`.
    StackWord(u16),
    /// A name of the program's own, in upper case.
    Name(Name),
    Infix(Infix),
    Not,
    Mem,
    Total,
    Par,
    Bits(Bits),
    Measure(Measure),
    For,
    /// `all` or `some`.
    Quantifier(Quantifier),
    In,
    Open,
    Close,
    OpenBracket,
    CloseBracket,
    /// `~`.
    AtEntry,
    Comma,
    /// `..`.
    Range,
    Colon,
}
