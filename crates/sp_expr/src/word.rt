use sp_base::Name;

/// An operator between two operands.
#[derive(Clone, Copy, Debug, PartialEq, Eq)]
pub enum Operator {
    Times,
    Divide,
    Modulo,
    ShiftLeft,
    ShiftRight,
    Plus,
    Minus,
    And,
    Or,
    Xor,
}

/// A word of an expression.
#[derive(Clone, Copy, Debug)]
pub enum Word {
    /// A number, or the code of a single character in quotes.
    Number(u16),
    /// A name in upper case.
    Name(Name),
    /// `$`, the address of the statement.
    Here,
    /// An operator between two operands, or the sign before one.
    Operator(Operator),
    Not,
    Open,
    Close,
}
