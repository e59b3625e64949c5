use sp_base::Refused;

/// How a line is no statement.
#[derive(Clone, Copy, Debug, PartialEq, Eq)]
pub enum StatementKind {
    /// The line isn't in the grammar, even without its limit on nesting.
    Syntax,
    /// More than 64 parentheses and NOTs are nested in an expression.
    TooDeep,
}

/// Why lines have no statements, with the lowest line that is none.
pub type StatementRefusal = Refused<StatementKind>;
