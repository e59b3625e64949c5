use crate::operand::Operands;
use sp_base::{Line, Name, Seq};
use sp_isa::Instr;

/// What a statement is: an instruction or a directive.
#[derive(Clone, Copy, Debug)]
pub enum Code {
    /// A label alone.
    Nothing,
    /// An instruction. A byte, word or restart number in it is still 0: it is the statement's operand.
    Instr(Instr),
    /// DB or DW. Each operand is a text, a byte or a word.
    Data,
    /// DS: one word, the number of bytes left free.
    Space,
    /// ORG: one word, the address of what follows.
    Org,
    /// EQU: the name, and one word, its value.
    Equ(Name),
    /// SET: the name, and one word, its value from here on.
    Set(Name),
    /// END: no operand, or one word, whose value isn't used.
    End,
}

/// A statement with its line.
#[derive(Debug, Drop)]
pub struct Statement {
    pub line: Line,
    /// The name before a colon, in upper case.
    pub label: Option<Name>,
    pub code: Code,
    pub operands: Operands,
}

/// The statements of a source, by rising line.
pub type Statements = Seq<Statement>;
