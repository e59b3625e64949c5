ghost use Rattle.std.specs.Prelude.{◌≡◌, ◌↔◌, Some};
ghost use Rattle.sp_words.specs.code.Tables.{operator_named};
ghost use Rattle.sp_words.specs.Operators.{operator_name};

use crate::table::look_up;

/// An operator that is written as a word (8080 manual, "Arithmetic and logical expressions").
#[derive(Clone, Copy, Debug, PartialEq, Eq)]
pub enum NamedOperator {
    And,
    Mod,
    Not,
    Or,
    Shl,
    Shr,
    Xor,
}

/// The operators that are words, sorted.
pub const OPERATORS: [(&[u8], NamedOperator); 7] = [
    (b"AND", NamedOperator::And),
    (b"MOD", NamedOperator::Mod),
    (b"NOT", NamedOperator::Not),
    (b"OR", NamedOperator::Or),
    (b"SHL", NamedOperator::Shl),
    (b"SHR", NamedOperator::Shr),
    (b"XOR", NamedOperator::Xor),
];

/// The operator of a word in upper case, if it is one: `SHL` shifts to the left.
pub fn operator_named(word: &[u8]) -> Option<NamedOperator>
    ensures table { result ≡ operator_named word.now }
    ensures manual { (o : NamedOperator) → (result ≡ Some o) ↔ (word.now ≡ operator_name o) }
{
    look_up(&OPERATORS, word)
}
