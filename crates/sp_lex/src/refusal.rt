ghost use Rattle.std.specs.Prelude.{◌≡◌};
ghost use Rattle.sp_lex.specs.code.Pieces.{first_fault};

use sp_base::Refused;

/// How a line breaks the rules on lines and tokens. Of several faults of one line the first of this order counts.
#[derive(Clone, Copy, Debug, PartialEq, Eq)]
pub enum TextKind {
    /// More than 4,096 bytes without the line's end.
    LongLine,
    /// A byte that starts no token, a control character, a byte past 126 outside comments, or a name that is too long.
    BadByte,
    /// A quote that isn't closed on its line.
    OpenQuote,
    /// A digit outside the base, or a value that is too large.
    BadNumber,
}

/// Why a source has no lines: its lowest line that breaks a rule, with how it does, or want of memory.
pub type LexRefusal = Refused<TextKind>;

/// The one of two faults of a line that counts.
pub(crate) fn first_fault(one: Option<TextKind>, other: Option<TextKind>) -> Option<TextKind>
    ensures { result ≡ first_fault one other }
{
    match (one, other) {
        (None, fault) => fault,
        (Some(fault), None) => Some(fault),
        (Some(fault), Some(other)) => {
            if fault as u8 <= other as u8 {
                Some(fault)
            } else {
                Some(other)
            }
        }
    }
}
