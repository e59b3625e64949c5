use sp_base::Refused;
use sp_stmt::StatementKind;

/// How a line breaks the rules of the assembler. Syntax and TooDeep of all lines come before the next five of any, and these
/// before Later, Undefined, ZeroDivisor, Range and Overlap of instructions, DB, DW and END; on one line the first counts.
#[derive(Clone, Copy, Debug, PartialEq, Eq)]
pub enum AsmKind {
    /// The statement isn't in the grammar.
    Syntax,
    /// More than 64 parentheses and NOTs are nested.
    TooDeep,
    /// A name is defined twice, other than by SET alone.
    Duplicate,
    /// A name that is defined, but not above, where only names above may be used; or a name of SET above its first SET.
    Later,
    /// A name that isn't defined.
    Undefined,
    /// A division or MOD by zero.
    ZeroDivisor,
    /// A value outside its range: a byte is 0 to 255 or FF00H to FFFFH, the number of RST 0 to 7.
    Range,
    /// A byte or a label at, or a DS that passes, an address over 65,535.
    PastEnd,
    /// A byte at an address that has one.
    Overlap,
}

impl From<StatementKind> for AsmKind {
    ghost use Rattle.std.specs.Prelude.{◌≡◌};
    ghost use Rattle.sp_asm.specs.code.Kinds.{kind_of};

    ghost from_gives = { λ low high. high ≡ kind_of low };

    fn from(kind: StatementKind) -> AsmKind {
        match kind {
            StatementKind::Syntax => AsmKind::Syntax,
            StatementKind::TooDeep => AsmKind::TooDeep,
        }
    }
}

/// Why a source isn't assembled, with the lowest line that refuses it.
pub type AsmRefusal = Refused<AsmKind>;
