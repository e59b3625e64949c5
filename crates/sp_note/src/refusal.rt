ghost use Rattle.std.specs.Prelude.{◌≡◌};
ghost use Rattle.sp_note.specs.declared.refusal.LineRefusal.TheVariants as line;

use sp_base::{Memory as OutOfMemory, Refused};
use sp_expr::ParseRefusal;
use std::alloc::{AllocError, AllocFailed};

/// How an annotation line breaks the grammar. Of several ways in which one line does the first of this order counts.
#[derive(Clone, Copy, Debug, PartialEq, Eq)]
pub enum NoteKind {
    /// The line isn't in the grammar, even without its limit on nesting.
    Syntax,
    /// More than 64 constructs are nested.
    TooDeep,
    /// A truth value stands in a number's place, or a number in that of a truth value.
    Sort,
    /// The numbers of a part may reach 2 to the power 100.
    Wide,
}

/// Why a source has no annotations, with the lowest line that breaks the grammar.
pub type NoteRefusal = Refused<NoteKind>;

/// Why one line has no part: how it breaks the grammar, or want of memory.
#[derive(Clone, Copy, Debug)]
pub(crate) enum LineRefusal {
    Kind(NoteKind),
    Memory,
}

impl From<OutOfMemory> for LineRefusal {
    ghost from_gives = { λ _ e. e ≡ line.Memory };

    fn from(_: OutOfMemory) -> LineRefusal {
        LineRefusal::Memory
    }
}

impl From<AllocError> for LineRefusal {
    ghost from_gives = { λ _ e. e ≡ line.Memory };

    fn from(_: AllocError) -> LineRefusal {
        LineRefusal::Memory
    }
}

impl<T: Drop> From<AllocFailed<T>> for LineRefusal {
    ghost from_gives = { λ _ e. e ≡ line.Memory };

    fn from(_: AllocFailed<T>) -> LineRefusal {
        LineRefusal::Memory
    }
}

impl From<ParseRefusal> for LineRefusal {
    ghost use Rattle.sp_note.specs.code.Answers.{refusal_of};

    ghost from_gives = { λ low high. high ≡ refusal_of low };

    fn from(refusal: ParseRefusal) -> LineRefusal {
        match refusal {
            ParseRefusal::Syntax => LineRefusal::Kind(NoteKind::Syntax),
            ParseRefusal::TooDeep => LineRefusal::Kind(NoteKind::TooDeep),
            ParseRefusal::Memory => LineRefusal::Memory,
        }
    }
}
