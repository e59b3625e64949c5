//! Words of the stack in annotations.
ghost use Rattle.std.specs.Prelude.{◌≡◌};
ghost use Rattle.sp_note.specs.RawNotes.{raw_of};
ghost use Rattle.sp_unit.specs.Words.{has_word};

use sp_logic::RawNote;

/// Whether a word of the stack stands in an annotation.
pub(crate) fn has_word(raw: &RawNote) -> bool
    ensures { result ≡ has_word (raw_of raw.now) }
{
    match raw {
        RawNote::StackWord(_) => true,
        RawNote::Cell(_, x) => has_word(x),
        RawNote::Element(_, _, x) => has_word(x),
        RawNote::Negative(x) => has_word(x),
        RawNote::Parity(x) => has_word(x),
        RawNote::Not(x) => has_word(x),
        RawNote::Total(_, x, y) => has_word(x) || has_word(y),
        RawNote::Operate(_, x, y) => has_word(x) || has_word(y),
        RawNote::Compare(_, x, y) => has_word(x) || has_word(y),
        RawNote::Connect(_, x, y) => has_word(x) || has_word(y),
        RawNote::Quantify(_, _, x, y, p) => has_word(x) || has_word(y) || has_word(p),
        _ => false,
    }
}
