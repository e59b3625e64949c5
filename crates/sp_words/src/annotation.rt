ghost use Rattle.std.specs.Prelude.{◌≡◌, ◌↔◌, Some, IsTrue};
ghost use Rattle.sp_words.specs.code.Tables.{annotation_word_named, is_annotation_word};
ghost use Rattle.sp_words.specs.Annotations.{IsWritten, annotation_name, IsAnnotationWord};

use crate::slot::slot_named;
use crate::table::look_up;
use sp_base::Loc;

/// A word of the conditions in annotations. Such a word is no name anywhere on an annotation line.
#[derive(Clone, Copy, Debug, PartialEq, Eq)]
pub enum AnnotationWord {
    Addr,
    All,
    And,
    Band,
    Bor,
    Bxor,
    Div,
    False,
    For,
    In,
    Len,
    Mem,
    Mod,
    Not,
    Or,
    Par,
    Some,
    Total,
    True,
    /// A register or flag.
    Loc(Loc),
    /// The register pair B and C.
    Bc,
    /// The register pair D and E.
    De,
    /// The register pair H and L.
    Hl,
    /// `STKk`, the word 2k bytes below the base of the stack, with k from 1 to 32,767.
    Slot(u16),
}

/// The words of annotations without a number, sorted.
pub const ANNOTATION_WORDS: [(&[u8], AnnotationWord); 34] = [
    (b"A", AnnotationWord::Loc(Loc::A)),
    (b"AC", AnnotationWord::Loc(Loc::Ac)),
    (b"ADDR", AnnotationWord::Addr),
    (b"ALL", AnnotationWord::All),
    (b"AND", AnnotationWord::And),
    (b"B", AnnotationWord::Loc(Loc::B)),
    (b"BAND", AnnotationWord::Band),
    (b"BC", AnnotationWord::Bc),
    (b"BOR", AnnotationWord::Bor),
    (b"BXOR", AnnotationWord::Bxor),
    (b"C", AnnotationWord::Loc(Loc::C)),
    (b"CY", AnnotationWord::Loc(Loc::Cy)),
    (b"D", AnnotationWord::Loc(Loc::D)),
    (b"DE", AnnotationWord::De),
    (b"DIV", AnnotationWord::Div),
    (b"E", AnnotationWord::Loc(Loc::E)),
    (b"FALSE", AnnotationWord::False),
    (b"FOR", AnnotationWord::For),
    (b"H", AnnotationWord::Loc(Loc::H)),
    (b"HL", AnnotationWord::Hl),
    (b"IN", AnnotationWord::In),
    (b"L", AnnotationWord::Loc(Loc::L)),
    (b"LEN", AnnotationWord::Len),
    (b"MEM", AnnotationWord::Mem),
    (b"MOD", AnnotationWord::Mod),
    (b"NOT", AnnotationWord::Not),
    (b"OR", AnnotationWord::Or),
    (b"P", AnnotationWord::Loc(Loc::P)),
    (b"PAR", AnnotationWord::Par),
    (b"S", AnnotationWord::Loc(Loc::S)),
    (b"SOME", AnnotationWord::Some),
    (b"TOTAL", AnnotationWord::Total),
    (b"TRUE", AnnotationWord::True),
    (b"Z", AnnotationWord::Loc(Loc::Z)),
];

/// A word of annotations, with a number or without.
#[tactic(auto, unfolding(crate::specs::code::Tables::annotation_word_named))]
fn meaning_of(word: &[u8]) -> Option<AnnotationWord>
    ensures { result ≡ annotation_word_named word.now }
{
    match look_up(&ANNOTATION_WORDS, word) {
        Some(found) => Some(found),
        None => match slot_named(word) {
            Some(number) => Some(AnnotationWord::Slot(number)),
            None => None,
        },
    }
}

/// The word of annotations that a word in upper case is, if it is one: `CY` is the carry flag and `STK1` the word that
/// was pushed first.
pub fn annotation_word_named(word: &[u8]) -> Option<AnnotationWord>
    ensures table { result ≡ annotation_word_named word.now }
    ensures own { (w : AnnotationWord) →
        (result ≡ Some w) ↔ (IsWritten w × (word.now ≡ annotation_name w)) }
{
    meaning_of(word)
}

/// Whether a word in upper case is one of annotations.
pub fn is_annotation_word(word: &[u8]) -> bool
    ensures table { result ≡ is_annotation_word word.now }
    ensures own { IsTrue result ↔ IsAnnotationWord word.now }
{
    meaning_of(word).is_some()
}
