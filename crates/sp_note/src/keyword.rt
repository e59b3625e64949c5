//! The words with which annotation lines begin.
ghost use Rattle.std.specs.Prelude.{◌≡◌};
ghost use Rattle.sp_note.specs.code.Lines.{keyword_named};

/// What an annotation line begins with.
#[derive(Clone, Copy, Debug, PartialEq, Eq)]
pub enum Keyword {
    Stack,
    Byte,
    Word,
    Bytes,
    Routine,
    Start,
    Pre,
    Post,
    Reads,
    Changes,
    Ins,
    Outs,
    Depth,
    Assert,
    End,
}

/// The keyword that a word in upper case is.
#[tactic(auto, unfolding(crate::specs::code::Lines::keyword_named))]
pub(crate) fn keyword_named(word: &[u8]) -> Option<Keyword>
    ensures { result ≡ keyword_named word.now }
{
    if word == b"STACK".as_slice() {
        Some(Keyword::Stack)
    } else if word == b"BYTE".as_slice() {
        Some(Keyword::Byte)
    } else if word == b"WORD".as_slice() {
        Some(Keyword::Word)
    } else if word == b"BYTES".as_slice() {
        Some(Keyword::Bytes)
    } else if word == b"ROUTINE".as_slice() {
        Some(Keyword::Routine)
    } else if word == b"START".as_slice() {
        Some(Keyword::Start)
    } else if word == b"PRE".as_slice() {
        Some(Keyword::Pre)
    } else if word == b"POST".as_slice() {
        Some(Keyword::Post)
    } else if word == b"READS".as_slice() {
        Some(Keyword::Reads)
    } else if word == b"CHANGES".as_slice() {
        Some(Keyword::Changes)
    } else if word == b"INS".as_slice() {
        Some(Keyword::Ins)
    } else if word == b"OUTS".as_slice() {
        Some(Keyword::Outs)
    } else if word == b"DEPTH".as_slice() {
        Some(Keyword::Depth)
    } else if word == b"ASSERT".as_slice() {
        Some(Keyword::Assert)
    } else if word == b"END".as_slice() {
        Some(Keyword::End)
    } else {
        None
    }
}
