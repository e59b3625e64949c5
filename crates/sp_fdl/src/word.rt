ghost use Rattle.std.specs.Prelude.{◌≡◌};
ghost use Rattle.sp_fdl.specs.code.Names.{word_of};

/// A word that begins a term.
#[derive(Clone, Copy, Debug)]
pub enum Word {
    True,
    False,
    And,
    Or,
    Xor,
    Parity,
    Bit,
    Flags,
    If,
    Element,
    Update,
    Total,
    ForAll,
    ForSome,
}

/// The word that a run is, if it is one.
#[tactic(auto, unfolding(crate::specs::code::Names::word_of))]
pub(crate) fn word_of(run: &[u8]) -> Option<Word>
    ensures { result ≡ word_of run.now }
{
    if run == b"true".as_slice() {
        Some(Word::True)
    } else if run == b"false".as_slice() {
        Some(Word::False)
    } else if run == b"band".as_slice() {
        Some(Word::And)
    } else if run == b"bor".as_slice() {
        Some(Word::Or)
    } else if run == b"bxor".as_slice() {
        Some(Word::Xor)
    } else if run == b"par".as_slice() {
        Some(Word::Parity)
    } else if run == b"bit".as_slice() {
        Some(Word::Bit)
    } else if run == b"psw".as_slice() {
        Some(Word::Flags)
    } else if run == b"if".as_slice() {
        Some(Word::If)
    } else if run == b"element".as_slice() {
        Some(Word::Element)
    } else if run == b"update".as_slice() {
        Some(Word::Update)
    } else if run == b"total".as_slice() {
        Some(Word::Total)
    } else if run == b"for_all".as_slice() {
        Some(Word::ForAll)
    } else if run == b"for_some".as_slice() {
        Some(Word::ForSome)
    } else {
        None
    }
}

/// A function of two bytes, bit by bit.
#[derive(Clone, Copy, Debug)]
pub enum Pairing {
    And,
    Or,
    Xor,
}
