ghost use Rattle.std.specs.Prelude.{◌≡◌};
ghost use Rattle.sp_lex.specs.Readers.{AreIn, IsIn, name_at};
ghost use Rattle.sp_note.specs.Words.{word_named, name_word, own_name, own_name_at, mark_word, long_word, symbol_word, word_of, words_of};
ghost use Rattle.sp_note.specs.code.Answers.{AnswersWords};

use crate::refusal::{LineRefusal, NoteKind};
use crate::word::{Bits, Infix, Measure, Word};
use sp_base::Name;
use sp_lex::{Token, TokenKind, name_at, text_of};
use sp_logic::{Comparison, Quantifier, RegisterPair};
use sp_words::{AnnotationWord, annotation_word_named, is_annotation_word, is_reserved};
use std::alloc::Global;

fn word_named(word: AnnotationWord) -> Word
    ensures { result ≡ word_named word }
{
    match word {
        AnnotationWord::Addr => Word::Measure(Measure::Address),
        AnnotationWord::All => Word::Quantifier(Quantifier::ForAll),
        AnnotationWord::And => Word::Infix(Infix::And),
        AnnotationWord::Band => Word::Bits(Bits::And),
        AnnotationWord::Bor => Word::Bits(Bits::Or),
        AnnotationWord::Bxor => Word::Bits(Bits::Xor),
        AnnotationWord::Div => Word::Infix(Infix::Divide),
        AnnotationWord::False => Word::Constant(false),
        AnnotationWord::For => Word::For,
        AnnotationWord::In => Word::In,
        AnnotationWord::Len => Word::Measure(Measure::Length),
        AnnotationWord::Mem => Word::Mem,
        AnnotationWord::Mod => Word::Infix(Infix::Modulo),
        AnnotationWord::Not => Word::Not,
        AnnotationWord::Or => Word::Infix(Infix::Or),
        AnnotationWord::Par => Word::Par,
        AnnotationWord::Some => Word::Quantifier(Quantifier::ForSome),
        AnnotationWord::Total => Word::Total,
        AnnotationWord::True => Word::Constant(true),
        AnnotationWord::Loc(location) => Word::Location(location),
        AnnotationWord::Bc => Word::Pair(RegisterPair::Bc),
        AnnotationWord::De => Word::Pair(RegisterPair::De),
        AnnotationWord::Hl => Word::Pair(RegisterPair::Hl),
        AnnotationWord::Slot(k) => Word::StackWord(k),
    }
}

/// A name, unless it is a word of annotations or of the assembler.
pub(crate) fn own_name(name: Name) -> Option<Name>
    ensures { result ≡ own_name name }
{
    if is_annotation_word(name.as_slice()) || is_reserved(name.as_slice()) {
        None
    } else {
        Some(name)
    }
}

/// The name of the program's own that a token is, in upper case.
#[tactic(auto, unfolding(crate::specs::Words::own_name_at))]
pub(crate) fn own_name_at(source: &[u8], token: Token) -> Option<Name>
    requires { IsIn source.now token }
    ensures { result ≡ own_name_at source.now token }
{
    let name = name_at(source, token)?;
    own_name(name)
}

/// The word that a name in upper case stands for.
fn name_word(name: Name) -> Option<Word>
    ensures { result ≡ name_word name }
{
    match annotation_word_named(name.as_slice()) {
        Some(word) => Some(word_named(word)),
        None => {
            if is_reserved(name.as_slice()) {
                None
            } else {
                Some(Word::Name(name))
            }
        }
    }
}

fn mark_word(mark: u8) -> Option<Word>
    ensures { result ≡ mark_word mark }
{
    match mark {
        b'(' => Some(Word::Open),
        b')' => Some(Word::Close),
        b'*' => Some(Word::Infix(Infix::Multiply)),
        b'+' => Some(Word::Infix(Infix::Add)),
        b',' => Some(Word::Comma),
        b'-' => Some(Word::Infix(Infix::Subtract)),
        b':' => Some(Word::Colon),
        b'<' => Some(Word::Infix(Infix::Compare(Comparison::Less))),
        b'=' => Some(Word::Infix(Infix::Compare(Comparison::Equal))),
        b'>' => Some(Word::Infix(Infix::Compare(Comparison::Greater))),
        b'[' => Some(Word::OpenBracket),
        b']' => Some(Word::CloseBracket),
        b'~' => Some(Word::AtEntry),
        _ => None,
    }
}

fn long_word(text: &[u8]) -> Option<Word>
    ensures { result ≡ long_word text.now }
{
    if text == b"<=".as_slice() {
        Some(Word::Infix(Infix::Compare(Comparison::LessOrEqual)))
    } else if text == b">=".as_slice() {
        Some(Word::Infix(Infix::Compare(Comparison::GreaterOrEqual)))
    } else if text == b"<>".as_slice() {
        Some(Word::Infix(Infix::Compare(Comparison::Unequal)))
    } else if text == b"->".as_slice() {
        Some(Word::Infix(Infix::Implies))
    } else if text == b"<->".as_slice() {
        Some(Word::Infix(Infix::Iff))
    } else if text == b"..".as_slice() {
        Some(Word::Range)
    } else {
        None
    }
}

fn symbol_word(text: &[u8]) -> Option<Word>
    ensures { result ≡ symbol_word text.now }
{
    match text {
        [mark] => mark_word(*mark),
        _ => long_word(text),
    }
}

/// The word that a token of this text stands for.
#[tactic(auto, unfolding(crate::specs::Words::word_of))]
fn word_of(kind: TokenKind, text: &[u8]) -> Option<Word>
    ensures { result ≡ word_of kind text.now }
{
    match kind {
        TokenKind::Number => match sp_lex::number(text) {
            Some(value) => Some(Word::Number(value)),
            None => None,
        },
        TokenKind::Text => None,
        TokenKind::Symbol => symbol_word(text),
        TokenKind::Name => match sp_lex::name(text) {
            Some(name) => name_word(name),
            None => None,
        },
    }
}

/// The words that tokens of a source stand for.
pub(crate) fn words_of(
    alloc: Global,
    source: &[u8],
    tokens: &[Token],
) -> Result<Vec<Word>, LineRefusal>
    requires { AreIn source.now tokens.now }
    ensures { AnswersWords result (words_of source.now tokens.now) }
{
    let mut words = Vec::with_capacity(alloc, tokens.len())?;
    for token in tokens {
        let text = text_of(source, *token);
        let Some(word) = word_of(token.kind, text) else {
            return Err(LineRefusal::Kind(NoteKind::Syntax));
        };
        words.push(word)?;
    }
    Ok(words)
}
