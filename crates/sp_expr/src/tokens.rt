ghost use Rattle.std.specs.Prelude.{◌≡◌, IfOk};
ghost use Rattle.sp_expr.specs.Words.{operator_word, name_word, symbol_word, character_word, word_of, words_of};
ghost use Rattle.sp_lex.specs.Readers.{AreIn};
ghost use Rattle.sp_expr.specs.code.Parsing.{AnswersWords};

use crate::refusal::ParseRefusal;
use crate::word::{Operator, Word};
use sp_base::{Memory, Name};
use sp_lex::{Token, TokenKind, text_of};
use sp_words::{NamedOperator, is_reserved, operator_named};
use std::alloc::Global;

fn operator_word(operator: NamedOperator) -> Word
    ensures { result ≡ operator_word operator }
{
    match operator {
        NamedOperator::Mod => Word::Operator(Operator::Modulo),
        NamedOperator::Shl => Word::Operator(Operator::ShiftLeft),
        NamedOperator::Shr => Word::Operator(Operator::ShiftRight),
        NamedOperator::Not => Word::Not,
        NamedOperator::And => Word::Operator(Operator::And),
        NamedOperator::Or => Word::Operator(Operator::Or),
        NamedOperator::Xor => Word::Operator(Operator::Xor),
    }
}

/// The word that a name in upper case stands for, unless it is reserved for something else.
fn name_word(name: Name) -> Option<Word>
    ensures { result ≡ name_word name }
{
    let text = name.as_slice();
    if let Some(operator) = operator_named(text) {
        return Some(operator_word(operator));
    }
    if is_reserved(text) {
        None
    } else {
        Some(Word::Name(name))
    }
}

#[tactic(auto, unfolding(crate::specs::Words::symbol_word))]
fn symbol_word(text: &[u8]) -> Option<Word>
    ensures { result ≡ symbol_word text.now }
{
    if text == b"$".as_slice() {
        Some(Word::Here)
    } else if text == b"(".as_slice() {
        Some(Word::Open)
    } else if text == b")".as_slice() {
        Some(Word::Close)
    } else if text == b"+".as_slice() {
        Some(Word::Operator(Operator::Plus))
    } else if text == b"-".as_slice() {
        Some(Word::Operator(Operator::Minus))
    } else if text == b"*".as_slice() {
        Some(Word::Operator(Operator::Times))
    } else if text == b"/".as_slice() {
        Some(Word::Operator(Operator::Divide))
    } else {
        None
    }
}

fn character_word(characters: &[u8]) -> Option<Word>
    ensures { result ≡ character_word characters.now }
{
    match characters {
        [character] => Some(Word::Number(u16::from(*character))),
        _ => None,
    }
}

/// The word that a token of this text stands for.
#[tactic(auto, unfolding(crate::specs::Words::word_of))]
fn word_of(alloc: Global, kind: TokenKind, text: &[u8]) -> Result<Option<Word>, Memory>
    ensures { IfOk result (λ word. word ≡ word_of kind text.now) }
{
    match kind {
        TokenKind::Number => match sp_lex::number(text) {
            Some(value) => Ok(Some(Word::Number((value % 65_536) as u16))),
            None => Ok(None),
        },
        TokenKind::Text => {
            let characters = sp_lex::characters(alloc, text)?;
            Ok(character_word(characters.as_slice()))
        }
        TokenKind::Symbol => Ok(symbol_word(text)),
        TokenKind::Name => match sp_lex::name(text) {
            Some(name) => Ok(name_word(name)),
            None => Ok(None),
        },
    }
}

/// The words that tokens of a source stand for.
pub(crate) fn words_of(
    alloc: Global,
    source: &[u8],
    tokens: &[Token],
) -> Result<Vec<Word>, ParseRefusal>
    requires { AreIn source.now tokens.now }
    ensures { AnswersWords result (words_of source.now tokens.now) }
{
    let mut words = Vec::with_capacity(alloc, tokens.len())?;
    for token in tokens {
        let text = text_of(source, *token);
        let Some(word) = word_of(alloc, token.kind, text)? else {
            return Err(ParseRefusal::Syntax);
        };
        words.push(word)?;
    }
    Ok(words)
}
