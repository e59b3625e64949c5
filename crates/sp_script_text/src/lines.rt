//! The lines of a script file that aren't steps.
ghost use Rattle.std.specs.Prelude.{◌≡◌, ◌≤◌, length};
ghost use Rattle.std.specs.List.{prefix_len, list_all};
ghost use Rattle.sp_fdl.specs.Text.{is_blank};
ghost use Rattle.sp_lex.specs.Bytes.{is_name_start, is_name_byte};
ghost use Rattle.sp_fdl.specs.code.Tokens.{taken, dropped};
ghost use Rattle.sp_script_text.specs.code.Lines.{is_ascii, is_idle, name_of_word, number_after, title_of, head_title, is_end};

use crate::digits::number_of;
use crate::script::Title;
use crate::words::{after_space, is_blank, split_word, trimmed};
use sp_base::Name;

fn is_name_start(byte: u8) -> bool
    ensures { result ≡ is_name_start byte }
{
    byte.is_ascii_alphabetic() || byte == b'@' || byte == b'?'
}

fn is_name_byte(byte: u8) -> bool
    ensures { result ≡ is_name_byte byte }
{
    is_name_start(byte) || byte.is_ascii_digit()
}

fn name_len(text: &[u8]) -> usize
    ensures value { result ≡ prefix_len is_name_byte text.now }
    ensures within { result ≤ length text.now }
{
    text.iter().take_while(|byte| is_name_byte(**byte)).count()
}

fn is_ascii(text: &[u8]) -> bool
    ensures { result ≡ list_all is_ascii text.now }
{
    text.iter().all(|byte| *byte < 128)
}

fn is_all_blank(text: &[u8]) -> bool
    ensures { result ≡ list_all is_blank text.now }
{
    text.iter().all(|byte| is_blank(*byte))
}

/// Whether a line says nothing: it has only blanks, or begins with `--`.
pub(crate) fn is_idle(line: &[u8]) -> bool
    ensures { result ≡ is_idle line.now }
{
    match line {
        [b'-', b'-', comment @ ..] => is_ascii(comment),
        _ => is_all_blank(line),
    }
}

/// A word as a name, in upper case.
#[tactic(auto, unfolding(crate::specs::code::Lines::name_of_word))]
fn name_of_word(word: &[u8]) -> Option<Name>
    ensures { result ≡ name_of_word word.now }
{
    match word {
        [first, ..] if is_name_start(*first) => sp_lex::name(word),
        _ => None,
    }
}

/// The bytes of a name at the front, and what follows them.
#[tactic(auto, using(sp_fdl::proofs::TakenLemmas::taken_is, sp_fdl::proofs::TakenLemmas::dropped_is))]
fn split_name(text: &[u8]) -> (&[u8], &[u8])
    ensures name { result.0.now ≡ taken is_name_byte text.now }
    ensures rest { result.1.now ≡ dropped is_name_byte text.now }
{
    text.split_at(name_len(text))
}

/// The condition of a name, with its number after a full stop.
fn number_after(name: Name, text: &[u8]) -> Option<Title>
    ensures { result ≡ number_after name text.now }
{
    match text {
        [b'.', digits @ ..] => match number_of(digits) {
            Some(number) => Some(Title {
                name,
                number: u64::from(number),
            }),
            None => None,
        },
        _ => None,
    }
}

/// The condition that a text names.
#[tactic(auto, unfolding(crate::specs::code::Lines::title_of))]
fn title_of(text: &[u8]) -> Option<Title>
    ensures { result ≡ title_of text.now }
{
    let (word, rest) = split_name(text);
    match name_of_word(word) {
        Some(name) => number_after(name, rest),
        None => None,
    }
}

/// The condition that the first line of a script names.
#[tactic(auto, unfolding(crate::specs::code::Lines::head_title))]
pub(crate) fn head_title(line: &[u8]) -> Option<Title>
    ensures { result ≡ head_title line.now }
{
    let (word, rest) = split_word(trimmed(line));
    if word != b"script".as_slice() {
        return None;
    }
    match after_space(rest) {
        Ok(text) => title_of(text),
        Err(_) => None,
    }
}

/// Whether a line ends a script.
#[tactic(auto, unfolding(crate::specs::code::Lines::is_end))]
pub(crate) fn is_end(line: &[u8]) -> bool
    ensures { result ≡ is_end line.now }
{
    trimmed(line) == b"end".as_slice()
}
