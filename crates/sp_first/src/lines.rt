//! The lines of a source of the first form, each read by its words.
ghost use Rattle.std.specs.Prelude.{◌≡◌, ◌∷◌, ◌++◌, OnErr, MatchResult, MatchOption, Some, None, true, length, ◌≤◌, is_some, bytes_eq, codes, map, []};
ghost use Rattle.std.specs.Option.{option_map};
ghost use Rattle.std.specs.List.{list_all, list_any};
ghost use Rattle.sp_first.specs.Words.{lines, words};
ghost use Rattle.sp_first.specs.Form.{number_of as decimal, reserved};
ghost use Rattle.sp_first.specs.Reading as read;
ghost use Rattle.sp_first.specs.Header.{header_words};

use crate::transfer::Transfer;
use crate::words::{is_at_end, next_line, next_word};
use sp_base::{Name, Reg};

/// What is left of the line after this word, if the line begins with it.
#[tactic(auto, unfolding(crate::specs::Reading::literal))]
pub fn literal<'a>(line: &'a [u8], text: &[u8]) -> Option<&'a [u8]>
    ensures { option_map (λ r. words r.now) result ≡ read.literal text.now (words line.now) }
{
    let (word, rest) = next_word(line)?;
    if word == text { Some(rest) } else { None }
}

/// The register that a word names.
fn register_named(word: &[u8]) -> Option<Reg>
    ensures { result ≡ read.reg_named word.now }
{
    match word {
        [letter] => register_lettered(*letter),
        _ => None,
    }
}

fn register_lettered(letter: u8) -> Option<Reg>
    ensures { result ≡ read.lettered letter }
{
    match letter {
        b'B' => Some(Reg::B),
        b'C' => Some(Reg::C),
        b'D' => Some(Reg::D),
        b'E' => Some(Reg::E),
        b'H' => Some(Reg::H),
        b'L' => Some(Reg::L),
        b'A' => Some(Reg::A),
        _ => None,
    }
}

/// A register, and what is left of the line.
#[tactic(auto, unfolding(crate::specs::Reading::register))]
fn register(line: &[u8]) -> Option<(Reg, &[u8])>
    ensures { option_map (λ p. (p.0, words p.1.now)) result ≡ read.register (words line.now) }
{
    let (word, rest) = next_word(line)?;
    Some((register_named(word)?, rest))
}

fn is_digit(byte: u8) -> bool
    ensures { result ≡ read.is_digit byte }
{
    byte >= b'0' && byte <= b'9'
}

fn are_digits(word: &[u8]) -> bool
    ensures { result ≡ list_all read.is_digit word.now }
{
    word.iter().all(|byte| is_digit(*byte))
}

/// The number that one to three decimal digits stand for.
fn number_of(digits: &[u8]) -> u16
    requires few { length digits.now ≤ 3 }
    requires decimal { list_all read.is_digit digits.now ≡ true }
    ensures { result ≡ decimal digits.now }
{
    let mut value = 0u16;
    for byte in digits {
        value = 10 * value + u16::from(*byte - b'0');
    }
    value
}

/// A number of one to three decimal digits, and what is left of the line.
#[tactic(auto, unfolding(crate::specs::Reading::number))]
fn number(line: &[u8]) -> Option<(u16, &[u8])>
    ensures { option_map (λ p. (p.0, words p.1.now)) result ≡ read.number (words line.now) }
{
    let (word, rest) = next_word(line)?;
    if word.is_empty() || word.len() > 3 || !are_digits(word) {
        return None;
    }
    Some((number_of(word), rest))
}

/// The line of the stack region: nothing is left behind it.
#[tactic(auto, unfolding(crate::specs::Reading::stack_line))]
pub fn stack_line(line: &[u8]) -> Option<&[u8]>
    ensures { option_map (λ r. words r.now) result ≡ read.stack_line (words line.now) }
{
    let rest = literal(line, b";#")?;
    let rest = literal(rest, b"stack")?;
    let rest = literal(rest, b"2300H")?;
    let rest = literal(rest, b",")?;
    let rest = literal(rest, b"23FFH")?;
    if is_at_end(rest) { Some(rest) } else { None }
}

fn is_upper(byte: u8) -> bool
    ensures { result ≡ read.is_upper byte }
{
    byte >= b'A' && byte <= b'Z'
}

fn are_upper(word: &[u8]) -> bool
    ensures { result ≡ list_all read.is_upper word.now }
{
    word.iter().all(|byte| is_upper(*byte))
}

/// Whether a word means something in the whole language, so that no routine can have it as its name.
fn is_reserved(word: &[u8]) -> bool
    ensures { result ≡ list_any (bytes_eq word.now) reserved }
{
    word == b"CALL".as_slice()
        || word == b"PUSH".as_slice()
        || word == b"LDAX".as_slice()
        || word == b"STAX".as_slice()
        || word == b"SHLD".as_slice()
        || word == b"LHLD".as_slice()
        || word == b"XTHL".as_slice()
        || word == b"SPHL".as_slice()
        || word == b"PCHL".as_slice()
        || word == b"XCHG".as_slice()
        || word == b"TRUE".as_slice()
        || word == b"FALSE".as_slice()
        || word == b"ADDR".as_slice()
        || word == b"BAND".as_slice()
        || word == b"BXOR".as_slice()
        || word == b"SOME".as_slice()
}

fn is_routine_name(word: &[u8]) -> bool
    ensures { result ≡ read.is_routine_name word.now }
{
    let long = word.len() >= 4;
    let short = word.len() <= 31;
    long && short && are_upper(word) && !is_reserved(word)
}

/// The line that begins the routine: its name.
#[tactic(auto, unfolding(crate::specs::Reading::routine_line))]
pub fn routine_line(line: &[u8]) -> Option<Name>
    ensures { result ≡ read.routine_line (words line.now) }
{
    let rest = literal(line, b";#")?;
    let rest = literal(rest, b"routine")?;
    let (word, rest) = next_word(rest)?;
    if is_routine_name(word) && is_at_end(rest) {
        Name::new(word)
    } else {
        None
    }
}

/// The line of the postcondition: the register and its value.
#[tactic(auto, unfolding(crate::specs::Reading::post_line))]
pub fn post_line(line: &[u8]) -> Option<(Reg, u16)>
    ensures { result ≡ read.post_line (words line.now) }
{
    let rest = literal(line, b";#")?;
    let rest = literal(rest, b"post")?;
    let (reg, rest) = register(rest)?;
    let rest = literal(rest, b"=")?;
    let (value, rest) = number(rest)?;
    if is_at_end(rest) {
        Some((reg, value))
    } else {
        None
    }
}

/// The operands of an MVI.
#[tactic(auto, unfolding(crate::specs::Reading::mvi_operands))]
fn mvi_operands(line: &[u8]) -> Option<Transfer>
    ensures { result ≡ read.mvi_operands (words line.now) }
{
    let (to, rest) = register(line)?;
    let rest = literal(rest, b",")?;
    let (value, rest) = number(rest)?;
    if value <= 255 && is_at_end(rest) {
        Some(Transfer::Mvi(to, value as u8))
    } else {
        None
    }
}

/// The operands of a MOV.
#[tactic(auto, unfolding(crate::specs::Reading::mov_operands))]
fn mov_operands(line: &[u8]) -> Option<Transfer>
    ensures { result ≡ read.mov_operands (words line.now) }
{
    let (to, rest) = register(line)?;
    let rest = literal(rest, b",")?;
    let (from, rest) = register(rest)?;
    if is_at_end(rest) {
        Some(Transfer::Mov(to, from))
    } else {
        None
    }
}

/// A line of the program before RET.
#[tactic(auto, unfolding(crate::specs::Reading::move_line))]
pub fn move_line(line: &[u8]) -> Option<Transfer>
    ensures { result ≡ read.move_line (words line.now) }
{
    let (word, rest) = next_word(line)?;
    if word == b"MVI".as_slice() {
        return mvi_operands(rest);
    }
    if word == b"MOV".as_slice() {
        return mov_operands(rest);
    }
    None
}

/// Whether the line is RET alone.
pub fn is_ret_line(line: &[u8]) -> bool
    ensures { result ≡ read.is_ret_line (words line.now) }
{
    match next_word(line) {
        Some((word, rest)) => word == b"RET".as_slice() && is_at_end(rest),
        None => false,
    }
}

/// The `,` and the register that follow in a list, and what is left of the line.
#[tactic(auto, unfolding(crate::specs::Reading::next_register))]
pub fn next_register(line: &[u8]) -> Option<(Reg, &[u8])>
    ensures { option_map (λ p. (p.0, words p.1.now)) result ≡ read.next_register (words line.now) }
{
    let rest = literal(line, b",")?;
    register(rest)
}

/// The first register of the list of changes, and what is left of the line.
#[tactic(auto, unfolding(crate::specs::Reading::first_change))]
pub fn first_change(line: &[u8]) -> Option<(Reg, &[u8])>
    ensures { option_map (λ p. (p.0, words p.1.now)) result ≡ read.first_change (words line.now) }
{
    let rest = literal(line, b";#")?;
    let rest = literal(rest, b"changes")?;
    register(rest)
}

/// Whether the lines are the one that ends the routine.
pub fn is_last_line(bytes: &[u8]) -> bool
    ensures { result ≡ read.is_last_line (map words (lines bytes.now)) }
{
    match next_line(bytes) {
        Some((line, below)) => is_end_line(line) && next_line(below).is_none(),
        None => false,
    }
}

/// Whether the line ends the routine.
fn is_end_line(line: &[u8]) -> bool
    ensures { result ≡ read.is_words (codes ";#" ∷ codes "end" ∷ []) (words line.now) }
{
    match next_word(line) {
        Some((first, rest)) => first == b";#".as_slice() && is_end_word(rest),
        None => false,
    }
}

fn is_end_word(line: &[u8]) -> bool
    ensures { result ≡ read.is_words (codes "end" ∷ []) (words line.now) }
{
    match next_word(line) {
        Some((word, rest)) => word == b"end".as_slice() && is_at_end(rest),
        None => false,
    }
}

/// What the lines above the list of changes say.
#[derive(Debug, Drop)]
pub struct Header<'a> {
    pub name: Name,
    pub post: Reg,
    pub value: u16,
    /// The line of the list.
    pub changes: &'a [u8],
    /// The lines below it.
    pub below: &'a [u8],
}

/// The first three lines, and the rest.
#[tactic(auto, unfolding(crate::specs::Reading::header_of))]
pub fn read_header(source: &[u8]) -> Option<Header<'_>>
    ensures { option_map header_words result ≡ read.header_of (map words (lines source.now)) }
{
    let (line, below) = next_line(source)?;
    let _rest = stack_line(line)?;
    let (line, below) = next_line(below)?;
    let name = routine_line(line)?;
    let (line, below) = next_line(below)?;
    let (post, value) = post_line(line)?;
    let (changes, below) = next_line(below)?;
    Some(Header {
        name,
        post,
        value,
        changes,
        below,
    })
}
