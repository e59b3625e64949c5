ghost use Rattle.std.specs.Prelude.{◌≡◌, ◌+◌, ◌<◌, ◌≤◌, ◌^◌, length, IfOk, option_map};
ghost use Rattle.std.specs.FinMap as maps;
ghost use Rattle.sp_base.specs.Cells.{IsPlaced, placed};
ghost use Rattle.sp_base.specs.Limits.{text_limit};
ghost use Rattle.sp_base.specs.Lines.{lines};
ghost use Rattle.sp_base.specs.Refused.{Answers, IsComplete};
ghost use Rattle.sp_hex.specs.Hex.{digit_value, byte_of, bytes_of, line_bytes, StandsFor};
ghost use Rattle.sp_hex.specs.Refusals.{IsCause};
ghost use Rattle.sp_hex.specs.code.Reading.{byte_at, Spells, Gives, content, content_of, held_at, empty_from, reading};

use crate::record::{DATA, END, Record, low_sum};
use crate::refusal::{HexKind, HexRefusal};
use sp_base::{Image, Line, Memory, Refused, first_row};
use std::alloc::Global;

fn digit_value(digit: u8) -> Option<u8>
    ensures { result ≡ digit_value digit }
{
    match digit {
        b'0'..=b'9' => Some(digit - b'0'),
        b'A'..=b'F' => Some(digit - b'A' + 10),
        b'a'..=b'f' => Some(digit - b'a' + 10),
        _ => None,
    }
}

/// The byte that two digits spell.
fn byte_of(high: u8, low: u8) -> Option<u8>
    ensures { result ≡ byte_of high low }
{
    Some(16 * digit_value(high)? + digit_value(low)?)
}

/// The byte that the first two digits spell, and the digits after them.
#[tactic(auto, unfolding(crate::specs::code::Reading::byte_at))]
fn byte_at(digits: &[u8]) -> Option<(u8, &[u8])>
    ensures { option_map (λ found. (found.0, found.1.now)) result ≡ byte_at digits.now }
{
    match digits {
        [high, low, rest @ ..] => match byte_of(*high, *low) {
            Some(byte) => Some((byte, rest)),
            None => None,
        },
        _ => None,
    }
}

/// Puts the bytes that digits spell into `bytes`, which loses what it held, and says whether they are whole bytes.
fn spell(bytes: &mut Vec<u8>, digits: &[u8]) -> Result<bool, Memory>
    ensures { IfOk result (λ whole. Spells whole bytes.new.items (bytes_of digits.now)) }
{
    bytes.clear();
    let mut rest = digits;
    while !rest.is_empty() {
        match byte_at(rest) {
            Some((byte, after)) => {
                bytes.push(byte)?;
                rest = after;
            }
            None => return Ok(false),
        }
    }
    Ok(true)
}

/// The same of a line: a colon, and digits.
fn spell_line(bytes: &mut Vec<u8>, line: &[u8]) -> Result<bool, Memory>
    ensures { IfOk result (λ whole. Spells whole bytes.new.items (line_bytes line.now)) }
{
    match line {
        [b':', digits @ ..] => spell(bytes, digits),
        _ => Ok(false),
    }
}

/// What the bytes of a record hold, if they have a record's form.
#[tactic(auto, unfolding(crate::specs::code::Reading::content_of))]
fn content_of(bytes: &[u8]) -> Option<Record<'_>>
    ensures { option_map content result ≡ content_of bytes.now }
{
    let [len, high, low, kind, held @ .., _] = bytes else {
        return None;
    };
    if usize::from(*len) != held.len() {
        return None;
    }
    let address = 256 * u16::from(*high) + u16::from(*low);
    if *kind == DATA && usize::from(address) + held.len() <= 65536 {
        return Some(Record::Data {
            address,
            bytes: held,
        });
    }
    if *kind == END && held.is_empty() {
        return Some(Record::End);
    }
    None
}

/// What these bytes of a line hold.
#[tactic(auto, unfolding(crate::specs::code::Reading::held_at))]
fn held_at(bytes: &[u8], number: u32) -> Result<Record<'_>, HexRefusal>
    ensures { Gives content result (held_at number bytes.now) }
{
    let Some(record) = content_of(bytes) else {
        return Err(Refused::At(Line(number), HexKind::BadRecord));
    };
    if low_sum(bytes) != 0 {
        return Err(Refused::At(Line(number), HexKind::BadSum));
    }
    Ok(record)
}

/// Refuses the first line that isn't empty, of the lines from this number on.
fn only_empty(text: &[u8], number: u32) -> Result<(), HexRefusal>
    requires { number + length text.now < 2 ^ 32 }
    ensures { Gives (λ x. x) result (empty_from number (lines text.now)) }
{
    let mut number = number;
    let mut rest = text;
    while !rest.is_empty() {
        let row = first_row(rest);
        let line = row.line();
        let size = row.size();
        if !line.is_empty() {
            return Err(Refused::At(Line(number), HexKind::AfterEnd));
        }
        let (_, after) = rest.split_at(size);
        rest = after;
        number += 1;
    }
    Ok(())
}

/// The image that a text stands for, line by line.
fn read_lines(alloc: Global, text: &[u8]) -> Result<Image, HexRefusal>
    requires { length text.now < text_limit }
    ensures { Gives (λ image. image) result (reading 1 maps.empty (lines text.now)) }
{
    let mut image = Image::new(alloc);
    let mut bytes = Vec::new(alloc);
    let mut number = 1u32;
    let mut rest = text;
    while !rest.is_empty() {
        let row = first_row(rest);
        let line = row.line();
        let size = row.size();
        let (_, after) = rest.split_at(size);
        if !spell_line(&mut bytes, line)? {
            return Err(Refused::At(Line(number), HexKind::BadRecord));
        }
        match held_at(&bytes, number)? {
            Record::Data { address, bytes } => {
                if !image.place(address, bytes)? {
                    return Err(Refused::At(Line(number), HexKind::Overlap));
                }
            }
            Record::End => {
                only_empty(after, number + 1)?;
                return Ok(image);
            }
        }
        rest = after;
        number += 1;
    }
    Err(Refused::At(Line(0), HexKind::NoEnd))
}

/// The image that a text stands for. Lines end in LF or CRLF, the last one may have no end, and digits may be
/// of either case. A refusal names the lowest line that is wrong, and the first of BadRecord, BadSum, Overlap and
/// AfterEnd that it is; NoEnd, of line 0, comes after all lines. `":00000001FF"` stands for the empty image.
pub fn read(alloc: Global, text: &[u8]) -> Result<Image, HexRefusal>
    requires { length text.now < text_limit }
    ensures says { Answers (StandsFor text.now) (IsCause text.now) result }
    // Each text that stands for an image is read, and each refusal that has its cause is given.
    ensures complete { IsComplete (StandsFor text.now) (IsCause text.now) result }
{
    read_lines(alloc, text)
}
