ghost use Rattle.std.specs.Prelude.{◌≡◌, ◌<◌, ◌≤◌, length, slice_index, IfOk, IfSome};
ghost use Rattle.sp_lex.specs.Texts.{unquoted, characters_of};
ghost use Rattle.sp_lex.specs.code.Pieces.{text_rest};

use sp_base::Memory;
use std::alloc::Global;

const QUOTE: u8 = b'\'';

/// After the quote that opens a text, how many bytes the longest text has, the quote that closes it among them; None
/// where none does. A quote written twice goes on, but closes the text where no later quote does.
pub(crate) fn text_rest(bytes: &[u8]) -> Option<usize>
    ensures value { result ≡ text_rest bytes.now }
    ensures within { IfSome result (λ len. len ≤ length bytes.now) }
{
    let mut closed = None;
    let mut len = 0;
    while len < bytes.len() {
        if bytes[len] != QUOTE {
            len += 1;
            continue;
        }
        if byte_at(bytes, len + 1) != QUOTE {
            return Some(len + 1);
        }
        closed = Some(len + 1);
        len += 2;
    }
    closed
}

/// The byte at a place, 0 where there is none.
fn byte_at(bytes: &[u8], at: usize) -> u8
    ensures value { result ≡ slice_index bytes.now at }
    ensures within { 0 < result → at < length bytes.now }
{
    if at < bytes.len() { bytes[at] } else { 0 }
}

fn unquoted(alloc: Global, bytes: &[u8]) -> Result<Vec<u8>, Memory>
    ensures { IfOk result (λ found. found.items ≡ unquoted bytes.now) }
{
    let mut found = Vec::new(alloc);
    let mut at = 0;
    while at < bytes.len() {
        let byte = bytes[at];
        if byte != QUOTE {
            found.push(byte)?;
            at += 1;
            continue;
        }
        if byte_at(bytes, at + 1) != QUOTE {
            return Ok(found);
        }
        found.push(QUOTE)?;
        at += 2;
    }
    Ok(found)
}

/// The characters of a text in quotes, a quote among them being written twice.
pub fn characters(alloc: Global, text: &[u8]) -> Result<Vec<u8>, Memory>
    ensures { IfOk result (λ found. found.items ≡ characters_of text.now) }
{
    match text {
        [_, inside @ ..] => unquoted(alloc, inside),
        [] => Ok(Vec::new(alloc)),
    }
}
