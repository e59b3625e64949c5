ghost use Rattle.std.specs.Prelude.{◌≡◌, ◌<◌, ◌≤◌, ◌+◌, ◌^◌, length};
ghost use Rattle.sp_base.specs.Refused.{Answers, IsComplete};
ghost use Rattle.sp_lex.specs.Reading.{AreLines, IsFaultAt};
ghost use Rattle.sp_lex.specs.code.Lines.{after_blanks, finished, kind_by, line_at, is_end_line, GivesLine};

use crate::pieces::scan;
use crate::refusal::{LexRefusal, TextKind};
use crate::token::{LineKind, Lines, SourceLine, Token, Tokens};
use crate::{bytes, names};
use sp_base::{Line, Refused, first_row};
use std::alloc::Global;

/// The longest line, in bytes, its end not counted.
const MAX_LINE: usize = 4_096;

fn after_blanks(line: &[u8]) -> &[u8]
    ensures { result.now ≡ after_blanks line.now }
{
    let (_, rest) = line.split_at(bytes::blanks(line));
    rest
}

fn is_end_line(line: &[u8]) -> bool
    ensures { result ≡ is_end_line line.now }
{
    let rest = after_blanks(line);
    let (word, _) = rest.split_at(bytes::name_bytes(rest));
    names::is_end_word(word)
}

fn kind_by(tokens: &[Token]) -> LineKind
    ensures { result ≡ kind_by tokens.now }
{
    match tokens {
        [] => LineKind::Empty,
        [_, ..] => LineKind::Statement,
    }
}

/// The line with this number and these tokens, unless something is wrong with it.
fn finished(
    alloc: Global,
    number: Line,
    kind: LineKind,
    tokens: &[Token],
    fault: Option<TextKind>,
) -> Result<SourceLine, LexRefusal>
    ensures { GivesLine number result (finished kind tokens.now fault) }
{
    match fault {
        Some(fault) => Err(Refused::At(number, fault)),
        None => {
            let tokens = Vec::from_slice(alloc, tokens)?;
            Ok(SourceLine {
                kind,
                tokens: Tokens::from_vec(tokens),
            })
        }
    }
}

/// The line with this number and these bytes, which stand from `at` on in the source. `tokens` is room to work in.
#[tactic(auto, unfolding(crate::specs::code::Lines::line_at))]
fn line_at(
    alloc: Global,
    number: Line,
    tokens: &mut Vec<Token>,
    at: usize,
    line: &[u8],
) -> Result<SourceLine, LexRefusal>
    requires { at + length line.now < 2 ^ 63 }
    ensures { GivesLine number result (line_at at line.now) }
{
    if line.len() > MAX_LINE {
        return Err(Refused::At(number, TextKind::LongLine));
    }
    tokens.clear();
    let rest = after_blanks(line);
    if rest.starts_with(b";#") {
        let (_, text) = rest.split_at(2);
        let fault = scan(tokens, true, at + bytes::blanks(line) + 2, text)?;
        return finished(alloc, number, LineKind::Annotation, tokens, fault);
    }
    let fault = scan(tokens, false, at, line)?;
    finished(alloc, number, kind_by(tokens), tokens, fault)
}

/// How many line feeds a source has.
fn line_feeds(source: &[u8]) -> usize
    ensures { result ≤ length source.now }
{
    source.iter().filter(|byte| **byte == b'\n').count()
}

/// The lines of a source down to its END line, each with its tokens; nothing below the END line is looked at. LF or CR
/// and LF end a line, and the last line may have no end. The refusal is that of the lowest line that breaks a rule, and
/// of one line's faults the first in the order of `TextKind`.
pub fn lines(alloc: Global, source: &[u8]) -> Result<Lines, LexRefusal>
    requires { length source.now < 4294967295 }
    ensures says { Answers (AreLines source.now) (IsFaultAt source.now) result }
    ensures complete { IsComplete (AreLines source.now) (IsFaultAt source.now) result }
{
    let mut lines = Vec::with_capacity(alloc, line_feeds(source) + 1)?;
    let mut tokens = Vec::new(alloc);
    let mut rest = source;
    let mut at = 0;
    let mut number = 1;
    while !rest.is_empty() {
        let row = first_row(rest);
        let line = row.line();
        let read = line_at(alloc, Line(number), &mut tokens, at, line)?;
        lines.push(read)?;
        if is_end_line(line) {
            return Ok(Lines::from_vec(lines));
        }
        let size = row.size();
        let (_, after) = rest.split_at(size);
        rest = after;
        at += size;
        number += 1;
    }
    Ok(Lines::from_vec(lines))
}
