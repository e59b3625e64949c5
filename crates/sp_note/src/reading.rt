ghost use Rattle.std.specs.Prelude.{◌≡◌, ◌≤◌, ◌<◌, length, count_by};
ghost use Rattle.sp_lex.specs.Reading.{AreLines};
ghost use Rattle.sp_note.specs.code.Lines.{is_annotation, notes_of};
ghost use Rattle.sp_note.specs.code.Source.{AnswersNotes, refusal_at};
ghost use Rattle.sp_note.specs.Source.{AreNotes, IsUnread, IsAnswered};
ghost use Rattle.sp_base.specs.Refused.{Answers};

use crate::line::part_at;
use crate::part::{NoteLine, Notes};
use crate::refusal::{LineRefusal, NoteRefusal};
use sp_base::{Line, Refused};
use sp_lex::{LineKind, Lines, SourceLine};
use std::alloc::Global;

fn is_annotation(line: &SourceLine) -> bool
    ensures { result ≡ is_annotation line.now.kind }
{
    match line.kind {
        LineKind::Annotation => true,
        LineKind::Empty | LineKind::Statement => false,
    }
}

/// The refusal of a source for that of this line.
fn refusal_at(refusal: LineRefusal, line: Line) -> NoteRefusal
    ensures { result ≡ refusal_at refusal line }
{
    match refusal {
        LineRefusal::Kind(kind) => Refused::At(line, kind),
        LineRefusal::Memory => Refused::Memory,
    }
}

/// How many annotations lines have.
fn note_count(lines: &[SourceLine]) -> usize
    ensures { result ≡ count_by (λ line. is_annotation line.kind) lines.now }
{
    lines.iter().filter(|line| is_annotation(line)).count()
}

/// The annotation lines of a source, one after another.
fn all_notes(alloc: Global, source: &[u8], lines: &Lines) -> Result<Notes, NoteRefusal>
    requires lines { AreLines source.now lines.now }
    requires short { length source.now < 4294967295 }
    ensures { AnswersNotes result (notes_of source.now lines.now) }
{
    let lines = lines.as_slice();
    let mut notes = Vec::with_capacity(alloc, note_count(lines))?;
    for (i, line) in lines.iter().enumerate() {
        if !is_annotation(line) {
            continue;
        }
        let number = Line((i + 1) as u32);
        match part_at(alloc, source, line.tokens.as_slice()) {
            Ok(part) => notes.push(NoteLine { line: number, part })?,
            Err(refusal) => return Err(refusal_at(refusal, number)),
        }
    }
    Ok(Notes::from_vec(notes))
}

/// The annotation lines of a source, each with what it says. A refusal names the lowest line that isn't in the grammar.
pub fn read_notes(alloc: Global, source: &[u8], lines: &Lines) -> Result<Notes, NoteRefusal>
    requires lines { AreLines source.now lines.now }
    requires short { length source.now < 4294967295 }
    ensures right { Answers (AreNotes source.now lines.now) (IsUnread source.now lines.now) result }
    // Each source whose lines have annotations is answered by them, and each refused line is named, unless memory runs out.
    ensures complete { IsAnswered source.now lines.now result }
{
    all_notes(alloc, source, lines)
}
