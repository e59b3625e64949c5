//! Annotations of routines and of instructions.
ghost use Rattle.std.specs.Prelude.{◌≡◌, ◌∷◌, [], None, Some, IfOk, IsSome, MatchOption};
ghost use Rattle.std.specs.List.{AllZip};
ghost use Rattle.std.specs.Option.{option_to_list};
ghost use Rattle.sp_note.specs.Parts.{part_of};
ghost use Rattle.sp_note.specs.RawNotes.{raw_of};
ghost use Rattle.sp_unit.specs.Faults.{meanings};
ghost use Rattle.sp_unit.specs.Resolution.{condition};
ghost use Rattle.sp_unit.specs.SourceUnits.{IsNoted, pre_in, post_in, assert_in, raws};
ghost use Rattle.sp_unit.specs.code.Entries.{entry_of, entries_of};
ghost use Rattle.sp_unit.specs.code.Scopes.{IsScope, source_of};
ghost use Rattle.sp_unit.specs.code.Sounds.{IsSound, AreSound, said_at, raw};

use crate::entry::Entry;
use crate::pushed::with_one;
use crate::resolve::{Bound, condition};
use crate::scope::Scope;
use sp_base::{Line, Memory};
use sp_logic::RawNote;
use sp_note::Part;
use sp_prog::Noted;
use std::alloc::Global;

/// When an annotation holds.
#[derive(Clone, Copy)]
pub(crate) enum Point {
    /// At a routine's entry, as `pre`.
    Entry,
    /// At its return, as `post`.
    Return,
    /// At the next instruction, as `assert`.
    Next,
}

fn pre_in(part: &Part) -> Option<&RawNote>
    ensures { MatchOption result (pre_in (part_of part.now) ≡ None) (λ raw. pre_in (part_of part.now) ≡ Some (raw_of raw.now)) }
{
    match part {
        Part::Pre(raw) => Some(raw),
        _ => None,
    }
}

fn post_in(part: &Part) -> Option<&RawNote>
    ensures { MatchOption result (post_in (part_of part.now) ≡ None) (λ raw. post_in (part_of part.now) ≡ Some (raw_of raw.now)) }
{
    match part {
        Part::Post(raw) => Some(raw),
        _ => None,
    }
}

fn assert_in(part: &Part) -> Option<&RawNote>
    ensures { MatchOption result (assert_in (part_of part.now) ≡ None) (λ raw. assert_in (part_of part.now) ≡ Some (raw_of raw.now)) }
{
    match part {
        Part::Assert(raw) => Some(raw),
        _ => None,
    }
}

/// What a part says to hold at a point.
fn said_at(point: Point, part: &Part) -> Option<&RawNote>
    ensures { MatchOption result (said_at point (part_of part.now) ≡ None) (λ raw. said_at point (part_of part.now) ≡ Some (raw_of raw.now)) }
{
    match point {
        Point::Entry => pre_in(part),
        Point::Return => post_in(part),
        Point::Next => assert_in(part),
    }
}

/// An annotation with its names resolved.
#[tactic(auto, using(crate::proofs::ScopeLemmas::same_meanings))]
fn noted(alloc: Global, scope: &Scope<'_>, line: Line, note: &RawNote) -> Result<Noted, Memory>
    requires scope { IsScope scope.now }
    requires known { IsSome (condition (meanings (source_of scope.now)) [] (raw_of note.now)) }
    ensures { IfOk result (IsNoted (source_of scope.now) (raw line.0 (raw_of note.now))) }
{
    match condition(alloc, scope, &Bound::Nothing, note)? {
        Some(note) => Ok(Noted { line, note }),
        None => unreachable!(),
    }
}

/// What a line says to hold at a point, with its names resolved.
pub(crate) fn noted_at(
    alloc: Global,
    scope: &Scope<'_>,
    point: Point,
    e: &Entry<'_>,
) -> Result<Option<Noted>, Memory>
    requires scope { IsScope scope.now }
    requires sound { IsSound (source_of scope.now) (entry_of e.now) }
    ensures { IfOk result (λ n. AllZip (IsNoted (source_of scope.now)) (raws (said_at point) (entry_of e.now ∷ [])) (option_to_list n)) }
{
    let Entry::Annotation(note) = e else {
        return Ok(None);
    };
    match said_at(point, &note.part) {
        Some(raw) => Ok(Some(noted(alloc, scope, note.line, raw)?)),
        None => Ok(None),
    }
}

/// What lines say to hold at a point, in order.
pub(crate) fn notes_at(
    alloc: Global,
    scope: &Scope<'_>,
    point: Point,
    lines: &[Entry<'_>],
) -> Result<Vec<Noted>, Memory>
    requires scope { IsScope scope.now }
    requires sound { AreSound (source_of scope.now) (entries_of lines.now) }
    ensures { IfOk result (λ notes. AllZip (IsNoted (source_of scope.now)) (raws (said_at point) (entries_of lines.now)) notes.items) }
{
    let mut notes = Vec::new(alloc);
    for e in lines {
        notes = with_one(notes, noted_at(alloc, scope, point, e)?)?;
    }
    Ok(notes)
}
