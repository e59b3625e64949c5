ghost use Rattle.sp_base.specs.Refused.{Answers, IsComplete};
ghost use Rattle.sp_note.specs.Parts.{lines_of};
ghost use Rattle.sp_unit.specs.Faults.{KeepsRules, IsCause};
ghost use Rattle.sp_unit.specs.Lines.{merged};
ghost use Rattle.sp_unit.specs.Sources.{source};

use crate::lines::first_fault;
use crate::merge::merged;
use crate::refusal::{UnitKind, UnitRefusal};
use crate::scope::Scope;
use crate::stack::{has_stack, stack_region};
use crate::tables::areas_of;
use sp_asm::Listing;
use sp_base::{Line, Refused};
use sp_note::Notes;
use std::alloc::Global;

/// Whether the lines of a source keep the rules of units. A refusal names the lowest line that breaks one, line 0 where there
/// is no `stack` line, with the first way in which it does.
pub fn check(alloc: Global, listing: &Listing, notes: &Notes) -> Result<(), UnitRefusal>
    ensures right { Answers (λ _. KeepsRules (source listing.now.image listing.now.names.entries (lines_of notes.now)) (merged listing.now.items (lines_of notes.now)))
        (IsCause (source listing.now.image listing.now.names.entries (lines_of notes.now)) (merged listing.now.items (lines_of notes.now))) result }
    ensures complete { IsComplete (λ _. KeepsRules (source listing.now.image listing.now.names.entries (lines_of notes.now)) (merged listing.now.items (lines_of notes.now)))
        (IsCause (source listing.now.image listing.now.names.entries (lines_of notes.now)) (merged listing.now.items (lines_of notes.now))) result }
{
    let notes = notes.as_slice();
    if !has_stack(notes, &listing.names) {
        return Err(Refused::At(Line(0), UnitKind::NoStack));
    }
    let lines = merged(alloc, listing.items.as_slice(), notes)?;
    let scope = Scope {
        areas: areas_of(alloc, &listing.names, notes)?,
        names: &listing.names,
        image: &listing.image,
        notes,
        stack: stack_region(notes, &listing.names),
    };
    first_fault(alloc, &scope, &lines)
}
