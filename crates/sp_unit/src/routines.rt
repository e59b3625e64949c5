//! The routines of a source by rising address.
ghost use Rattle.std.specs.Prelude.{◌≡◌, ◌≢◌, ◌∷◌, [], ℕ, ◌<◌, ◌+◌, List, IfOk, AllPairs, IsPermutation, length, drop, map, option_to_list};
ghost use Rattle.std.specs.List.{AllZip};
ghost use Rattle.std.specs.List.Sorted.{IsStrictlyIncreasing};
ghost use Rattle.sp_prog.specs.Rules.{address_of};
ghost use Rattle.std.specs.Option.{option_map};
ghost use Rattle.sp_unit.specs.Faults.{areas_by};
ghost use Rattle.sp_unit.specs.Lines as lines;
ghost use Rattle.sp_unit.specs.SourceUnits.{IsRoutineOf, begun, begun_at};
ghost use Rattle.sp_unit.specs.code.Building.{ArePlaces, begun_line};
ghost use Rattle.sp_unit.specs.code.Entries.{entry_of, entries_of};
ghost use Rattle.sp_unit.specs.code.Scopes.{IsScope, source_of};
ghost use Rattle.sp_unit.specs.code.Sounds.{AreSound};

use crate::area_places::PlaceTable;
use crate::entry::Entry;
use crate::lines::lines_below;
use crate::pushed::with_one;
use crate::routine::routine;
use crate::scope::Scope;
use sp_base::{Memory, Name};
use sp_note::Part;
use sp_prog::Routine;
use std::alloc::Global;

/// The name of a routine that a line begins.
fn begun_name(e: &Entry<'_>) -> Option<Name>
    ensures { (below : List lines.Entry) → begun_at (entry_of e.now) below
        ≡ option_to_list (option_map (λ name. begun_line name (lines.line_of (entry_of e.now)) below) result) }
{
    let Entry::Annotation(note) = e else {
        return None;
    };
    match &note.part {
        Part::Routine(name) => Some(*name),
        _ => None,
    }
}

/// The routine that a line begins, with the lines below it.
fn routine_at(
    alloc: Global,
    scope: &Scope<'_>,
    places: &PlaceTable,
    e: &Entry<'_>,
    below: &[Entry<'_>],
) -> Result<Option<Routine>, Memory>
    requires scope { IsScope scope.now }
    requires places { ArePlaces (areas_by (source_of scope.now).value (source_of scope.now).notes) places.now.entries }
    requires sound { AreSound (source_of scope.now) (entries_of below.now) }
    ensures { IfOk result (λ r. AllZip (IsRoutineOf (source_of scope.now) (areas_by (source_of scope.now).value (source_of scope.now).notes))
        (begun_at (entry_of e.now) (entries_of below.now)) (option_to_list r)) }
{
    match begun_name(e) {
        Some(name) => Ok(Some(routine(alloc, scope, places, name, e.line(), below)?)),
        None => Ok(None),
    }
}

/// The routines that lines begin, in order.
pub(crate) fn routines(
    alloc: Global,
    scope: &Scope<'_>,
    places: &PlaceTable,
    lines: &[Entry<'_>],
) -> Result<Vec<Routine>, Memory>
    requires scope { IsScope scope.now }
    requires places { ArePlaces (areas_by (source_of scope.now).value (source_of scope.now).notes) places.now.entries }
    requires sound { AreSound (source_of scope.now) (entries_of lines.now) }
    ensures { IfOk result (λ found. AllZip (IsRoutineOf (source_of scope.now) (areas_by (source_of scope.now).value (source_of scope.now).notes))
        (begun (entries_of lines.now)) found.items) }
{
    let mut found = Vec::new(alloc);
    for (i, e) in lines.iter().enumerate() {
        found = with_one(
            found,
            routine_at(alloc, scope, places, e, lines_below(lines, i))?,
        )?;
    }
    Ok(found)
}

/// The address of the first instruction, 0 where there is none.
fn address_of(r: &Routine) -> u16
    ensures { result ≡ address_of r.now }
{
    match r.code.as_slice() {
        [first, ..] => first.addr,
        [] => 0,
    }
}

/// Routines at different addresses by rising address.
pub(crate) fn sorted(found: Vec<Routine>) -> Result<Vec<Routine>, Memory>
    requires { AllPairs (λ r q. address_of r ≢ address_of q) found.items }
    ensures permutation { IfOk result (λ all. IsPermutation found.items all.items) }
    ensures rising { IfOk result (λ all. IsStrictlyIncreasing (map address_of all.items)) }
{
    let mut all = found;
    all.sort_by_key(address_of)?;
    Ok(all)
}
