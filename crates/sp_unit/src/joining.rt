ghost use Rattle.std.specs.Prelude.{◌≡◌, ◌≢◌, List, AllPairs, IfOk, IsSome, Some};
ghost use Rattle.std.specs.List.{AllZip};
ghost use Rattle.sp_base.specs.Refused.{Answers};
ghost use Rattle.sp_prog.specs.Rules.{address_of};
ghost use Rattle.sp_prog.specs.declared.routine.Routine.{Routine};
ghost use Rattle.sp_unit.specs.Faults.{KeepsRules, areas_by};
ghost use Rattle.sp_unit.specs.Origin.{AreOfOneSource, IsAnswered, IsJoined, IsUnjoined, said_by, entries_by};
ghost use Rattle.sp_unit.specs.SourceUnits.{IsRoutineOf, begun};
ghost use Rattle.sp_unit.specs.code.Building.{HasRoutines, IsScopeOf};
ghost use Rattle.sp_unit.specs.code.Entries.{entries_of};
ghost use Rattle.sp_unit.specs.code.Scopes.{IsScope, source_of};
ghost use Rattle.sp_unit.specs.code.Sounds.{AreSound};

use crate::area_places::{all_areas, places_of};
use crate::entry::Entry;
use crate::merge::merged;
use crate::refusal::UnitRefusal;
use crate::routines::{routines, sorted};
use crate::rules::check;
use crate::scope::Scope;
use crate::stack::stack_region;
use crate::tables::areas_of;
use sp_asm::Listing;
use sp_base::Memory;
use sp_note::Notes;
use sp_prog::{Area, Areas, Routine, Routines, Unit};
use std::alloc::Global;

/// What a source says.
fn scope_of<'a>(alloc: Global, listing: &'a Listing, notes: &'a Notes) -> Result<Scope<'a>, Memory>
    ensures { IfOk result (IsScopeOf listing.now notes.now) }
{
    let notes = notes.as_slice();
    Ok(Scope {
        areas: areas_of(alloc, &listing.names, notes)?,
        names: &listing.names,
        image: &listing.image,
        notes,
        stack: stack_region(notes, &listing.names),
    })
}

/// Its lines in order.
fn lines_of<'a>(
    alloc: Global,
    listing: &'a Listing,
    notes: &'a Notes,
) -> Result<Vec<Entry<'a>>, Memory>
    ensures { IfOk result (λ lines. entries_of lines.items ≡ entries_by listing.now notes.now) }
{
    merged(alloc, listing.items.as_slice(), notes.as_slice())
}

/// Its areas in order.
fn areas(alloc: Global, listing: &Listing, notes: &Notes) -> Result<Vec<Area>, Memory>
    ensures { IfOk result (λ areas. areas.items ≡ areas_by (said_by listing.now notes.now).value (said_by listing.now notes.now).notes) }
{
    all_areas(alloc, &listing.names, notes.as_slice())
}

/// Its routines by rising address.
fn routines_by(
    alloc: Global,
    scope: &Scope<'_>,
    areas: &[Area],
    lines: &[Entry<'_>],
) -> Result<Vec<Routine>, Memory>
    requires scope { IsScope scope.now }
    requires areas { areas.now ≡ areas_by (source_of scope.now).value (source_of scope.now).notes }
    requires sound { AreSound (source_of scope.now) (entries_of lines.now) }
    requires apart { (found : List Routine) → AllZip (IsRoutineOf (source_of scope.now) areas.now) (begun (entries_of lines.now)) found
        → AllPairs (λ r q. address_of r ≢ address_of q) found }
    ensures { IfOk result (λ all. HasRoutines (source_of scope.now) areas.now (entries_of lines.now) all.items) }
{
    let places = places_of(alloc, areas)?;
    let found = routines(alloc, scope, &places, lines)?;
    sorted(found)
}

/// The ends of a stack region that there is.
fn ends(stack: Option<(u16, u16)>) -> (u16, u16)
    requires { IsSome stack }
    ensures { stack ≡ Some result }
{
    match stack {
        Some(ends) => ends,
        None => unreachable!(),
    }
}

/// The unit of lines that keep the rules.
fn built(alloc: Global, listing: &Listing, notes: &Notes) -> Result<Unit, Memory>
    requires one { AreOfOneSource listing.now notes.now }
    requires right { KeepsRules (said_by listing.now notes.now) (entries_by listing.now notes.now) }
    ensures { IfOk result (IsJoined listing.now notes.now) }
{
    let scope = scope_of(alloc, listing, notes)?;
    let lines = lines_of(alloc, listing, notes)?;
    let areas = areas(alloc, listing, notes)?;
    let routines = routines_by(alloc, &scope, &areas, &lines)?;
    let (first, last) = ends(scope.stack);
    let _ = listing.image.len();
    let image = listing.image.copy()?;
    Ok(Unit {
        image,
        first,
        last,
        areas: Areas::from_vec(areas),
        routines: Routines::from_vec(routines),
    })
}

/// The unit of a source: its image, its stack region, its areas in the order of their lines, and its routines by rising
/// address, each with its instructions and what is asserted at them. A refusal names the lowest line that breaks a rule of
/// units, line 0 where there is no `stack` line, with the first way in which it does.
pub fn join(alloc: Global, listing: &Listing, notes: &Notes) -> Result<Unit, UnitRefusal>
    requires { AreOfOneSource listing.now notes.now }
    ensures right { Answers (IsJoined listing.now notes.now) (IsUnjoined listing.now notes.now) result }
    // Lines that keep the rules are answered by their unit, and each cause is named, unless memory runs out.
    ensures complete { IsAnswered listing.now notes.now result }
{
    match check(alloc, listing, notes) {
        Ok(()) => Ok(built(alloc, listing, notes)?),
        Err(refusal) => Err(refusal),
    }
}
