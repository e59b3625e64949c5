//! What routines read and change.
ghost use Rattle.std.specs.Prelude.{◌≡◌, ◌∷◌, [], ◌++◌, List, IfOk, true};
ghost use Rattle.std.specs.List.{list_all, AllByRecursion};
ghost use Rattle.sp_note.specs.Parts.{part_of};
ghost use Rattle.sp_note.specs.declared.part.Listed.{Listed};
ghost use Rattle.sp_note.specs.declared.part.Listed.TheVariants as listed;
ghost use Rattle.sp_prog.specs.declared.area.Area.{Area};
ghost use Rattle.sp_unit.specs.SourceUnits.{AreLists, named_in};
ghost use Rattle.sp_unit.specs.code.Building.{ArePlaces, IsMentioned, IsPlacedLine, is_placed};
ghost use Rattle.sp_unit.specs.code.Entries.{entry_of, entries_of};
ghost use Rattle.sp_unit.specs.code.Sounds.{listed_by};

use crate::area_places::PlaceTable;
use crate::entry::Entry;
use indexmap::IndexMap;
use sp_base::{Locs, Memory, Name};
use sp_note::{Listed, Part};
use sp_prog::{Lists, Places};
use std::alloc::Global;

/// What a routine does with what it lists.
#[derive(Clone, Copy)]
pub(crate) enum Access {
    Reads,
    Changes,
}

/// What is mentioned so far.
#[derive(Drop)]
pub(crate) struct Mentioned {
    pub locs: Locs,
    /// The places of the areas, each once.
    pub areas: Vec<usize>,
    /// Their names.
    pub seen: IndexMap<Name, ()>,
}

fn reads_in(part: &Part) -> &[Listed]
    ensures { result.now ≡ listed_by Access.Reads (part_of part.now) }
{
    match part {
        Part::Reads(items) => items.as_slice(),
        _ => &[],
    }
}

fn changes_in(part: &Part) -> &[Listed]
    ensures { result.now ≡ listed_by Access.Changes (part_of part.now) }
{
    match part {
        Part::Changes(items) => items.as_slice(),
        _ => &[],
    }
}

/// What a part says to be read or changed.
fn listed_by(access: Access, part: &Part) -> &[Listed]
    ensures { result.now ≡ listed_by access (part_of part.now) }
{
    match access {
        Access::Reads => reads_in(part),
        Access::Changes => changes_in(part),
    }
}

/// What a line says to be read or changed.
fn listed_at<'a>(access: Access, e: &Entry<'a>) -> &'a [Listed]
    ensures { result.now ≡ named_in (listed_by access) (entry_of e.now ∷ []) }
{
    match e {
        Entry::Statement(_) => &[],
        Entry::Annotation(note) => listed_by(access, &note.part),
    }
}

/// With one area more.
fn with_area(places: &PlaceTable, m: Mentioned, name: &Name) -> Result<Mentioned, Memory>
    requires { is_placed places.now.entries (listed.Area name.now) ≡ true }
    ensures { IfOk result (λ next. (areas : List Area) (items : List Listed) → ArePlaces areas places.now.entries
        → IsMentioned areas items m → IsMentioned areas (items ++ listed.Area name.now ∷ []) next) }
{
    let mut next = m;
    if next.seen.contains_key(name) {
        return Ok(next);
    }
    let Some(place) = places.get(name) else {
        unreachable!()
    };
    next.areas.push(*place)?;
    next.seen.insert(*name, ())?;
    Ok(next)
}

/// With one item more.
fn with_item(places: &PlaceTable, m: Mentioned, item: &Listed) -> Result<Mentioned, Memory>
    requires { is_placed places.now.entries item.now ≡ true }
    ensures { IfOk result (λ next. (areas : List Area) (items : List Listed) → ArePlaces areas places.now.entries
        → IsMentioned areas items m → IsMentioned areas (items ++ item.now ∷ []) next) }
{
    match item {
        Listed::Locs(locs) => Ok(Mentioned {
            locs: m.locs.union(*locs),
            areas: m.areas,
            seen: m.seen,
        }),
        Listed::Area(name) => with_area(places, m, name),
    }
}

/// With these items.
fn with_items(places: &PlaceTable, m: Mentioned, items: &[Listed]) -> Result<Mentioned, Memory>
    requires { list_all (is_placed places.now.entries) items.now ≡ true }
    ensures { IfOk result (λ next. (areas : List Area) (above : List Listed) → ArePlaces areas places.now.entries
        → IsMentioned areas above m → IsMentioned areas (above ++ items.now) next) }
{
    let mut all = m;
    for item in items {
        all = with_item(places, all, item)?;
    }
    Ok(all)
}

/// What lines say to be read or changed.
pub(crate) fn lists(
    alloc: Global,
    places: &PlaceTable,
    access: Access,
    lines: &[Entry<'_>],
) -> Result<Lists, Memory>
    requires { AllByRecursion (IsPlacedLine places.now.entries access) (entries_of lines.now) }
    ensures { IfOk result (λ lists. (areas : List Area) → ArePlaces areas places.now.entries
        → AreLists areas (named_in (listed_by access) (entries_of lines.now)) lists) }
{
    let mut all = Mentioned {
        locs: Locs::empty(),
        areas: Vec::new(alloc),
        seen: IndexMap::new(alloc),
    };
    for e in lines {
        all = with_items(places, all, listed_at(access, e))?;
    }
    Ok(Lists {
        locs: all.locs,
        areas: Places::from_vec(all.areas),
    })
}
