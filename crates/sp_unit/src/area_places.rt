//! The areas of a unit, and their places.
ghost use Rattle.std.specs.Prelude.{◌≡◌, ◌∷◌, [], ◌++◌, List, length, IfOk, OnOk};
ghost use Rattle.sp_note.specs.Parts.{lines_of};
ghost use Rattle.sp_prog.specs.declared.area.Area.{Area};
ghost use Rattle.sp_unit.specs.Faults.{areas_by};
ghost use Rattle.sp_unit.specs.Sources.{value_by};
ghost use Rattle.sp_unit.specs.code.Building.{ArePlaces};

use crate::pushed::with_one;
use crate::tables::area_by;
use indexmap::IndexMap;
use sp_base::{Memory, Name};
use sp_expr::Symbols;
use sp_note::NoteLine;
use sp_prog::Area;
use std::alloc::Global;

/// The places of the areas of a unit, by their names.
pub(crate) type PlaceTable = IndexMap<Name, usize>;

/// The areas that lines declare, in order.
pub(crate) fn all_areas(
    alloc: Global,
    names: &Symbols,
    notes: &[NoteLine],
) -> Result<Vec<Area>, Memory>
    ensures { IfOk result (λ areas. areas.items ≡ areas_by (value_by names.now.entries) (lines_of notes.now)) }
{
    let mut areas = Vec::new(alloc);
    for note in notes {
        areas = with_one(areas, area_by(&note.part, names))?;
    }
    Ok(areas)
}

/// Takes in the place of one more area.
fn add_place(places: &mut PlaceTable, area: &Area, place: usize) -> Result<(), Memory>
    ensures { OnOk result ((above : List Area) → length above ≡ place → ArePlaces above places.old.entries
        → ArePlaces (above ++ area.now ∷ []) places.new.entries) }
{
    places.insert(area.name, place)?;
    Ok(())
}

/// The places of areas.
pub(crate) fn places_of(alloc: Global, areas: &[Area]) -> Result<PlaceTable, Memory>
    ensures { IfOk result (λ places. ArePlaces areas.now places.entries) }
{
    let mut places = PlaceTable::new(alloc);
    for (i, area) in areas.iter().enumerate() {
        add_place(&mut places, area, i)?;
    }
    Ok(places)
}
