//! What the conditions of a routine are made from.
ghost use Rattle.std.specs.Prelude.{◌≡◌, All, map, option_map, slice_get};
ghost use Rattle.std.specs.List.Sorted.{IsStrictlyIncreasing};
ghost use Rattle.sp_prog.specs.Rules.{IsUnit, address_of};
ghost use Rattle.sp_conditions.specs.code.Cells.{HasCells};

use sp_prog::{Area, Routine, Stmt, Unit};

/// A routine of a unit, with the depths of its instructions.
#[derive(Clone, Copy)]
pub struct Place<'u> {
    pub unit: &'u Unit,
    pub routine: &'u Routine,
    pub depths: &'u [u32],
}

/// The rules that a unit keeps.
pub fn rules(unit: &Unit)
    ensures { IsUnit unit.now }
{
    let _last = unit.last;
}

/// The routines of a unit.
pub fn routines_of<'u>(unit: &'u Unit) -> &'u [Routine]
    ensures same { result.now ≡ unit.now.routines }
    ensures rising { IsStrictlyIncreasing (map address_of result.now) }
{
    unit.routines.as_slice()
}

/// The areas of a unit.
#[tactic(auto, using(crate::proofs::PlaceLemmas::areas_have_cells))]
pub fn areas_of<'u>(unit: &'u Unit) -> &'u [Area]
    ensures same { result.now ≡ unit.now.areas }
    ensures cells { All HasCells result.now }
{
    unit.areas.as_slice()
}

/// The routine at a place.
pub fn routine_at_place<'u>(routines: &'u [Routine], place: usize) -> Option<&'u Routine>
    ensures { option_map (λ r. r.now) result ≡ slice_get routines.now place }
{
    match routines.get(place) {
        Some(routine) => Some(routine),
        None => None,
    }
}

/// The area at a place.
pub fn area_at(areas: &[Area], place: usize) -> Option<Area>
    ensures { result ≡ slice_get areas.now place }
{
    match areas.get(place) {
        Some(area) => Some(*area),
        None => None,
    }
}

/// The instruction at a place.
pub fn stmt_at<'u>(code: &'u [Stmt], at: usize) -> Option<&'u Stmt>
    ensures { option_map (λ s. s.now) result ≡ slice_get code.now at }
{
    match code.get(at) {
        Some(stmt) => Some(stmt),
        None => None,
    }
}
