ghost use Rattle.std.specs.Prelude.{◌≡◌, ◌<◌, ◌≤◌, ◌+◌, ◌⊎◌, ℕ, Contains, Some, slice_get};
ghost use Rattle.sp_flow.specs.code.Least.{CellAt, HasCell, HasEither, IsFree, IsLeast, IsLowestFree};
ghost use Rattle.sp_prog.specs.declared.area.Area.{Area};

use crate::cells::lowest_free;
use crate::direct::lower;
use sp_prog::Area;

/// The lowest cell of an area that is in no area of two lists.
fn lowest_of_area(
    areas: &[Area],
    one: &[usize],
    other: &[usize],
    addr: u16,
    len: u16,
) -> Option<u16>
    requires { addr + len ≤ 65536 }
    ensures { IsLowestFree areas.now one.now other.now addr (addr + len) result }
{
    let first = u32::from(addr);
    match lowest_free(areas, one, other, first, first + u32::from(len)) {
        Some(cell) => Some(cell as u16),
        None => None,
    }
}

/// The area of a place.
fn area_at(areas: &[Area], place: usize) -> Option<Area>
    ensures { result ≡ slice_get areas.now place }
{
    match areas.get(place) {
        Some(area) => Some(*area),
        None => None,
    }
}

/// The lower of the lowest so far and of the lowest cell of an area of this place that is in no area of two lists.
fn with_area(
    areas: &[Area],
    one: &[usize],
    other: &[usize],
    best: Option<u16>,
    place: usize,
) -> Option<u16>
    requires { (at : ℕ) (area : Area) → slice_get areas.now at ≡ Some area → area.addr + area.len ≤ 65536 }
    ensures { IsLeast (λ n. (best ≡ Some n) ⊎ (CellAt (slice_get areas.now place) n × (HasEither areas.now one.now other.now n → ⊥))) result }
{
    match area_at(areas, place) {
        Some(area) => match lowest_of_area(areas, one, other, area.addr, area.len) {
            Some(cell) => lower(best, cell),
            None => best,
        },
        None => best,
    }
}

/// The lowest cell of those so far and of the areas of a list that is in no area of two lists.
pub fn lowest_listed(
    areas: &[Area],
    one: &[usize],
    other: &[usize],
    so_far: Option<u16>,
    listed: &[usize],
) -> Option<u16>
    requires { (at : ℕ) (area : Area) → slice_get areas.now at ≡ Some area → area.addr + area.len ≤ 65536 }
    ensures { IsLeast (λ n. (so_far ≡ Some n) ⊎ (HasCell areas.now listed.now n × (HasEither areas.now one.now other.now n → ⊥))) result }
{
    let mut best = so_far;
    'places: for at in 0..listed.len() {
        best = with_area(areas, one, other, best, listed[at]);
    }
    best
}
