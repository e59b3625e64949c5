ghost use Rattle.std.specs.Prelude.{◌≡◌, ◌<◌, ◌≤◌, slice_get};
ghost use Rattle.sp_flow.specs.code.Least.{IsCovered, IsCoveredBy, IsEndAfter, IsEndAt, IsLowestFree};
ghost use Rattle.sp_prog.specs.Rules.{IsInArea};

use sp_prog::Area;

/// The end of an area, where it has a cell.
fn end_after(addr: u16, len: u16, cell: u32) -> Option<u32>
    ensures { IsEndAfter addr len cell result }
{
    let end = u32::from(addr) + u32::from(len);
    if u32::from(addr) <= cell && cell < end {
        Some(end)
    } else {
        None
    }
}

/// The end of an area of this place, where it has a cell.
fn end_at(areas: &[Area], place: usize, cell: u32) -> Option<u32>
    ensures { IsEndAt (slice_get areas.now place) cell result }
{
    match areas.get(place) {
        Some(area) => end_after(area.addr, area.len, cell),
        None => None,
    }
}

/// Up to where the cells from this one on are of one of these areas.
fn covered_until(areas: &[Area], places: &[usize], cell: u32) -> Option<u32>
    ensures { IsCovered areas.now places.now cell result }
{
    'places: for at in 0..places.len() {
        if let Some(end) = end_at(areas, places[at], cell) {
            return Some(end);
        }
    }
    None
}

/// Up to where the cells from this one on are of an area of either list.
pub fn covered_by(areas: &[Area], one: &[usize], other: &[usize], cell: u32) -> Option<u32>
    ensures { IsCoveredBy areas.now one.now other.now cell result }
{
    match covered_until(areas, one, cell) {
        Some(end) => Some(end),
        None => covered_until(areas, other, cell),
    }
}

/// The lowest cell from the first one up to an end that is in no area of two lists.
pub fn lowest_free(
    areas: &[Area],
    one: &[usize],
    other: &[usize],
    first: u32,
    end: u32,
) -> Option<u32>
    ensures { IsLowestFree areas.now one.now other.now first end result }
{
    let mut cell = first;
    'cells: while cell < end {
        match covered_by(areas, one, other, cell) {
            Some(next) => cell = next,
            None => return Some(cell),
        }
    }
    None
}
