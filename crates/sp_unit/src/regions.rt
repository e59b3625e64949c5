//! Regions of memory that meet.
ghost use Rattle.std.specs.Prelude.{◌≡◌, ◌≤◌};
ghost use Rattle.sp_unit.specs.Faults as faults;

use sp_base::Image;
use sp_prog::Area;

/// Whether the image has a byte from one address through another.
#[tactic(auto, using(crate::proofs::RegionLemmas::meets_none))]
pub(crate) fn meets(image: &Image, first: u32, last: u32) -> bool
    ensures { result ≡ faults.meets image.now first last }
{
    match image.next(first) {
        Some((a, _)) => u32::from(a) <= last,
        None => false,
    }
}

/// Whether a stack region is none, reaches too far or meets the image.
pub(crate) fn stack_clashes(image: &Image, first: u16, last: u16) -> bool
    ensures { result ≡ faults.stack_clashes image.now first last }
{
    last < first || 65_534 < last || meets(image, u32::from(first), u32::from(last))
}

/// Whether an area has a cell in the stack region.
pub(crate) fn meets_stack(area: &Area, stack: Option<(u16, u16)>) -> bool
    ensures { result ≡ faults.meets_stack area.now stack }
{
    match stack {
        Some((first, last)) => {
            first <= last
                && area.addr <= last
                && u32::from(first) < u32::from(area.addr) + u32::from(area.len)
        }
        None => false,
    }
}

/// Whether an area has a cell where the image has a byte.
pub(crate) fn meets_image(image: &Image, area: &Area) -> bool
    ensures { result ≡ faults.meets_image image.now area.now }
{
    let first = u32::from(area.addr);
    let len = u32::from(area.len);
    0 < len && meets(image, first, first + len - 1)
}
