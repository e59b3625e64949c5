ghost use Rattle.std.specs.Prelude.{◌<◌, ◌↔◌, ℕ, IfOk, length, slice_index};
ghost use Rattle.sp_base.specs.declared.location.Loc.{Loc};
ghost use Rattle.sp_base.specs.Locs.{place};
ghost use Rattle.sp_flow.specs.Routes.{ways_of};
ghost use Rattle.sp_flow.specs.Unset.{Has, IsLeftUnset};

use crate::routes::ways_of;
use crate::spread::unset;
use sp_base::Memory;
use sp_prog::Unit;
use std::alloc::Global;

/// For each instruction of a routine the locations that some walk from the entry leaves unset before it, as the bits of
/// their set.
pub fn left_unset(alloc: Global, unit: &Unit, routine: usize) -> Result<Vec<u16>, Memory>
    requires { routine < length unit.now.routines }
    ensures { IfOk result (λ sets. (x : Loc) (at : ℕ) →
        Has (place x) (slice_index sets.items at) ↔ IsLeftUnset (ways_of unit.now routine) (place x) at) }
{
    let ways = ways_of(alloc, unit, routine)?;
    let sets = unset(alloc, &ways)?;
    Ok(sets)
}
