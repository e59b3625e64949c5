ghost use Rattle.std.specs.Prelude.{◌≡◌, ◌<◌, ◌⊎◌, IfOk, Some, length};
ghost use Rattle.sp_flow.specs.Flow.{IsBroken, IsFlowing, IsRefusedAt};
ghost use Rattle.sp_flow.specs.code.Counts.{BrokenIn};
ghost use Rattle.sp_flow.specs.code.Faults.{IsFirst};
ghost use Rattle.sp_base.specs.Refused.{Answers, IsComplete};
ghost use Rattle.sp_flow.specs.declared.checking.Flowing.{Flowing};

use crate::FlowRefusal;
use crate::counting::listed_of;
use crate::fault::Fault;
use crate::routine::left_unset;
use crate::statements::count_code;
use sp_base::Memory;
use sp_prog::Unit;
use std::alloc::Global;

/// The first of the rules so far and of those that a routine of a unit breaks.
pub fn count_routine(
    alloc: Global,
    unit: &Unit,
    place: usize,
    so_far: Option<Fault>,
) -> Result<Option<Fault>, Memory>
    requires { place < length unit.now.routines }
    ensures { IfOk result (λ best. IsFirst (λ f. (so_far ≡ Some f) ⊎ BrokenIn unit.now place f) best) }
{
    let sets = left_unset(alloc, unit, place)?;
    let areas = unit.areas.as_slice();
    let routines = unit.routines.as_slice();
    let routine = &routines[place];
    let own = listed_of(routine);
    let code = routine.code.as_slice();
    let best = count_code(areas, routines, &own, code, &sets, so_far);
    Ok(best)
}

/// The first of the rules that a unit breaks.
fn count_all(alloc: Global, unit: &Unit) -> Result<Option<Fault>, Memory>
    ensures { IfOk result (λ best. IsFirst (λ f. IsBroken unit.now f.line.0 f.kind) best) }
{
    let mut best = None;
    'routines: for place in 0..unit.routines.as_slice().len() {
        let next = count_routine(alloc, unit, place, best)?;
        best = next;
    }
    Ok(best)
}

/// That the flow of a unit is right.
#[derive(Clone, Copy, Debug)]
pub struct Flowing {}

/// The answer for the first broken rule, if there is one.
fn answer(unit: &Unit, first: Option<Fault>) -> Result<Flowing, FlowRefusal>
    requires { IsFirst (λ f. IsBroken unit.now f.line.0 f.kind) first }
    ensures { Answers (λ (a : Flowing). IsFlowing unit.now) (IsRefusedAt unit.now) result }
{
    let _ = unit;
    match first {
        Some(fault) => Err(FlowRefusal::At(fault.line, fault.kind)),
        None => Ok(Flowing {}),
    }
}

/// Checks the flow of locations, cells and ports through the routines of a unit. The first broken rule is refused, at its
/// lowest line and there at its first location, lowest cell or lowest port. It asks nothing more of the unit; where the
/// rules on structure hold, each jump and call leads where it should.
pub fn check(alloc: Global, unit: &Unit) -> Result<Flowing, FlowRefusal>
    ensures answers { Answers (λ (a : Flowing). IsFlowing unit.now) (IsRefusedAt unit.now) result }
    ensures complete { IsComplete (λ (a : Flowing). IsFlowing unit.now) (IsRefusedAt unit.now) result }
{
    let first = count_all(alloc, unit)?;
    let told = answer(unit, first);
    told
}
