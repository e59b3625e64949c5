ghost use Rattle.std.specs.Prelude.{◌≡◌, ◌<◌, ◌↔◌, ℕ, IfOk, IfSome, length, slice_get, slice_index};
ghost use Rattle.sp_flow.specs.Unset.{Has, IsLeftUnset, Leads, way_of, way_at};
ghost use Rattle.sp_flow.specs.code.Spread.{Spreads, Settled};
ghost use Rattle.sp_graph.specs.declared.walk.Step.{Step};

use crate::sets::{both, without};
use crate::{Way, Ways};
use sp_graph::Step;
use std::alloc::{AllocError, Global};

/// The set of all locations.
const ALL: u16 = 0xFFFF;

fn way_at(ways: &[Ways], step: Step) -> Option<Way>
    ensures { result ≡ way_at ways.now step }
{
    match ways.get(step.at) {
        Some(node) => { if step.taken { node.taken } else { node.untaken } }
        None => None,
    }
}

/// Spreads the set of an instruction along one step.
fn spread_by(
    ways: &[Ways],
    sets: &mut Vec<u16>,
    work: &mut Vec<usize>,
    step: Step,
) -> Result<(), AllocError>
    requires size { length sets.old.items ≡ length ways.now }
    requires whole { (to : ℕ) → Leads ways.now step to → to < length ways.now }
    ensures spreads { IfOk result (λ u. Spreads ways.now sets.old.items work.old.items sets.new.items work.new.items) }
    ensures settled { IfOk result (λ u. Settled ways.now sets.new.items work.new.items step) }
{
    if let Some(way) = way_at(ways, step) {
        if let Some(to) = way.to {
            let set = sets[to];
            let more = both(set, without(sets[step.at], way.sets));
            if more != set {
                sets[to] = more;
                work.push(to)?;
            }
        }
    }
    Ok(())
}

/// For each instruction the locations that some walk from the entry leaves unset before it.
pub fn unset(alloc: Global, ways: &[Ways]) -> Result<Vec<u16>, AllocError>
    requires some { 0 < length ways.now }
    requires whole { (step : Step) (to : ℕ) → Leads ways.now step to → to < length ways.now }
    ensures members { IfOk result (λ sets. (x at : ℕ) → x < 16 → Has x (slice_index sets.items at) ↔ IsLeftUnset ways.now x at) }
    ensures size { IfOk result (λ sets. length sets.items ≡ length ways.now) }
{
    let mut sets = vec![in alloc; 0u16; ways.len()]?;
    sets[0] = ALL;
    let mut work = Vec::new(alloc);
    work.push(0usize)?;
    while let Some(at) = work.pop() {
        spread_by(ways, &mut sets, &mut work, Step { at, taken: false })?;
        spread_by(ways, &mut sets, &mut work, Step { at, taken: true })?;
    }
    Ok(sets)
}
