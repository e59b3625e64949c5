ghost use Rattle.std.specs.Prelude.{IfOk};
ghost use Rattle.sp_struct.specs.code.Levels.{AreLevels};

use crate::stack::{Levels, find_levels};
use sp_base::Memory;
use sp_graph::graph_of;
use sp_prog::Unit;
use std::alloc::Global;

/// The depths of the instructions of all routines.
pub fn all_levels(alloc: Global, unit: &Unit) -> Result<Vec<Levels>, Memory>
    ensures { IfOk result (λ all. AreLevels unit.now all.items) }
{
    let routines = unit.routines.as_slice();
    let mut all = Vec::with_capacity(alloc, routines.len())?;
    'routines: for place in 0..routines.len() {
        let code = routines[place].code.as_slice();
        let graph = graph_of(alloc, unit, place)?;
        let _last = code[code.len() - 1].addr;
        let levels = find_levels(alloc, &graph, code)?;
        all.push(levels)?;
    }
    Ok(all)
}
