ghost use Rattle.std.specs.Prelude.{◌≡◌, ◌<◌, ◌≤ℤ◌, ℕ, pos, IfOk, length};
ghost use Rattle.sp_graph.specs.SoundUnits.{IsSoundOf};
ghost use Rattle.sp_graph.specs.Structure.{IsStructured};
ghost use Rattle.sp_struct.specs.code.Depths.{depth_at};
ghost use Rattle.sp_struct.specs.code.Kept.{AreNaturals};
ghost use Rattle.sp_struct.specs.code.Levels.{AreLevels};

use crate::stack::Levels;
use sp_base::{Memory, Seq};
use sp_graph::{RoutineDepths, Sound};
use sp_prog::Unit;
use std::alloc::Global;

/// A depth that isn't negative.
fn natural(depth: i64) -> u32
    requires low { pos 0 ≤ℤ depth }
    requires high { depth ≤ℤ pos 131072 }
    ensures { pos result ≡ depth }
{
    depth as u32
}

/// The depths of a routine's instructions, where none is negative.
fn depths_of(alloc: Global, levels: &Levels) -> Result<RoutineDepths, Memory>
    requires low { (k : ℕ) → k < length levels.now.depths.items → pos 0 ≤ℤ depth_at levels.now.depths.items k }
    requires high { (k : ℕ) → k < length levels.now.depths.items → depth_at levels.now.depths.items k ≤ℤ pos 131072 }
    ensures { IfOk result (AreNaturals levels.now.depths.items (length levels.now.depths.items)) }
{
    let mut depths = Vec::with_capacity(alloc, levels.depths.len())?;
    'places: for at in 0..levels.depths.len() {
        depths.push(natural(levels.depths[at]))?;
    }
    Ok(Seq::from_vec(depths))
}

/// The depths of all instructions, where no rule is broken.
pub fn sound_of(alloc: Global, unit: &Unit, all: &[Levels]) -> Result<Sound, Memory>
    requires structured { IsStructured unit.now }
    requires levels { AreLevels unit.now all.now }
    ensures { IfOk result (IsSoundOf unit.now) }
{
    let routines = unit.routines.as_slice();
    let mut depths = Vec::with_capacity(alloc, routines.len())?;
    'routines: for place in 0..routines.len() {
        let given = depths_of(alloc, &all[place])?;
        depths.push(given)?;
    }
    Ok(Sound {
        depths: Seq::from_vec(depths),
    })
}
