ghost use Rattle.std.specs.Prelude.{◌≡◌};
ghost use Rattle.sp_graph.specs.Structure.{PassesDepth, PassesRegion};
ghost use Rattle.sp_struct.specs.Kinds.{IsLowestLine};
ghost use Rattle.sp_struct.specs.code.Headers.{passes_region};
ghost use Rattle.sp_struct.specs.code.Levels.{AreLevels};

use crate::finding::{lower, lowest};
use crate::rules::Rule;
use crate::stack::Levels;
use sp_base::Line;
use sp_prog::{Routine, Unit};

/// Whether a routine is a start routine whose depth passes the stack region.
fn passes_region(unit: &Unit, routine: &Routine) -> bool
    ensures { result ≡ passes_region unit.now routine.now }
{
    routine.start && u32::from(unit.last) + 1 < u32::from(unit.first) + u32::from(routine.depth)
}

/// The lowest header line of a start routine whose depth passes the stack region.
pub fn lowest_header(unit: &Unit) -> Option<Line>
    ensures { IsLowestLine (PassesRegion unit.now) result }
{
    let routines = unit.routines.as_slice();
    let mut best = None;
    'routines: for place in 0..routines.len() {
        let routine = &routines[place];
        if passes_region(unit, routine) {
            best = lower(best, routine.line);
        }
    }
    best
}

/// The lowest line on which a routine's depth or the stack region is passed.
pub fn lowest_over_depth(unit: &Unit, all: &[Levels]) -> Option<Line>
    requires { AreLevels unit.now all.now }
    ensures { IsLowestLine (PassesDepth unit.now) result }
{
    let inside = lowest(unit, all, Rule::OverDepth);
    match lowest_header(unit) {
        Some(line) => lower(inside, line),
        None => inside,
    }
}
