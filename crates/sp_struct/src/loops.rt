ghost use Rattle.std.specs.Prelude.{◌≡◌, ◌<◌, ◌≤◌, ◌+◌, true, false, IfOk, Some, length};
ghost use Rattle.sp_base.specs.declared.line.Line.{Line};
ghost use Rattle.sp_graph.specs.Structure.{IsUncut};
ghost use Rattle.sp_struct.specs.Kinds.{IsLowestLine};
ghost use Rattle.sp_struct.specs.code.Loops.{Took, UncutHere};
ghost use Rattle.sp_struct.specs.code.Lowest.{LowestSoFar};

use crate::cycles::uncut;
use crate::finding::lower;
use crate::turned::is_highest;
use sp_base::{Line, Memory};
use sp_graph::{Node, graph_of};
use sp_prog::Unit;
use std::alloc::Global;

/// Whether a line as low is known.
fn is_known(best: Option<Line>, line: Line) -> bool
    ensures { result ≡ true → (b : Line) × (best ≡ Some b) × (b.0 ≤ line.0) }
{
    match best {
        Some(found) => found.0 <= line.0,
        None => false,
    }
}

/// Takes the line of an instruction that is the highest of a cycle.
fn take(
    alloc: Global,
    graph: &[Node],
    at: usize,
    line: Line,
    best: Option<Line>,
) -> Result<Option<Line>, Memory>
    requires { at < length graph.now }
    ensures { IfOk result (λ next. Took graph.now at line best next) }
{
    if is_known(best, line) {
        return Ok(best);
    }
    if is_highest(alloc, graph, at)? {
        Ok(lower(best, line))
    } else {
        Ok(best)
    }
}

/// The lowest line of such an instruction of this routine, or of one before it.
fn loops_in(
    alloc: Global,
    unit: &Unit,
    place: usize,
    so_far: Option<Line>,
) -> Result<Option<Line>, Memory>
    requires place { place < length unit.now.routines }
    requires so_far { LowestSoFar (UncutHere unit.now) place 0 so_far }
    ensures { IfOk result (LowestSoFar (UncutHere unit.now) (place + 1) 0) }
{
    let routine = &unit.routines.as_slice()[place];
    let code = routine.code.as_slice();
    let graph = graph_of(alloc, unit, place)?;
    let first = uncut(alloc, &graph)?.unwrap_or(code.len());
    let mut best = so_far;
    'places: for at in first..code.len() {
        let stmt = &code[at];
        best = take(alloc, &graph, at, stmt.line, best)?;
    }
    Ok(best)
}

/// The lowest line of an instruction that is the highest of a cycle without assertions.
pub fn lowest_loop(alloc: Global, unit: &Unit) -> Result<Option<Line>, Memory>
    ensures { IfOk result (IsLowestLine (IsUncut unit.now)) }
{
    let mut best = None;
    'routines: for place in 0..unit.routines.as_slice().len() {
        best = loops_in(alloc, unit, place, best)?;
    }
    Ok(best)
}
