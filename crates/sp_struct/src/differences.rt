ghost use Rattle.std.specs.Prelude.{◌≡◌, ◌≢◌, ◌<◌, ◌≤◌, ◌⊎◌, ◌+◌, ◌+ℤ◌, ◌≤ℤ◌, pos, ℕ, true, IfOk, IfSome, IfNone, None, Some, length, slice_get};
ghost use Rattle.sp_graph.specs.Depths.{effect};
ghost use Rattle.sp_graph.specs.Graph.{InGraph};
ghost use Rattle.sp_graph.specs.Least.{Successor};
ghost use Rattle.sp_graph.specs.Structure.{DiffersInDepth};
ghost use Rattle.sp_struct.specs.Kinds.{IsLowestDifference};
ghost use Rattle.sp_struct.specs.code.Depths.{depth_at, is_seen};
ghost use Rattle.sp_struct.specs.code.Gaps.{NextGap, NoNextGap, HasGap, HasNoGap, LowestGap, line_of};
ghost use Rattle.sp_struct.specs.code.Levels.{AreLevels};
ghost use Rattle.sp_struct.specs.code.Lowest.{lower};

use crate::breadth::successors;
use crate::rules::returns;
use crate::stack::{Levels, deeper};
use sp_base::{Line, Memory};
use sp_graph::{Node, control_of, graph_of};
use sp_prog::{Stmt, Unit};
use std::alloc::Global;

/// Two depths that differ: that which an instruction leaves, and that which is right.
#[derive(Clone, Copy, Debug, PartialEq, Eq)]
pub struct Gap {
    pub after: i64,
    pub other: i64,
}

/// Two depths that differ, and the line of the instruction.
#[derive(Clone, Copy, Debug, PartialEq, Eq)]
pub struct Difference {
    pub line: Line,
    pub after: i64,
    pub other: i64,
}

/// The depth of an instruction, where there is one and its depth is another.
fn other_depth(levels: &Levels, to: Option<usize>, after: i64) -> Option<i64>
    requires { (t : ℕ) → to ≡ Some t → t < length levels.now.depths.items }
    ensures some { IfSome result (λ d. (t : ℕ) × (to ≡ Some t) × (depth_at levels.now.depths.items t ≡ d) × (d ≢ after)) }
    ensures none { IfNone result ((t : ℕ) → to ≡ Some t → depth_at levels.now.depths.items t ≡ after) }
{
    match to {
        Some(to) => {
            let depth = levels.depths[to];
            if depth == after { None } else { Some(depth) }
        }
        None => None,
    }
}

/// The depth of the lowest successor whose depth is another.
fn next_depth(graph: &[Node], levels: &Levels, at: usize, after: i64) -> Option<i64>
    requires { (to : ℕ) → Successor graph.now at to → to < length levels.now.depths.items }
    ensures some { IfSome result (λ other. NextGap graph.now levels.now.depths.items at after other) }
    ensures none { IfNone result (NoNextGap graph.now levels.now.depths.items at after) }
{
    let pair = successors(graph, at);
    let low = other_depth(levels, pair.low, after);
    if low.is_some() {
        return low;
    }
    other_depth(levels, pair.high, after)
}

/// Two depths that differ at an instruction: at a return, or else at a successor.
fn gap_at(graph: &[Node], levels: &Levels, at: usize, stmt: &Stmt) -> Option<Gap>
    requires seen { at < length levels.now.reached.items }
    requires depths { at < length levels.now.depths.items }
    requires inside { (to : ℕ) → Successor graph.now at to → to < length levels.now.depths.items }
    requires low { is_seen levels.now.reached.items at ≡ true → pos 0 ≤ℤ (depth_at levels.now.depths.items at +ℤ pos 131072) }
    requires high { is_seen levels.now.reached.items at ≡ true → depth_at levels.now.depths.items at ≤ℤ pos 131072 }
    ensures some { IfSome result (λ gap. HasGap graph.now levels.now.reached.items levels.now.depths.items at stmt.now gap.after gap.other) }
    ensures none { IfNone result (HasNoGap graph.now levels.now.reached.items levels.now.depths.items at stmt.now) }
{
    if !levels.reached[at] {
        return None;
    }
    let depth = levels.depths[at];
    if returns(control_of(&stmt.instr)) && depth != 0 {
        return Some(Gap {
            after: depth,
            other: 0,
        });
    }
    let after = deeper(stmt, depth);
    match next_depth(graph, levels, at, after) {
        Some(other) => Some(Gap { after, other }),
        None => None,
    }
}

/// The one on the lower line.
fn lower_difference(best: Option<Difference>, line: Line, gap: Gap) -> Option<Difference>
    ensures line { line_of result ≡ lower (line_of best) line }
    ensures either { (result ≡ best) ⊎ (result ≡ Some (record { line = line; after = gap.after; other = gap.other })) }
{
    let found = Difference {
        line,
        after: gap.after,
        other: gap.other,
    };
    match best {
        Some(old) => {
            if line.0 < old.line.0 {
                Some(found)
            } else {
                Some(old)
            }
        }
        None => Some(found),
    }
}

/// The lowest line on which depths differ at an instruction of this routine, or of one before it.
fn differences_in(
    alloc: Global,
    unit: &Unit,
    all: &[Levels],
    place: usize,
    so_far: Option<Difference>,
) -> Result<Option<Difference>, Memory>
    requires place { place < length unit.now.routines }
    requires levels { AreLevels unit.now all.now }
    requires so_far { LowestGap unit.now place 0 so_far }
    ensures { IfOk result (LowestGap unit.now (place + 1) 0) }
{
    let routine = &unit.routines.as_slice()[place];
    let code = routine.code.as_slice();
    let levels = &all[place];
    let graph = graph_of(alloc, unit, place)?;
    let mut best = so_far;
    'places: for at in 0..code.len() {
        let stmt = &code[at];
        if let Some(gap) = gap_at(&graph, levels, at, stmt) {
            best = lower_difference(best, stmt.line, gap);
        }
    }
    Ok(best)
}

/// The lowest line on which depths differ.
pub fn lowest_difference(
    alloc: Global,
    unit: &Unit,
    all: &[Levels],
) -> Result<Option<Difference>, Memory>
    requires { AreLevels unit.now all.now }
    ensures { IfOk result (IsLowestDifference unit.now) }
{
    let mut best = None;
    'routines: for place in 0..unit.routines.as_slice().len() {
        best = differences_in(alloc, unit, all, place, best)?;
    }
    Ok(best)
}
