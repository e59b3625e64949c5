ghost use Rattle.std.specs.Prelude.{◌≡◌, ◌<◌, ◌+◌, Some, length, map, slice_get, ◌&&◌, pos, int_lt};
ghost use Rattle.std.specs.List.Sorted.{IsStrictlyIncreasing};
ghost use Rattle.sp_prog.specs.Rules.{AreLaidOut, address_of};
ghost use Rattle.sp_prog.specs.declared.routine.Stmt.{Stmt};
ghost use Rattle.sp_struct.specs.Kinds.{IsBroken, IsLowestLine};
ghost use Rattle.sp_graph.specs.Structure.{takes_word};
ghost use Rattle.sp_struct.specs.code.Depths.{depth_at, is_seen};
ghost use Rattle.sp_struct.specs.code.Levels.{AreLevels};
ghost use Rattle.sp_struct.specs.code.Lowest.{lower, Breaks, LowestSoFar};
ghost use Rattle.sp_struct.specs.code.Rules.{breaks, bytes_taken, misuses_pointer, passes};

use crate::rules::{
    Rule, bytes_taken, call_misses, call_target, ends, is_computed, jump_misses, jump_target,
    jumps_to_entry, loaded_pointer, loads_elsewhere, loads_other, moves_pointer, passes, returns,
    takes_word, writes_code,
};
use crate::stack::Levels;
use sp_base::Line;
use sp_graph::control_of;
use sp_prog::{Routine, Stmt, Unit};

/// Whether an instruction breaks the rule on SP.
fn misuses_pointer(unit: &Unit, routine: &Routine, at: usize, stmt: &Stmt) -> bool
    requires { AreLaidOut (address_of routine.now) routine.now.code }
    ensures { result ≡ misuses_pointer unit.now routine.now at stmt.now }
{
    let entry = routine.start && at == 0;
    let loaded = loaded_pointer(&stmt.instr);
    moves_pointer(&stmt.instr)
        || loads_elsewhere(entry, loaded)
        || (entry && loads_other(unit.last + 1, loaded))
        || (routine.start
            && jumps_to_entry(
                routine.code.as_slice(),
                jump_target(control_of(&stmt.instr)),
            ))
}

/// Whether an instruction takes a word where the stack has none of the routine's.
fn pops_return(levels: &Levels, at: usize, stmt: &Stmt) -> bool
    requires seen { at < length levels.now.reached.items }
    requires depths { at < length levels.now.depths.items }
    ensures { result ≡ is_seen levels.now.reached.items at
        && (takes_word stmt.now.instr && int_lt (depth_at levels.now.depths.items at) (pos 2)) }
{
    levels.reached[at] && takes_word(&stmt.instr) && levels.depths[at] < 2
}

/// Whether an instruction takes more of the stack than the routine may.
fn over_depth(unit: &Unit, levels: &Levels, routine: &Routine, at: usize, stmt: &Stmt) -> bool
    requires seen { at < length levels.now.reached.items }
    requires depths { at < length levels.now.depths.items }
    ensures { result ≡ is_seen levels.now.reached.items at
        && passes (bytes_taken unit.now.routines stmt.now.instr) routine.now.depth (depth_at levels.now.depths.items at) }
{
    let taken = bytes_taken(unit.routines.as_slice(), &stmt.instr);
    levels.reached[at] && passes(taken, routine.depth, levels.depths[at])
}

/// Whether an instruction breaks a rule.
fn breaks(
    unit: &Unit,
    rule: Rule,
    levels: &Levels,
    routine: &Routine,
    at: usize,
    stmt: &Stmt,
) -> bool
    requires laid_out { AreLaidOut (address_of routine.now) routine.now.code }
    requires at { at < length routine.now.code }
    requires seen { at < length levels.now.reached.items }
    requires depths { at < length levels.now.depths.items }
    ensures { result ≡ breaks rule unit.now levels.now.reached.items levels.now.depths.items routine.now at stmt.now }
{
    let code = routine.code.as_slice();
    let control = control_of(&stmt.instr);
    match rule {
        Rule::JumpOut => jump_misses(code, jump_target(control)),
        Rule::FallsOff => at + 1 == code.len() && !ends(control),
        Rule::CallOut => call_misses(unit.routines.as_slice(), call_target(control)),
        Rule::Computed => is_computed(&stmt.instr),
        Rule::StackPointer => misuses_pointer(unit, routine, at, stmt),
        Rule::Unreached => !levels.reached[at],
        Rule::PopsReturn => pops_return(levels, at, stmt),
        Rule::OverDepth => over_depth(unit, levels, routine, at, stmt),
        Rule::ReturnInStart => routine.start && returns(control),
        Rule::CodeWritten => writes_code(&unit.image, &stmt.instr),
    }
}

/// The lower one of the lines.
pub fn lower(best: Option<Line>, line: Line) -> Option<Line>
    ensures { result ≡ lower best line }
{
    match best {
        Some(found) => {
            if line.0 < found.0 {
                Some(line)
            } else {
                Some(found)
            }
        }
        None => Some(line),
    }
}

/// The lowest line on which an instruction of this routine, or of one before it, breaks a rule.
fn lowest_in(
    unit: &Unit,
    all: &[Levels],
    rule: Rule,
    place: usize,
    so_far: Option<Line>,
) -> Option<Line>
    requires place { place < length unit.now.routines }
    requires levels { AreLevels unit.now all.now }
    requires so_far { LowestSoFar (Breaks unit.now all.now rule) place 0 so_far }
    ensures { LowestSoFar (Breaks unit.now all.now rule) (place + 1) 0 result }
{
    let routine = &unit.routines.as_slice()[place];
    let code = routine.code.as_slice();
    let levels = &all[place];
    let mut best = so_far;
    'places: for at in 0..code.len() {
        let stmt = &code[at];
        if breaks(unit, rule, levels, routine, at, stmt) {
            best = lower(best, stmt.line);
        }
    }
    best
}

/// The lowest line on which an instruction breaks a rule.
pub fn lowest(unit: &Unit, all: &[Levels], rule: Rule) -> Option<Line>
    requires { AreLevels unit.now all.now }
    ensures { IsLowestLine (IsBroken unit.now rule) result }
{
    let mut best = None;
    'routines: for place in 0..unit.routines.as_slice().len() {
        best = lowest_in(unit, all, rule, place, best);
    }
    best
}
