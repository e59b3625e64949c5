ghost use Rattle.std.specs.Prelude.{◌≡◌, ◌<◌, ℕ, All, IfOk, IsTrue, length, map, slice_get, Some};
ghost use Rattle.std.specs.List.Sorted.{IsStrictlyIncreasing};
ghost use Rattle.sp_flow.specs.Routes.{changes_at, changes_by, sets_by, way_on, ways_by, ways_of_code, ways_of};
ghost use Rattle.sp_flow.specs.Unset.{Leads};
ghost use Rattle.sp_graph.specs.Routines.{graph_of_code};
ghost use Rattle.sp_graph.specs.declared.walk.Step.{Step};
ghost use Rattle.sp_isa.specs.Code.{valid};
ghost use Rattle.sp_prog.specs.Rules.{address_of};
ghost use Rattle.sp_prog.specs.declared.routine.Stmt.{Stmt};

use crate::{Way, Ways};
use bitflags::Flags;
use sp_base::{Locs, Memory};
use sp_graph::{Branch, Control, Node, control_of, graph_of, routine_at};
use sp_isa::writes;
use sp_prog::{Routine, Stmt, Unit};
use std::alloc::Global;

/// The locations that the routine at an address changes.
fn changes_at(routines: &[Routine], address: u16) -> Locs
    requires { IsStrictlyIncreasing (map address_of routines.now) }
    ensures { result ≡ changes_at routines.now address }
{
    match routine_at(routines, address) {
        Some(callee) => routines[callee].changes.locs,
        None => Locs::empty(),
    }
}

/// What a taken call sets.
fn changes_by(routines: &[Routine], control: Control, taken: bool) -> Locs
    requires { IsStrictlyIncreasing (map address_of routines.now) }
    ensures { result ≡ changes_by routines.now control taken }
{
    match control {
        Control::Call(address) => changes_at(routines, address),
        Control::CallIf(address) => {
            if taken {
                changes_at(routines, address)
            } else {
                Locs::empty()
            }
        }
        _ => Locs::empty(),
    }
}

/// What an instruction sets by a choice.
fn sets_by(routines: &[Routine], stmt: &Stmt, taken: bool) -> Locs
    requires rising { IsStrictlyIncreasing (map address_of routines.now) }
    requires valid { IsTrue (valid stmt.now.instr) }
    ensures { result ≡ sets_by routines.now stmt.now taken }
{
    writes(&stmt.instr).union(changes_by(routines, control_of(&stmt.instr), taken))
}

/// A branch with what is set on it.
fn way_on(sets: Locs, branch: Option<Branch>) -> Option<Way>
    ensures { result ≡ way_on sets branch }
{
    match branch {
        Some(branch) => Some(Way {
            sets: sets.bits(),
            to: branch.to,
        }),
        None => None,
    }
}

/// The branches of an instruction with what is set on each.
fn ways_by(routines: &[Routine], stmt: &Stmt, node: Node) -> Ways
    requires rising { IsStrictlyIncreasing (map address_of routines.now) }
    requires valid { IsTrue (valid stmt.now.instr) }
    ensures { result ≡ ways_by routines.now stmt.now node }
{
    Ways {
        untaken: way_on(sets_by(routines, stmt, false), node.untaken),
        taken: way_on(sets_by(routines, stmt, true), node.taken),
    }
}

/// What walks see of the instruction at a place.
fn node_at(graph: &[Node], at: usize) -> Node
    requires { at < length graph.now }
    ensures { slice_get graph.now at ≡ Some result }
{
    graph[at]
}

/// The ways on from the instructions of a graph.
fn ways_of_code(
    alloc: Global,
    routines: &[Routine],
    code: &[Stmt],
    graph: &[Node],
) -> Result<Vec<Ways>, Memory>
    requires rising { IsStrictlyIncreasing (map address_of routines.now) }
    requires valid { All (λ (s : Stmt). IsTrue (valid s.instr)) code.now }
    requires graph { graph.now ≡ graph_of_code routines.now code.now }
    ensures ways { IfOk result (λ ways. ways.items ≡ ways_of_code routines.now code.now) }
    ensures whole { IfOk result (λ ways. (step : Step) (to : ℕ) → Leads ways.items step to → to < length ways.items) }
    ensures size { IfOk result (λ ways. length ways.items ≡ length code.now) }
{
    let mut ways = Vec::with_capacity(alloc, code.len())?;
    'places: for at in 0..code.len() {
        ways.push(ways_by(routines, &code[at], node_at(graph, at)))?;
    }
    Ok(ways)
}

/// The ways on from the instructions of a routine of a unit.
pub fn ways_of(alloc: Global, unit: &Unit, routine: usize) -> Result<Vec<Ways>, Memory>
    requires { routine < length unit.now.routines }
    ensures ways { IfOk result (λ ways. ways.items ≡ ways_of unit.now routine) }
    ensures whole { IfOk result (λ ways. (step : Step) (to : ℕ) → Leads ways.items step to → to < length ways.items) }
    ensures some { IfOk result (λ ways. 0 < length ways.items) }
{
    let graph = graph_of(alloc, unit, routine)?;
    let routines = unit.routines.as_slice();
    let ways = ways_of_code(
        alloc,
        routines,
        routines[routine].code.as_slice(),
        graph.as_slice(),
    )?;
    Ok(ways)
}
