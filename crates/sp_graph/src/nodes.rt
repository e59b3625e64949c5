ghost use Rattle.std.specs.Prelude.{◌≡◌, ◌<◌, ℕ, IfOk, length, map, Some, slice_get};
ghost use Rattle.std.specs.List.Sorted.{IsStrictlyIncreasing};
ghost use Rattle.sp_graph.specs.Graph.{InGraph};
ghost use Rattle.sp_graph.specs.Routines.{has_notes, end_of_call, untaken_by, taken_by, node_of, graph_of_code, graph_of};
ghost use Rattle.sp_prog.specs.Rules.{AreLaidOut, address_of, first_address};

use crate::control::{Control, accesses, control_of};
use crate::places::{next_of, place_of, routine_at};
use crate::{Branch, End, Node};
use sp_base::Memory;
use sp_prog::{Noteds, Routine, Stmt, Unit};
use std::alloc::Global;

/// A way on without an end.
fn onward(to: Option<usize>) -> Option<Branch>
    ensures { result ≡ Some (record { end = None; to = to }) }
{
    Some(Branch { end: None, to })
}

/// Whether there are annotations.
fn has_notes(notes: &Noteds) -> bool
    ensures { result ≡ has_notes notes.now }
{
    !notes.as_slice().is_empty()
}

/// What a taken call of an address ends, if its callee has a precondition.
fn end_of_call(routines: &[Routine], address: u16) -> Option<End>
    requires { IsStrictlyIncreasing (map address_of routines.now) }
    ensures { result ≡ end_of_call routines.now address }
{
    match routine_at(routines, address) {
        Some(callee) => {
            if has_notes(&routines[callee].pre) {
                Some(End::Call)
            } else {
                None
            }
        }
        None => None,
    }
}

/// The way on where nothing is taken.
fn untaken_by(routines: &[Routine], code: &[Stmt], at: usize, control: Control) -> Option<Branch>
    requires rising { IsStrictlyIncreasing (map address_of routines.now) }
    requires laid_out { AreLaidOut (first_address code.now) code.now }
    requires at { at < length code.now }
    ensures { result ≡ untaken_by routines.now code.now at control }
{
    match control {
        Control::Next => onward(next_of(code, at)),
        Control::Jump(address) => onward(place_of(code, address)),
        Control::JumpIf(_) => onward(next_of(code, at)),
        Control::Call(address) => Some(Branch {
            end: end_of_call(routines, address),
            to: next_of(code, at),
        }),
        Control::CallIf(_) => onward(next_of(code, at)),
        Control::Return => Some(Branch {
            end: Some(End::Return),
            to: None,
        }),
        Control::ReturnIf => onward(next_of(code, at)),
        Control::Halt => None,
    }
}

/// The way on where a condition holds.
fn taken_by(routines: &[Routine], code: &[Stmt], at: usize, control: Control) -> Option<Branch>
    requires rising { IsStrictlyIncreasing (map address_of routines.now) }
    requires laid_out { AreLaidOut (first_address code.now) code.now }
    requires at { at < length code.now }
    ensures { result ≡ taken_by routines.now code.now at control }
{
    match control {
        Control::JumpIf(address) => onward(place_of(code, address)),
        Control::CallIf(address) => Some(Branch {
            end: end_of_call(routines, address),
            to: next_of(code, at),
        }),
        Control::ReturnIf => Some(Branch {
            end: Some(End::Return),
            to: None,
        }),
        _ => None,
    }
}

/// What walks see of an instruction.
fn node_of(routines: &[Routine], code: &[Stmt], at: usize) -> Node
    requires rising { IsStrictlyIncreasing (map address_of routines.now) }
    requires laid_out { AreLaidOut (first_address code.now) code.now }
    requires at { at < length code.now }
    ensures { (stmt : Stmt) → slice_get code.now at ≡ Some stmt → result ≡ node_of routines.now code.now at stmt }
{
    let stmt = &code[at];
    let control = control_of(&stmt.instr);
    Node {
        asserted: has_notes(&stmt.asserts),
        access: accesses(&stmt.instr),
        untaken: untaken_by(routines, code, at, control),
        taken: taken_by(routines, code, at, control),
    }
}

/// The graph of instructions among the routines of a unit.
fn graph_of_code(alloc: Global, routines: &[Routine], code: &[Stmt]) -> Result<Vec<Node>, Memory>
    requires rising { IsStrictlyIncreasing (map address_of routines.now) }
    requires laid_out { AreLaidOut (first_address code.now) code.now }
    ensures graph { IfOk result (λ graph. graph.items ≡ graph_of_code routines.now code.now) }
    ensures whole { IfOk result (λ graph. InGraph graph.items) }
    ensures size { IfOk result (λ graph. length graph.items ≡ length code.now) }
{
    let mut graph = Vec::with_capacity(alloc, code.len())?;
    'places: for at in 0..code.len() {
        graph.push(node_of(routines, code, at))?;
    }
    Ok(graph)
}

/// The graph of a routine of a unit.
pub fn graph_of(alloc: Global, unit: &Unit, routine: usize) -> Result<Vec<Node>, Memory>
    requires { routine < length unit.now.routines }
    ensures graph { IfOk result (λ graph. graph.items ≡ graph_of unit.now routine) }
    ensures whole { IfOk result (λ graph. InGraph graph.items) }
    ensures some { IfOk result (λ graph. 0 < length graph.items) }
{
    let routines = unit.routines.as_slice();
    let graph = graph_of_code(alloc, routines, routines[routine].code.as_slice())?;
    Ok(graph)
}
