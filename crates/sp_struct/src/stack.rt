ghost use Rattle.std.specs.Prelude.{◌≡◌, ◌<◌, ◌≤◌, pos, ◌+ℤ◌, ◌≤ℤ◌, IfOk, length, slice_get, slice_set, Some};
ghost use Rattle.sp_graph.specs.Depths.{effect};
ghost use Rattle.sp_graph.specs.Graph.{InGraph};
ghost use Rattle.sp_prog.specs.declared.routine.Stmt.{Stmt};
ghost use Rattle.sp_struct.specs.code.Depths.{TellsDepths, depth_at};

use crate::breadth::{Reached, search};
use sp_base::Memory;
use sp_graph::Node;
use sp_isa::Instr;
use sp_prog::Stmt;
use std::alloc::Global;

/// By how many bytes an instruction makes the stack deeper.
pub fn effect(instr: &Instr) -> i64
    ensures { result ≡ effect instr.now }
{
    match *instr {
        Instr::Push(_) => 2,
        Instr::Pop(_) => -2,
        _ => 0,
    }
}

/// The depth after an instruction, from that before it.
pub fn deeper(stmt: &Stmt, depth: i64) -> i64
    requires low { pos 0 ≤ℤ (depth +ℤ pos 131072) }
    requires high { depth ≤ℤ pos 131072 }
    ensures { result ≡ depth +ℤ effect stmt.now.instr }
{
    depth + effect(&stmt.instr)
}

/// Tells the depth of an instruction that comes after another one.
fn tell_next(code: &[Stmt], from: usize, to: usize, depths: &mut Vec<i64>)
    requires from { from < length code.now }
    requires size { length depths.old.items ≡ length code.now }
    requires to { to < length code.now }
    requires low { pos 0 ≤ℤ (depth_at depths.old.items from +ℤ pos 131072) }
    requires high { depth_at depths.old.items from ≤ℤ pos 131072 }
    ensures { (s : Stmt) → slice_get code.now from ≡ Some s →
        depths.new.items ≡ slice_set depths.old.items to (depth_at depths.old.items from +ℤ effect s.instr) }
{
    depths[to] = deeper(&code[from], depths[from]);
}

/// The instructions of a routine that a walk from the entry reaches, and the depth of each of these.
#[derive(Debug, Drop)]
pub struct Levels {
    pub reached: Vec<bool>,
    pub depths: Vec<i64>,
}

/// The depths of a routine's instructions.
pub fn find_levels(alloc: Global, graph: &[Node], code: &[Stmt]) -> Result<Levels, Memory>
    requires some { 0 < length graph.now }
    requires whole { InGraph graph.now }
    requires size { length code.now ≡ length graph.now }
    requires few { length code.now ≤ 65536 }
    ensures { IfOk result (λ levels. TellsDepths graph.now code.now levels.reached.items levels.depths.items) }
{
    let Reached { seen, order, up } = search(alloc, graph)?;
    let mut depths = vec![in alloc; 0i64; graph.len()]?;
    let mut next = 1usize;
    'places: while next < order.len() {
        tell_next(code, order[up[next]], order[next], &mut depths);
        next += 1;
    }
    Ok(Levels {
        reached: seen,
        depths,
    })
}
