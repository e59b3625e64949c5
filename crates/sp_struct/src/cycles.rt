ghost use Rattle.std.specs.Prelude.{◌≡◌, ◌<◌, ℕ, IfOk, IfNone, IfSome, length};
ghost use Rattle.sp_graph.specs.Cycles.{Reaches, IsHighestOfCycle};

use sp_base::Memory;
use sp_graph::{Node, Outcome, sort};
use std::alloc::Global;

/// An instruction on a cycle of the first `limit` instructions.
fn cycle_below(alloc: Global, graph: &[Node], limit: usize) -> Result<Option<usize>, Memory>
    ensures none { IfOk result (λ r. IfNone r ((at : ℕ) → Reaches graph.now limit at at → ⊥)) }
    ensures some { IfOk result (λ r. IfSome r (λ at. Reaches graph.now limit at at)) }
{
    let outcome = sort(alloc, graph, limit)?;
    match outcome {
        Outcome::Order(_) => Ok(None),
        Outcome::Cycle(at) => Ok(Some(at)),
    }
}

/// The least limit below which there is a cycle, less one.
fn lowest(alloc: Global, graph: &[Node], on_it: usize) -> Result<usize, Memory>
    requires { Reaches graph.now (length graph.now) on_it on_it }
    ensures highest { IfOk result (IsHighestOfCycle graph.now) }
    ensures lowest { IfOk result (λ found. (at : ℕ) → at < found → IsHighestOfCycle graph.now at → ⊥) }
{
    let mut on_cycle = on_it;
    let mut low = 0usize;
    let mut high = graph.len();
    'halves: while high - low > 1 {
        let middle = low + (high - low) / 2;
        match cycle_below(alloc, graph, middle)? {
            None => low = middle,
            Some(at) => {
                high = middle;
                on_cycle = at;
            }
        }
    }
    Ok(low)
}

/// The lowest instruction that is the highest of some cycle.
pub fn uncut(alloc: Global, graph: &[Node]) -> Result<Option<usize>, Memory>
    ensures none { IfOk result (λ r. IfNone r ((at : ℕ) → at < length graph.now → IsHighestOfCycle graph.now at → ⊥)) }
    ensures some { IfOk result (λ r. IfSome r (IsHighestOfCycle graph.now)) }
    ensures lowest { IfOk result (λ r. IfSome r (λ found. (at : ℕ) → at < found → IsHighestOfCycle graph.now at → ⊥)) }
{
    let found = cycle_below(alloc, graph, graph.len())?;
    match found {
        None => Ok(None),
        Some(on_it) => Ok(Some(lowest(alloc, graph, on_it)?)),
    }
}
