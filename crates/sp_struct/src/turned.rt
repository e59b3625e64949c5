ghost use Rattle.std.specs.Prelude.{◌≡◌, ◌<◌, ◌+◌, true, false, IfOk, length};
ghost use Rattle.sp_graph.specs.Cycles.{IsHighestOfCycle};
ghost use Rattle.sp_struct.specs.code.Turned.{shifted, turned, turned_node};

use crate::breadth::search;
use sp_base::Memory;
use sp_graph::{Branch, Node, Step, has_assertion, way_at};
use std::alloc::Global;

/// The place after that of an instruction without an assertion, up to the highest.
fn shifted(graph: &[Node], highest: usize, to: Option<usize>) -> Option<usize>
    requires { highest < length graph.now }
    ensures { result ≡ shifted graph.now highest to }
{
    match to {
        Some(to) => {
            if to < highest + 1 && !has_assertion(graph, to) {
                Some(to + 1)
            } else {
                None
            }
        }
        None => None,
    }
}

/// An instruction with the ways that stay below the highest.
fn turned_node(graph: &[Node], highest: usize, at: usize) -> Node
    requires { highest < length graph.now }
    ensures { result ≡ turned_node graph.now highest at }
{
    let untaken = way_at(graph, Step { at, taken: false });
    let taken = way_at(graph, Step { at, taken: true });
    Node {
        asserted: false,
        access: false,
        untaken: Some(Branch {
            end: None,
            to: shifted(graph, highest, untaken),
        }),
        taken: Some(Branch {
            end: None,
            to: shifted(graph, highest, taken),
        }),
    }
}

/// The instructions up to the highest, after a copy of the highest.
fn turned(alloc: Global, graph: &[Node], highest: usize) -> Result<Vec<Node>, Memory>
    requires { highest < length graph.now }
    ensures { IfOk result (λ nodes. nodes.items ≡ turned graph.now highest (highest + 1)) }
{
    let mut nodes = Vec::new(alloc);
    nodes.push(turned_node(graph, highest, highest))?;
    'places: for at in 0..highest + 1 {
        nodes.push(turned_node(graph, highest, at))?;
    }
    Ok(nodes)
}

/// Whether an instruction is the highest of a cycle.
pub fn is_highest(alloc: Global, graph: &[Node], at: usize) -> Result<bool, Memory>
    requires { at < length graph.now }
    ensures yes { IfOk result (λ b. b ≡ true → IsHighestOfCycle graph.now at) }
    ensures no { IfOk result (λ b. b ≡ false → IsHighestOfCycle graph.now at → ⊥) }
{
    let nodes = turned(alloc, graph, at)?;
    let reached = search(alloc, &nodes)?;
    Ok(reached.seen[at + 1])
}
