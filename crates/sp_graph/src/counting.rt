ghost use Rattle.std.specs.Prelude.{◌≡◌, ◌<◌, ℕ, IfOk, length};
ghost use Rattle.sp_graph.specs.Cycles.{SuccessorsFirst};
ghost use Rattle.sp_graph.specs.Graph.{way, InGraph};
ghost use Rattle.sp_graph.specs.Walks.{walks};
ghost use Rattle.sp_graph.specs.code.Counts.{ends_count, way_count, branch_count, node_count, at_most, Counted};

use crate::graph::{access_at, branch_at, has_assertion};
use crate::{Branch, End, Node, Step};
use std::alloc::{AllocError, Global};

fn count_end(end: Option<End>) -> u64
    ensures { result ≡ ends_count end }
{
    match end {
        Some(_) => 1,
        None => 0,
    }
}

fn count_way(graph: &[Node], counts: &[u64], to: Option<usize>) -> u64
    requires { (t : ℕ) → to ≡ Some t → t < length counts.now }
    ensures { result ≡ way_count graph.now counts.now to }
{
    match to {
        Some(to) => {
            if has_assertion(graph, to) {
                1
            } else {
                counts[to]
            }
        }
        None => 0,
    }
}

fn count_branch(graph: &[Node], counts: &[u64], branch: Option<Branch>) -> u64
    requires { (t : ℕ) → way branch ≡ Some t → t < length counts.now }
    ensures { result ≡ branch_count graph.now counts.now branch }
{
    match branch {
        Some(branch) => count_end(branch.end).saturating_add(count_way(graph, counts, branch.to)),
        None => 0,
    }
}

#[tactic(auto, unfolding(crate::specs::code::Counts::node_count))]
fn count_node(graph: &[Node], counts: &[u64], at: usize) -> u64
    requires whole { InGraph graph.now }
    requires counts { length counts.now ≡ length graph.now }
    ensures { result ≡ node_count graph.now counts.now at }
{
    let untaken = count_branch(graph, counts, branch_at(graph, Step { at, taken: false }));
    let taken = count_branch(graph, counts, branch_at(graph, Step { at, taken: true }));
    count_end(access_at(graph, at)).saturating_add(untaken.saturating_add(taken))
}

/// How many walks go on at each instruction, up to the greatest u64.
pub fn count(alloc: Global, graph: &[Node], order: &[usize]) -> Result<Vec<u64>, AllocError>
    requires whole { InGraph graph.now }
    requires order { SuccessorsFirst graph.now (length graph.now) order.now }
    ensures counted { IfOk result (λ counts. Counted graph.now order.now counts.items (length order.now)) }
    ensures size { IfOk result (λ counts. length counts.items ≡ length graph.now) }
{
    let mut counts = vec![in alloc; 0u64; graph.len()]?;
    for at in order {
        counts[*at] = count_node(graph, &counts, *at);
    }
    Ok(counts)
}

/// How many walks a routine has, up to the greatest u64.
pub fn count_all(graph: &[Node], order: &[usize], counts: &[u64]) -> u64
    requires whole { InGraph graph.now }
    requires order { SuccessorsFirst graph.now (length graph.now) order.now }
    requires counted { Counted graph.now order.now counts.now (length order.now) }
    requires size { length counts.now ≡ length graph.now }
    requires some { 0 < length graph.now }
    ensures { result ≡ at_most (length (walks graph.now)) }
{
    let _places = order.len();
    let mut total = count_way(graph, counts, Some(0));
    'cuts: for at in 0..graph.len() {
        if has_assertion(graph, at) {
            total = total.saturating_add(counts[at]);
        }
    }
    total
}
