ghost use Rattle.std.specs.Prelude.{◌≡◌, ◌<◌, IfOk, length, map};
ghost use Rattle.sp_graph.specs.Answers.{GivesWalks};
ghost use Rattle.sp_graph.specs.Cycles.{HasNoCycle, SuccessorsFirst};
ghost use Rattle.sp_graph.specs.Graph.{InGraph};
ghost use Rattle.sp_graph.specs.Routines.{graph_of};
ghost use Rattle.sp_graph.specs.Walks.{walks, cuts, cut_of};

use crate::counting::{count, count_all};
use crate::graph::has_assertion;
use crate::list::Walks;
use crate::nodes::graph_of;
use crate::sorting::{Outcome, sort};
use crate::{Cut, Node, Search, WalksRefusal};
use sp_base::Memory;
use sp_prog::Unit;
use std::alloc::Global;

/// How many walks a routine may have.
const MOST_WALKS: u64 = 65_536;

/// The instructions of a graph in an order with successors first, where no cycle is without an assertion.
fn order_of(alloc: Global, graph: &[Node]) -> Result<Vec<usize>, Memory>
    requires cycles { HasNoCycle graph.now }
    ensures { IfOk result (λ order. SuccessorsFirst graph.now (length graph.now) order.items) }
{
    let outcome = sort(alloc, graph, graph.len())?;
    match outcome {
        Outcome::Order(order) => Ok(order),
        Outcome::Cycle(_) => unreachable!(),
    }
}

/// The walks of a graph, one for each condition, where there are not too many.
pub fn walks_in(alloc: Global, graph: Vec<Node>) -> Result<Search, WalksRefusal>
    requires whole { InGraph graph.items }
    requires some { 0 < length graph.items }
    requires cycles { HasNoCycle graph.items }
    ensures { GivesWalks (walks graph.items) result }
{
    let order = order_of(alloc, &graph)?;
    let counts = count(alloc, &graph, &order)?;
    let total = count_all(&graph, &order, &counts);
    if total > MOST_WALKS {
        return Err(WalksRefusal::TooMany(total));
    }
    Ok(Search::new(alloc, graph))
}

/// The walks of a routine, one for each of its conditions, where there are not too many.
pub fn walks<'u>(alloc: Global, unit: &'u Unit, routine: usize) -> Result<Walks<'u>, WalksRefusal>
    requires place { routine < length unit.now.routines }
    requires cycles { HasNoCycle (graph_of unit.now routine) }
    ensures { GivesWalks (walks (graph_of unit.now routine)) result }
{
    let graph = graph_of(alloc, unit, routine)?;
    let search = walks_in(alloc, graph)?;
    Ok(Walks { unit, search })
}

/// The cut points of a routine: its entry, then each instruction with an assertion by rising address.
pub fn cuts(alloc: Global, unit: &Unit, routine: usize) -> Result<Vec<Cut>, Memory>
    requires { routine < length unit.now.routines }
    ensures { IfOk result (λ found. found.items ≡ map cut_of (cuts (graph_of unit.now routine))) }
{
    let graph = graph_of(alloc, unit, routine)?;
    let mut found = Vec::new(alloc);
    found.push(Cut::Entry)?;
    'places: for at in 0..graph.len() {
        if has_assertion(&graph, at) {
            found.push(Cut::At(at))?;
        }
    }
    Ok(found)
}
