ghost use Rattle.std.specs.Prelude.{◌≡◌, ◌<◌, ◌≤◌, ◌⊎◌, ◌↔◌, ◌∷◌, ◌++◌, ℕ, IfOk, OnOk, IfSome, length, slice_get, slice_set, slice_index, slice_index_or, true, false, [], List};
ghost use Rattle.sp_graph.specs.Least.{Successor, WalkTo, IsLeastWalk};
ghost use Rattle.sp_struct.specs.code.Breadth.{Grown, Closed, Saw, BelowAll, Level};

use sp_base::Memory;
use sp_graph::{Node, Step, way_at};
use std::alloc::Global;

/// The places of a search by levels in order, and where each was first seen.
#[derive(Debug, Drop)]
pub struct Reached {
    pub seen: Vec<bool>,
    pub order: Vec<usize>,
    pub up: Vec<usize>,
}

/// The successors of an instruction, the lower one first.
#[derive(Clone, Copy)]
pub struct Pair {
    pub low: Option<usize>,
    pub high: Option<usize>,
}

/// The instructions at which an instruction goes on.
pub fn successors(graph: &[Node], at: usize) -> Pair
    ensures all { (to : ℕ) → Successor graph.now at to ↔ ((result.low ≡ Some to) ⊎ (result.high ≡ Some to)) }
    ensures rising { (a b : ℕ) → result.low ≡ Some a → result.high ≡ Some b → a ≤ b }
{
    let next = way_at(graph, Step { at, taken: false });
    let target = way_at(graph, Step { at, taken: true });
    match (next, target) {
        (Some(a), Some(b)) => {
            if b < a {
                Pair {
                    low: target,
                    high: next,
                }
            } else {
                Pair {
                    low: next,
                    high: target,
                }
            }
        }
        _ => Pair {
            low: next,
            high: target,
        },
    }
}

impl Reached {
    /// Sees an instruction from the one at `head`.
    fn see_place(&mut self, to: usize, head: usize) -> Result<(), Memory>
        requires { to < length self.old.seen.items }
        ensures { OnOk result
            (((self.new.seen.items ≡ self.old.seen.items) × (self.new.order.items ≡ self.old.order.items) × (self.new.up.items ≡ self.old.up.items)
            × (slice_index_or self.old.seen.items to false ≡ true))
            ⊎ ((self.new.seen.items ≡ slice_set self.old.seen.items to true) × (self.new.order.items ≡ self.old.order.items ++ to ∷ [])
            × (self.new.up.items ≡ self.old.up.items ++ head ∷ []) × (slice_index_or self.old.seen.items to false ≡ false))) }
    {
        if !self.seen[to] {
            self.seen[to] = true;
            self.order.push(to)?;
            self.up.push(head)?;
        }
        Ok(())
    }

    /// Sees a successor, if there is one, of the instruction at `head`.
    fn see(&mut self, graph: &[Node], to: Option<usize>, head: usize) -> Result<(), Memory>
        requires grown { Grown graph.now self.old.seen.items self.old.order.items self.old.up.items head }
        requires head { head < length self.old.order.items }
        requires place { (t : ℕ) → to ≡ Some t → t < length graph.now }
        requires successor { (t : ℕ) → to ≡ Some t → Successor graph.now (slice_index self.old.order.items head) t }
        requires below { (t : ℕ) → to ≡ Some t → BelowAll self.old.order.items self.old.up.items head t }
        ensures { OnOk result
            (Saw graph.now head to self.old.seen.items self.old.order.items self.old.up.items self.new.seen.items self.new.order.items self.new.up.items) }
    {
        match to {
            Some(to) => {
                self.see_place(to, head)?;
                Ok(())
            }
            None => Ok(()),
        }
    }
}

/// The instructions that a walk from the entry reaches, in the order of their least walks.
pub fn search(alloc: Global, graph: &[Node]) -> Result<Reached, Memory>
    requires some { 0 < length graph.now }
    requires whole { (at to : ℕ) → Successor graph.now at to → to < length graph.now }
    ensures grown { IfOk result (λ s. Grown graph.now s.seen.items s.order.items s.up.items (length s.order.items)) }
    ensures closed { IfOk result (λ s. Closed graph.now s.order.items s.up.items (length s.order.items)) }
{
    let mut seen = vec![in alloc; false; graph.len()]?;
    seen[0] = true;
    let mut order = Vec::new(alloc);
    order.push(0usize)?;
    let mut up = Vec::new(alloc);
    up.push(0usize)?;
    let mut search = Reached { seen, order, up };
    let mut head = 0usize;
    'levels: while head < search.order.len() {
        let pair = successors(graph, search.order[head]);
        search.see(graph, pair.low, head)?;
        search.see(graph, pair.high, head)?;
        head += 1;
    }
    Ok(search)
}

/// The instructions that a walk from the entry reaches, in the order of their least walks.
pub fn least_walks(alloc: Global, graph: &[Node]) -> Result<Reached, Memory>
    requires some { 0 < length graph.now }
    requires whole { (at to : ℕ) → Successor graph.now at to → to < length graph.now }
    ensures least { IfOk result (λ s. (k : ℕ) → k < length s.order.items → (places : List ℕ) × IsLeastWalk graph.now places (slice_index s.order.items k)) }
    ensures all { IfOk result (λ s. (places : List ℕ) (at : ℕ) → WalkTo graph.now places at → (k : ℕ) × (k < length s.order.items) × (slice_index s.order.items k ≡ at)) }
{
    let found = search(alloc, graph)?;
    Ok(found)
}
