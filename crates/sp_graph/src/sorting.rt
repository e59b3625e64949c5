ghost use Rattle.std.specs.Prelude.{◌≡◌, ◌<◌, ◌≤◌, ◌↔◌, ◌∷◌, ◌++◌, [], ℕ, suc, IfOk, OnOk, MatchOption, length, true, false};
ghost use Rattle.sp_graph.specs.Cycles.{Edge};
ghost use Rattle.sp_graph.specs.Cycles.{Reaches};
ghost use Rattle.sp_graph.specs.code.Sorting.{Sorting, Settled, Moves, Ran, Visited, mark_at, step_at};
ghost use Rattle.sp_graph.specs.code.Outcomes.{IsOutcome};

use crate::graph::{has_assertion, way_at};
use crate::{Node, Step};
use std::alloc::{AllocError, Global};

/// How far the search has come with an instruction.
#[derive(Clone, Copy, Debug, PartialEq, Eq)]
enum Mark {
    New,
    Open,
    Done,
}

/// A search in depth: marks, the instructions that are done, and the steps to the one that it is at.
#[derive(Debug, Drop)]
struct Sorter {
    marks: Vec<Mark>,
    order: Vec<usize>,
    stack: Vec<Step>,
}

/// Where a choice leads, if that is one of the first instructions and has no assertion.
fn way(graph: &[Node], limit: usize, at: usize, taken: bool) -> Option<usize>
    ensures { (to : ℕ) → (result ≡ Some to) ↔ Edge graph.now limit at taken to }
{
    match way_at(graph, Step { at, taken }) {
        Some(to) => {
            if to < limit && !has_assertion(graph, to) {
                Some(to)
            } else {
                None
            }
        }
        None => None,
    }
}

impl Sorter {
    /// Comes to a new instruction.
    fn open(&mut self, graph: &[Node], limit: usize, to: usize) -> Result<(), AllocError>
        requires sorting { Sorting graph.now limit self.old.marks.items self.old.order.items self.old.stack.items }
        requires new { mark_at self.old.marks.items to ≡ Mark.New }
        requires low { to < limit }
        requires edge { (k : ℕ) → suc k ≡ length self.old.stack.items
            → Edge graph.now limit (step_at self.old.stack.items k).at (step_at self.old.stack.items k).taken to }
        ensures moves { OnOk result (Moves graph.now limit self.old.marks.items self.old.stack.items self.new.marks.items self.new.order.items self.new.stack.items) }
        ensures opened { OnOk result (mark_at self.new.marks.items to ≡ Mark.Open) }
    {
        self.marks[to] = Mark::Open;
        self.stack.push(Step {
            at: to,
            taken: false,
        })?;
        Ok(())
    }

    /// Goes by the branch taken after the one not taken.
    fn turn(&mut self, graph: &[Node], limit: usize, step: Step) -> Result<(), AllocError>
        requires not_taken { step.taken ≡ false }
        requires sorting { Sorting graph.now limit self.old.marks.items self.old.order.items (self.old.stack.items ++ step ∷ []) }
        requires settled { Settled graph.now limit self.old.marks.items step.at step.taken }
        ensures { OnOk result (Moves graph.now limit self.old.marks.items (self.old.stack.items ++ step ∷ [])
            self.new.marks.items self.new.order.items self.new.stack.items) }
    {
        self.stack.push(Step {
            at: step.at,
            taken: true,
        })?;
        Ok(())
    }

    /// Is done with an instruction.
    fn finish(&mut self, graph: &[Node], limit: usize, step: Step) -> Result<(), AllocError>
        requires taken { step.taken ≡ true }
        requires low { step.at < length self.old.marks.items }
        requires sorting { Sorting graph.now limit self.old.marks.items self.old.order.items (self.old.stack.items ++ step ∷ []) }
        requires settled { Settled graph.now limit self.old.marks.items step.at step.taken }
        ensures { OnOk result (Moves graph.now limit self.old.marks.items (self.old.stack.items ++ step ∷ [])
            self.new.marks.items self.new.order.items self.new.stack.items) }
    {
        self.marks[step.at] = Mark::Done;
        self.order.push(step.at)?;
        Ok(())
    }

    /// Leaves a step whose way is done.
    fn leave(&mut self, graph: &[Node], limit: usize, step: Step) -> Result<(), AllocError>
        requires sorting { Sorting graph.now limit self.old.marks.items self.old.order.items (self.old.stack.items ++ step ∷ []) }
        requires settled { Settled graph.now limit self.old.marks.items step.at step.taken }
        ensures { OnOk result (Moves graph.now limit self.old.marks.items (self.old.stack.items ++ step ∷ [])
            self.new.marks.items self.new.order.items self.new.stack.items) }
    {
        if step.taken {
            self.finish(graph, limit, step)
        } else {
            self.turn(graph, limit, step)
        }
    }

    /// Comes to a new instruction by a step.
    fn enter(
        &mut self,
        graph: &[Node],
        limit: usize,
        step: Step,
        to: usize,
    ) -> Result<(), AllocError>
        requires sorting { Sorting graph.now limit self.old.marks.items self.old.order.items (self.old.stack.items ++ step ∷ []) }
        requires new { mark_at self.old.marks.items to ≡ Mark.New }
        requires edge { Edge graph.now limit step.at step.taken to }
        ensures { OnOk result (Moves graph.now limit self.old.marks.items (self.old.stack.items ++ step ∷ [])
            self.new.marks.items self.new.order.items self.new.stack.items) }
    {
        self.stack.push(step)?;
        self.open(graph, limit, to)
    }

    /// Makes one move from a step that was taken from the stack, or gives an instruction on a cycle.
    fn advance(
        &mut self,
        graph: &[Node],
        limit: usize,
        step: Step,
    ) -> Result<Option<usize>, AllocError>
        requires sorting { Sorting graph.now limit self.old.marks.items self.old.order.items (self.old.stack.items ++ step ∷ []) }
        ensures { IfOk result (λ r. MatchOption r
            (Moves graph.now limit self.old.marks.items (self.old.stack.items ++ step ∷ []) self.new.marks.items self.new.order.items self.new.stack.items)
            (λ at. Reaches graph.now limit at at)) }
    {
        match way(graph, limit, step.at, step.taken) {
            None => {
                self.leave(graph, limit, step)?;
                Ok(None)
            }
            Some(to) => match self.marks[to] {
                Mark::New => {
                    self.enter(graph, limit, step, to)?;
                    Ok(None)
                }
                Mark::Open => Ok(Some(to)),
                Mark::Done => {
                    self.leave(graph, limit, step)?;
                    Ok(None)
                }
            },
        }
    }

    /// Goes on until the stack is empty, or gives an instruction on a cycle.
    fn run(&mut self, graph: &[Node], limit: usize) -> Result<Option<usize>, AllocError>
        requires sorting { Sorting graph.now limit self.old.marks.items self.old.order.items self.old.stack.items }
        ensures { IfOk result (λ r. MatchOption r
            (Ran graph.now limit self.old.marks.items self.new.marks.items self.new.order.items self.new.stack.items)
            (λ at. Reaches graph.now limit at at)) }
    {
        'moves: while let Some(step) = self.stack.pop() {
            if let Some(at) = self.advance(graph, limit, step)? {
                return Ok(Some(at));
            }
        }
        Ok(None)
    }

    /// Sorts what a root leads to.
    fn visit(
        &mut self,
        graph: &[Node],
        limit: usize,
        root: usize,
    ) -> Result<Option<usize>, AllocError>
        requires sorting { Sorting graph.now limit self.old.marks.items self.old.order.items self.old.stack.items }
        requires empty { length self.old.stack.items ≡ 0 }
        requires low { root < limit }
        ensures { IfOk result (λ r. MatchOption r
            (Visited graph.now limit root self.old.marks.items self.new.marks.items self.new.order.items self.new.stack.items)
            (λ at. Reaches graph.now limit at at)) }
    {
        match self.marks[root] {
            Mark::New => {
                self.open(graph, limit, root)?;
                match self.run(graph, limit)? {
                    Some(at) => Ok(Some(at)),
                    None => Ok(None),
                }
            }
            _ => Ok(None),
        }
    }
}

/// An order with successors first, or an instruction on a cycle.
#[derive(Debug, Drop)]
pub enum Outcome {
    Order(Vec<usize>),
    Cycle(usize),
}

/// Sorts the first `limit` instructions.
pub fn sort(alloc: Global, graph: &[Node], limit: usize) -> Result<Outcome, AllocError>
    ensures { IfOk result (IsOutcome graph.now limit) }
{
    let marks = vec![in alloc; Mark::New; limit]?;
    let mut sorter = Sorter {
        marks,
        order: Vec::new(alloc),
        stack: Vec::new(alloc),
    };
    'roots: for root in 0..limit {
        if let Some(at) = sorter.visit(graph, limit, root)? {
            return Ok(Outcome::Cycle(at));
        }
    }
    Ok(Outcome::Order(sorter.order))
}
