ghost use Rattle.std.specs.Prelude.{◌≡◌, slice_get};
ghost use Rattle.sp_graph.specs.Graph.{branch_of, branch_in, asserted_in, access_of, way};

use crate::Step;

/// What a walk ends at.
#[derive(Clone, Copy, Debug, PartialEq, Eq)]
pub enum End {
    /// An instruction that reads or writes memory at an address in registers.
    Access,
    /// A taken call of a routine with a precondition.
    Call,
    /// An instruction with an assertion.
    Assert,
    /// A return that is taken.
    Return,
}

/// One way on from an instruction: what a walk by it ends at, if it ends, and where it leads, if it goes on.
#[derive(Clone, Copy, Debug)]
pub struct Branch {
    pub end: Option<End>,
    pub to: Option<usize>,
}

/// What walks see of an instruction.
#[derive(Clone, Copy, Debug)]
pub struct Node {
    pub asserted: bool,
    pub access: bool,
    pub untaken: Option<Branch>,
    pub taken: Option<Branch>,
}

impl Node {
    fn branch(&self, taken: bool) -> Option<Branch>
        ensures { result ≡ branch_of self.now taken }
    {
        if taken { self.taken } else { self.untaken }
    }
}

/// The branch by a step.
pub fn branch_at(graph: &[Node], step: Step) -> Option<Branch>
    ensures { result ≡ branch_in (slice_get graph.now step.at) step.taken }
{
    match graph.get(step.at) {
        Some(node) => node.branch(step.taken),
        None => None,
    }
}

/// Whether an instruction has an assertion.
pub fn has_assertion(graph: &[Node], at: usize) -> bool
    ensures { result ≡ asserted_in (slice_get graph.now at) }
{
    match graph.get(at) {
        Some(node) => node.asserted,
        None => false,
    }
}

/// The end of a walk at an instruction that accesses memory.
pub fn access_at(graph: &[Node], at: usize) -> Option<End>
    ensures { result ≡ access_of (slice_get graph.now at) }
{
    match graph.get(at) {
        Some(node) => { if node.access { Some(End::Access) } else { None } }
        None => None,
    }
}

/// Where the branch of a step leads.
pub fn way_at(graph: &[Node], step: Step) -> Option<usize>
    ensures { result ≡ way (branch_in (slice_get graph.now step.at) step.taken) }
{
    match branch_at(graph, step) {
        Some(branch) => branch.to,
        None => None,
    }
}
