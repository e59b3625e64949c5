use crate::End;
use sp_base::Seq;

/// An instruction, and whether the choice at it was taken. Where there is no choice, it was not.
#[derive(Clone, Copy, Debug, PartialEq, Eq)]
pub struct Step {
    pub at: usize,
    pub taken: bool,
}

/// The steps of a walk, in order.
pub type Steps = Seq<Step>;

/// A walk: the cut point it starts from, the instructions it passes, what it ends at, and where.
/// The cut point None is the entry, any other is an instruction with an assertion.
#[derive(Debug, Drop)]
pub struct Walk {
    pub from: Option<usize>,
    pub steps: Steps,
    pub end: End,
    pub at: usize,
}

/// A cut point of a routine: a walk begins there.
#[derive(Clone, Copy, Debug, PartialEq, Eq)]
pub enum Cut {
    /// The entry.
    Entry,
    /// An instruction with an assertion.
    At(usize),
}
