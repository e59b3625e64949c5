use crate::{Term, Var};

/// How a memory variable of a condition is related to the memory before it: outside the areas, given by their first and
/// last addresses, the two are the same.
#[derive(Clone, Copy, Drop)]
pub struct MemFrame<'a> {
    /// `Mem` or `MemAfter(j)`.
    pub variable: Var,
    pub earlier: &'a Term<'a>,
    pub areas: &'a [(u16, u16)],
}

/// A condition: each goal is to be true where all hypotheses are.
#[derive(Clone, Copy, Drop)]
pub struct Cond<'a> {
    pub hyps: &'a [&'a Term<'a>],
    pub goals: &'a [&'a Term<'a>],
    pub frames: &'a [MemFrame<'a>],
}
