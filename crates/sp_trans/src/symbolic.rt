use sp_term::Term;

/// A symbolic state: a term for each part of the machine.
#[derive(Clone, Copy, Drop)]
pub struct Sym<'a> {
    /// The terms of the twelve registers and flags, in the order of `Loc`.
    pub locs: &'a [&'a Term<'a>],
    pub mem: &'a Term<'a>,
    /// The words on the stack from the base down, each a high and a low byte.
    pub slots: &'a [(&'a Term<'a>, &'a Term<'a>)],
}
