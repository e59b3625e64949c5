use sp_logic::Frame;
use sp_machine::Machine;
use sp_prog::{Routine, Unit};

/// What stays the same during a trial.
#[derive(Clone, Copy)]
pub struct Plan<'a> {
    pub unit: &'a Unit,
    pub routine: &'a Routine,
    /// The machine at the start.
    pub entry: &'a Machine,
    pub frame: Frame,
    /// For each address the place of the routine's instruction there, plus 1, or 0.
    pub table: &'a [usize],
    /// The most nodes that an evaluation may have.
    pub budget: u64,
}
