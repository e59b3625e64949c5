//! Translation: a symbolic state through an instruction, and a note as a formula.
#![tactic(auto)]

mod accumulator;
mod arithmetic;
mod build;
mod formulas;
mod laws;
mod names;
mod operands;
mod pairs;
mod parts;
mod symbolic;
mod terms;
mod transfers;
mod translation;

pub use formulas::note_term;
pub use laws::{
    calls_keep_values, formulas_are_closed, notes_are_translated, pointers_stay, premises_are_met,
    states_stay_symbolic, steps_are_translated, translation_by_example,
};
pub use parts::{location_term, word_term};
pub use symbolic::Sym;
pub use translation::apply;
