//! The parts of a walk's condition, made in an arena: states, hypotheses, changes and goals (this project's own).
#![tactic(auto)]

mod accesses;
mod calls;
mod choices;
mod conclusions;
mod formulas;
mod frames;
mod limits;
mod place;
mod start;
mod states;
mod steps;

pub use accesses::add_access;
pub use calls::{called_place, callee_of, routine_in};
pub use choices::add_choice;
pub use conclusions::add_goals;
pub use formulas::{Formulas, add_formulas};
pub use frames::{Frames, Spans, add_call, frame, spans_of};
pub use limits::within_limits;
pub use place::Place;
pub use start::{Words, entry_state, has_store, start_state};
pub use states::{Located, Word, after_call, state_with};
pub use steps::{bytes_taken, is_store};
