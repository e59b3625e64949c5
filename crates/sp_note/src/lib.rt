//! Annotation lines: each with its parts, names, expressions and trees (this project's own).
#![tactic(auto)]

mod frame;
mod head;
mod keyword;
mod laws;
mod line;
mod lists;
mod operand;
mod parser;
mod part;
mod reading;
mod refusal;
mod tokens;
mod word;

pub use laws::{
    bounds_by_example, conditions_are_one, conditions_follow_the_grammar, grammar_by_example,
    nesting_by_example, sorts_by_example,
};
pub use part::{Items, Listed, NoteLine, Notes, Part, Ports};
pub use reading::read_notes;
pub use refusal::{NoteKind, NoteRefusal};
