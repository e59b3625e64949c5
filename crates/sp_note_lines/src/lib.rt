//! How annotation lines are written, kind by kind, as a relation: laws on definitions of `sp_note` alone.
#![tactic(auto)]

mod laws;

pub use laws::{expressions_follow_the_grammar, lines_are_refused, lines_follow_the_table};
