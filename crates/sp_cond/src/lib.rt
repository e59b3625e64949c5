//! Conditions of walks: the formulas that a walk assumes, and those that it has to show (this project's own).
#![tactic(auto)]

mod laws;
mod refusal;

pub use laws::{conditions_by_example, executions_go_on};
pub use refusal::CondRefusal;
