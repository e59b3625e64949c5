//! What it means that a script shows a condition: steps that lead from its first subgoals to none (this project's own).
#![tactic(auto)]

mod laws;
mod refusal;

pub use laws::{a_script_has_one_answer, steps_go_on, steps_lead_one_way};
pub use refusal::{Proved, ScriptRefusal};
