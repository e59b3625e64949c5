//! What holds of the steps of scripts: where the subgoals after a step are true, so were those before it (this project's own).
#![tactic(auto)]

mod laws;

pub use laws::{states_stay_proper, steps_keep_truth};
