//! Trials: runs of one routine from a machine, with its annotations evaluated on the way (this project's own).
#![tactic(auto)]

mod entry;
mod judging;
mod laws;
mod outcome;
mod plan;
mod returning;
mod table;
mod trying;
mod turning;

pub use laws::trials_have_one_answer;
pub use outcome::{Outcome, Trial, TrialRefusal};
pub use trying::trial;
