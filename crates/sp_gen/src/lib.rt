//! Sources of any number of routines with the scripts for their conditions, to try a verifier's speed on (this project's own).
#![tactic(auto)]

mod forms;
mod generating;
mod laws;
mod lines;

pub use generating::{Generated, generate};
pub use laws::sources_by_example;
