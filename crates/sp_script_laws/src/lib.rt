//! What a script shows is true (this project's own).
#![tactic(auto)]

mod laws;

pub use laws::shown_conditions_are_true;
