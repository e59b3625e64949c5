//! All runs of a unit are good and contained. There is no code here, only laws.
#![tactic(auto)]

mod laws;

pub use laws::{premises_can_be_met, runs_are_safe, settled_units_are_safe, twins_are_not_settled};
