//! The verifier for sources of the first form: one routine that loads and copies registers and returns.
#![tactic(auto)]

mod image;
mod lines;
mod source;
mod transfer;
mod verdict;
mod verifier;
mod words;

pub use verifier::{Accepted, Refusal, a_source_has_one_reading, verify};
