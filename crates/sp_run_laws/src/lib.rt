//! What option words stand for, where a run starts and ends, and what its text is, by examples that differ in one thing.
//! There is no code here, only laws on definitions.
#![tactic(auto)]

mod laws;
