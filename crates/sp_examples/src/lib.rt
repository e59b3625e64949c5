//! Small programs, each with twins that differ in one list or number, and which of them are good: what the definitions
//! of entries, runs and returns say, by example. There is no code here, only laws on definitions.
#![tactic(auto)]

mod laws;
