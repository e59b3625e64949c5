//! Runs of routines and the executions of their walks: what is true of both. There is no code here, only laws.
#![tactic(auto)]

mod laws;

pub use laws::{
    accesses_are_permitted, assertions_begin, assertions_hold, callees_are_entered, calls_go_on,
    entries_begin, environments_agree, environments_are_admissible, passes_go_on,
    returns_keep_their_word, runs_are_executed, steps_go_on,
};
