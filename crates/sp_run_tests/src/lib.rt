//! Option words at their edges, and the texts of runs. It has tests alone, so that the crate below is proved once.
#![tactic(auto)]

#[cfg(test)]
mod tests;
