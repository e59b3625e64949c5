//! Real files, standard output and the words of a process. It has tests alone, so that the crate below is proved once.
#![tactic(auto)]

#[cfg(test)]
mod tests;
