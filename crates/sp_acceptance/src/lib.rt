//! Command lines as an engineer gives them, carried out over files and a sink in memory. It has tests alone, so that the
//! crate below is proved once.
#![tactic(auto)]

#[cfg(test)]
mod tests;
