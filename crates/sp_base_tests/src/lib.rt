//! Images, names, lines of texts, and files and sinks in memory. It has tests alone, so that `sp_base` is proved once.
#![tactic(auto)]

#[cfg(test)]
mod tests;
