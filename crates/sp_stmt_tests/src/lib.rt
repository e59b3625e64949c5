//! Statements against lines with known readings. It has tests alone, so that the reader of statements is proved once.
#![tactic(auto)]

#[cfg(test)]
mod tests;
