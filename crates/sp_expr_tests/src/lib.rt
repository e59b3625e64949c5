//! Expressions with known values and refusals. It has tests alone, so that the reader of expressions is proved once.
#![tactic(auto)]

#[cfg(test)]
mod tests;
