//! Annotation lines against their kinds of refusals. It has tests alone, so that the reader is proved once.
#![tactic(auto)]

#[cfg(test)]
mod tests;
