//! Sources with known answers of the whole check: each rule on flow on both sides of its edges, and sound ones. It has tests
//! alone, so that the check is proved once.
#![tactic(auto)]

#[cfg(test)]
mod flow;
#[cfg(test)]
mod helpers;
#[cfg(test)]
mod sound;
