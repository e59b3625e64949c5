//! The rules of units against sources with known answers. It has tests alone, so that these rules are proved once.
#![tactic(auto)]

#[cfg(test)]
mod tests;
#[cfg(test)]
mod units;
