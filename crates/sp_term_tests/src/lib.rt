//! Terms and pools against trees with known answers. It has tests alone, so that `sp_term` is proved once.
#![tactic(auto)]

#[cfg(test)]
mod nodes;
#[cfg(test)]
mod tests;
