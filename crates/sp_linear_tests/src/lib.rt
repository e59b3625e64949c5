//! Steps with known answers. It has tests alone, so that `sp_linear` is proved once.
#![tactic(auto)]

#[cfg(test)]
mod rows;
#[cfg(test)]
mod tests;
