//! Texts in and out of the grammar of terms, with known answers. It has tests alone, so that `sp_fdl` is proved once.
#![tactic(auto)]

#[cfg(test)]
mod tests;
