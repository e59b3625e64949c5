//! Simple forms of terms and conditions with known answers. It has tests alone, so that `sp_simp` is proved once.
#![tactic(auto)]

#[cfg(test)]
mod conditions;
#[cfg(test)]
mod rows;
#[cfg(test)]
mod tests;
