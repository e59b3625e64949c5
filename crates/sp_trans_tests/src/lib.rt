//! Symbolic states through instructions, and notes as formulas. It has tests alone, so that `sp_trans` is proved once.
#![tactic(auto)]

#[cfg(test)]
mod forms;
#[cfg(test)]
mod notes;
#[cfg(test)]
mod rows;
#[cfg(test)]
mod states;
#[cfg(test)]
mod tests;
