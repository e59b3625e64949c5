//! Single steps with known answers. It has tests alone, so that `sp_rules` is proved once.
#![tactic(auto)]

#[cfg(test)]
mod calls;
#[cfg(test)]
mod cells;
#[cfg(test)]
mod equations;
#[cfg(test)]
mod limits;
#[cfg(test)]
mod logic;
#[cfg(test)]
mod numbers;
#[cfg(test)]
mod quantified;
#[cfg(test)]
mod states;
#[cfg(test)]
mod tests;
