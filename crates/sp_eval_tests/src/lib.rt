//! Notes that are printed and evaluated. It has tests alone, so that `sp_logic` and `sp_eval` are proved once.
#![tactic(auto)]

#[cfg(test)]
mod printed;
#[cfg(test)]
mod states;
#[cfg(test)]
mod tests;
