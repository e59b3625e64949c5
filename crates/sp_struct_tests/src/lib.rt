//! The rules on structure and the walks of routines against sources with known answers. It has tests alone, so that
//! these rules are proved once.
#![tactic(auto)]

#[cfg(test)]
mod control;
#[cfg(test)]
mod expected;
#[cfg(test)]
mod forks;
#[cfg(test)]
mod loops;
#[cfg(test)]
mod rows;
#[cfg(test)]
mod sound;
#[cfg(test)]
mod sources;
#[cfg(test)]
mod stack;
#[cfg(test)]
mod walks;
