//! The instruction set and the machine against the text of the 8080 manual: every code both ways, flags at the edges of
//! their operands, the program status word, and addresses at the end of memory. It has tests alone, so that the two
//! crates below are proved once.
#![tactic(auto)]

#[cfg(test)]
mod tests;
