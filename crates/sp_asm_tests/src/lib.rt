//! The assembler against sources with known images, listings and refusals. It has tests alone, so that the assembler is
//! proved once.
#![tactic(auto)]

#[cfg(test)]
mod tests;
