//! Texts of HEX that are written, read and refused, and images that are loaded. It has tests alone, so that `sp_hex` is
//! proved once.
#![tactic(auto)]

#[cfg(test)]
mod tests;
