//! Lines and tokens against sources with known answers. It has tests alone, so that the reader of
//! lines is proved once.
#![tactic(auto)]

#[cfg(test)]
mod tests;
