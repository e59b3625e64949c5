//! Scripts checked against conditions that are written out. It has tests alone, so that `sp_script` is proved once.
#![tactic(auto)]

#[cfg(test)]
mod clearing;
#[cfg(test)]
mod ordering;
#[cfg(test)]
mod tests;
