//! Script files against what is read of them. It has tests alone, so that `sp_script_text` is proved once.
#![tactic(auto)]

#[cfg(test)]
mod files;
#[cfg(test)]
mod tests;
