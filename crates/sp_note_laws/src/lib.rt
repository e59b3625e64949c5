//! Annotations that are printed and read again. There is no code here, only laws on definitions.
#![tactic(auto)]

mod laws;
