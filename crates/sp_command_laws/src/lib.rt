//! What is said of commands, by examples that differ in one thing: their words, the files that they read, the order of
//! their refusals and their texts. There is no code here, only laws on definitions.
#![tactic(auto)]

mod laws;
