//! What sources mean, by small sources, each beside one that differs in one thing: assemblies with their bytes and names,
//! and refusals with their lines and kinds. There is no code here, only laws on definitions.
#![tactic(auto)]

mod laws;
