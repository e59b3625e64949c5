//! That each register and flag that an instruction reads can make a difference. There is no code here, only a law on
//! definitions.
#![tactic(auto)]

mod laws;
