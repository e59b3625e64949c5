//! The instructions of the 8080: their codes, how three bytes decode, what each does to the machine's core, and which
//! registers and flags it reads and writes.
#![tactic(auto)]

mod decoding;
mod encoding;
mod fields;
mod instr;
pub mod laws;
mod locations;
mod operand;
mod validity;

pub use decoding::decode;
pub use encoding::encode;
pub use instr::{Arg, Cond, Instr, Op, StackPair};
pub use locations::{reads, writes};
pub use operand::with_operand;
pub use validity::valid;
