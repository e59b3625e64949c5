//! The command line: each command is a call of `space`, over files and a sink that the caller brings.
#![tactic(auto)]

mod asm;
mod check;
mod command;
mod dispatch;
mod inputs;
mod kinds;
mod laws;
mod product;
mod put;
mod refusal;
mod run;
mod status;
mod texts;
mod verify;

pub use dispatch::space;
pub use laws::a_command_has_one_refusal;
pub use status::Status;
