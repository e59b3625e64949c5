//! The 8080 as a machine that runs: registers, flags, the stack pointer, the program counter and 65,536 cells of memory.
#![tactic(auto)]

mod accumulator;
mod arithmetic;
mod event;
mod execute;
mod laws;
mod machine;
mod operands;
mod stack;
mod step;
mod transfer;

pub use event::Event;
pub use laws::events_tell_the_ports;
pub use machine::Machine;
