//! The outside of a process: its words, the files of the system and standard output, and the command line carried out
//! over them.
#![tactic(auto)]

mod process;
mod real_files;
mod real_sink;

pub use process::carry_out;
pub use real_files::RealFiles;
pub use real_sink::RealSink;
