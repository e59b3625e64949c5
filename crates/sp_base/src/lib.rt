//! What every layer of the verifier shares: addresses and bytes, registers and flags, source lines and names,
//! and the outside world as files and a sink, each with an implementation in memory.
#![tactic(auto)]

mod calls;
mod files;
mod image;
mod laws;
mod line;
mod location;
mod locs;
mod memory;
mod memory_files;
mod memory_sink;
mod name;
mod pair;
mod refused;
mod rows;
mod seq;

pub use calls::{Access, CallLog, FileCall, Outcome};
pub use files::{Files, ReadRefusal, Sink, WriteRefusal};
pub use image::Image;
pub use laws::{
    answers_have_meanings, bytes_are_placed_apart, division_rounds_down, lines_have_numbers,
    low_bytes_are_remainders, ranges_are_tested, sums_add_up, texts_have_rows,
    words_have_two_bytes,
};
pub use line::Line;
pub use location::{Loc, Reg};
pub use locs::Locs;
pub use memory::Memory;
pub use memory_files::MemFiles;
pub use memory_sink::MemSink;
pub use name::Name;
pub use pair::Pair;
pub use refused::Refused;
pub use rows::{Row, first_row};
pub use seq::Seq;
