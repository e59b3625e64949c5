//! Annotations as trees: resolved ones, whose names have become numbers, those with names still in them, the frame in
//! which they are read, and their printed form.
#![tactic(auto)]

mod frame;
mod laws;
mod note;
mod printing;
mod raw_note;
mod words;

pub use frame::Frame;
pub use laws::{notes_are_formed, notes_are_printed};
pub use note::{
    Comparison, Connective, Moment, Note, Operator, Quantifier, Quantity, RegisterPair,
};
pub use printing::print;
pub use raw_note::RawNote;
