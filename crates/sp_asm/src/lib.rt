//! The assembler: the statements of a source at their addresses, with their bytes (8080 Assembly Language Programming Manual;
//! ranges of bytes and the address after the last statement are this project's own).
#![tactic(auto)]

mod assembler;
mod bytes;
mod faults;
mod laws;
mod listing;
mod names;
mod places;
mod refusal;
mod rows;
mod values;

pub use assembler::assemble;
pub use laws::{
    a_source_has_one_assembly, addresses_by_example, assemblies_by_example, bytes_by_example,
    causes_are_one, causes_by_example, definitions_by_example, images_hold_their_items,
    listings_hold_their_items, names_have_meanings, ranges_by_example, room_by_example,
    uses_by_example,
};
pub use listing::{Item, ItemKind, Items, Listing};
pub use refusal::{AsmKind, AsmRefusal};
