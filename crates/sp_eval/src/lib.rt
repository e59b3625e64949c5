//! Evaluates annotations on machines: whether a note is true between the state at entry and the present one, and how many
//! nodes were evaluated. It takes no memory.
#![tactic(auto)]

mod arithmetic;
mod evaluation;
mod laws;
mod memory;
mod narrow;
mod places;
mod quantity;
mod scope;
mod setting;
mod truth;

pub use evaluation::{Seen, TooLong, holds};
pub use laws::{bounds_are_of_all_parts, bounds_are_right, nodes_are_counted};
pub use narrow::is_narrow;
