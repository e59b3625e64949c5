//! The structure of routines: where control goes, which instructions are reached and at which depth of stack, and which
//! loops are cut by assertions (this project's own).
#![tactic(auto)]

mod breadth;
mod calls;
mod checking;
mod closing;
mod cycles;
mod depths;
mod differences;
mod finding;
mod headers;
mod laws;
mod loops;
mod recursion;
mod refusal;
mod rules;
mod sets;
mod slots;
mod stack;
mod turned;
mod unit_levels;

pub use breadth::{Reached, least_walks};
pub use checking::check;
pub use cycles::uncut;
pub use differences::{Difference, Gap, lowest_difference};
pub use finding::lowest;
pub use headers::{lowest_header, lowest_over_depth};
pub use laws::{
    calls_have_a_rank, depths_are_one, depths_follow, loops_are_cut, refusals_are_one,
    rules_by_example, units_have_one_refusal,
};
pub use loops::lowest_loop;
pub use recursion::lowest_recursion;
pub use refusal::{StructKind, StructRefusal};
pub use rules::Rule;
pub use slots::lowest_slot;
pub use stack::{Levels, effect, find_levels};
pub use unit_levels::all_levels;
