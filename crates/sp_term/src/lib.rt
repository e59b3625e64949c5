//! Terms and formulas over registers, flags and memories, as nodes of an arena (this project's own).
#![tactic(auto)]

mod cond;
mod equality;
mod interval;
mod laws;
mod pool;
mod shape;
mod substitution;
mod taking;
mod term;
mod var;

pub use cond::{Cond, MemFrame};
pub use equality::same;
pub use interval::Interval;
pub use laws::{
    a_term_has_one_sort, adding_has_one_answer, environments_are_admissible,
    intervals_are_within_64_bits, intervals_follow_forms, memories_change_in_one_place,
    nodes_and_depths_are_counted, parts_are_counted_by_nodes, quantifiers_bind_in_their_formulas,
    replacing_is_assigning, replacing_keeps_terms, values_depend_on_free_variables,
};
pub use pool::Pool;
pub use shape::{Node, Shape};
pub use substitution::substitute;
pub use term::{Kind, Term, depth, make, size};
pub use var::Var;
