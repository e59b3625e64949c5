//! Units of sources, by laws and examples. There is no code here, only laws on definitions.
#![tactic(auto)]

mod laws;

pub use laws::{
    bound_names_by_example, clashes_by_example, conditions_by_example, limits_by_example,
    lines_are_merged, names_by_example, places_by_example, routines_by_example, strays_by_example,
    units_by_example, units_have_their_instructions, unknowns_by_example,
};
