//! How control leaves instructions, where they go on, and the walks of routines, by laws and examples. There is no code here,
//! only laws on definitions.
#![tactic(auto)]

mod laws;

pub use laws::{
    accesses_by_example, answers_are_one, before_by_example, before_is_one,
    control_follows_the_processor, cuts_by_example, depths_by_example, graphs_by_example,
    limits_by_example, places_by_example, successors_by_example, walks_by_example, walks_double,
};
