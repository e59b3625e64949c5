//! Polynomials of terms, and the step `linear` of scripts (this project's own).
#![tactic(auto)]

mod examples;
mod expand;
mod laws;
mod limits;
mod product;
mod step;
mod sums;

pub use examples::{
    comparisons_follow, contradictions_close_every_goal, equations_follow, polynomials_by_example,
    signs_are_kept, sizes_and_counts_by_example, steps_have_limits,
};
pub use laws::{
    a_list_has_one_sum, coefficients_are_within_sizes, forms_mean_their_formulas,
    linear_keeps_truth, polynomials_keep_values,
};
pub use step::follows;
