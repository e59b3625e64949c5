//! The simplifier of terms and conditions (this project's own).
#![tactic(auto)]

mod bytes;
mod cells;
mod comparisons;
mod conditions;
mod formulas;
mod kept;
mod laws;
mod memo;
mod next;
mod products;
mod quotients;
mod relation;
mod root;
mod roots;
mod step;
mod sums;

pub use conditions::{simple, simplify};
pub use laws::{
    a_tree_has_one_simple_form, admissible_environments_are_in_ranges, conditions_keep_their_truth,
    no_rule_adds_nodes, rules_by_example, rules_keep_values, simple_forms_keep_terms,
    simple_forms_keep_values, simplified_conditions_by_example, terms_lie_in_their_intervals,
    trees_are_compared,
};
pub use memo::Memo;
pub use relation::Relation;
