//! Scripts as definitions: subgoals, steps and the rules, and what a call of a rule answers (this project's own).
#![tactic(auto)]

mod laws;
mod refusal;
mod side;

pub use laws::{
    a_step_has_one_next_state, a_subgoal_has_one_fresh_variable, first_states_by_example,
    limits_by_example, logic_by_example, new_subgoals_stand_first,
    nothing_follows_the_last_subgoal, numbers_by_example, rewriting_by_example,
};
pub use refusal::RuleRefusal;
pub use side::Side;
