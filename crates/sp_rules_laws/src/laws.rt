//! What steps keep, as contracts of functions that do nothing.

ghost use Rattle.sp_steps.specs.Steps.{Step};
ghost use Rattle.sp_rules_laws.specs.Truth.{KeepsTruth, StaysProper};

/// Where each subgoal after a step is true in each admissible environment, so was each one before it, whatever the step. So a
/// script that leaves no subgoal shows what it began with.
pub fn steps_keep_truth()
    ensures { (step : Step) → KeepsTruth step }
{}

/// After a step the hypotheses and goals are closed formulas, where they were before it and the step's terms are closed and of the
/// sorts that it asks.
pub fn states_stay_proper()
    ensures { (step : Step) → StaysProper step }
{}
