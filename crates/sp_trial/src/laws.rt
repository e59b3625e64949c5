//! What holds of trials, as contracts of functions that do nothing.
ghost use Rattle.sp_trial.specs.Trials.{TrialsHaveOneAnswer};

/// A routine, a start, inputs, a number of steps and a budget have one answer.
pub fn trials_have_one_answer()
    ensures { TrialsHaveOneAnswer }
{}
