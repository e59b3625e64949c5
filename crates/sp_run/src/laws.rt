//! What holds of runs alone, as contracts of functions that do nothing.
ghost use Rattle.sp_run.specs.Run.{OneRunText};

/// An image has one text of a run under any options.
pub fn a_run_has_one_text()
    ensures { OneRunText }
{}
