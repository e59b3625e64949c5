//! What is said of runs, by example.
ghost use Rattle.sp_run_laws.specs.Runs.{EndsAtStop, HasTexts, SetsItsValue, StartsWithImage};
ghost use Rattle.sp_run_laws.specs.Words.{StandForOptions, StandForSettings};

/// `--pc` and `--steps` stand once at most, `--set` any number of times, each with a value in its range.
pub fn words_stand_for_options()
    ensures { StandForOptions }
{}

/// A setting names a register, a pair, a flag, the inputs or a cell, and has a value in its range.
pub fn texts_stand_for_settings()
    ensures { StandForSettings }
{}

/// A run starts with all 0 but the image, then the settings in their order, then the program counter.
pub fn runs_start_with_their_image()
    ensures { StartsWithImage }
{}

/// What a setting sets has its value.
pub fn settings_set_their_values()
    ensures { SetsItsValue }
{}

/// A run ends after the first step that halts, before one that is stuck, or at its limit.
pub fn runs_end_where_they_stop()
    ensures { EndsAtStop }
{}

/// The text of a run has a line for each byte that was put out, and a line of the last state.
pub fn runs_have_texts()
    ensures { HasTexts }
{}
