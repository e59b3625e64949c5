ghost use Rattle.sp_check.specs.Refusals.{HasOneAnswer};
ghost use Rattle.std.specs.Prelude.{ℕ, List};

/// A source has one unit at most, and is refused for one rule at one line at most, and never where its unit is sound.
pub fn sources_have_one_answer()
    ensures { (source : List ℕ) → HasOneAnswer source }
{}
