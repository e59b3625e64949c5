ghost use Rattle.sp_prog.specs.Program.{Program};
ghost use Rattle.sp_struct.specs.Examples.{RulesByExample};
ghost use Rattle.sp_struct.specs.Laws.{CallsHaveARank, DepthsAreOne, DepthsFollow, LoopsAreCut, RefusalsAreOne};
ghost use Rattle.sp_struct.specs.Refusals.{HasOneRefusal};

/// An instruction has one depth.
pub fn depths_are_one()
    ensures { DepthsAreOne }
{}

/// Where no rule is broken, successors have the depth that the instruction leaves, and returns are at depth 0.
pub fn depths_follow()
    ensures { DepthsFollow }
{}

/// Where no rule is broken, each cycle has an assertion.
pub fn loops_are_cut()
    ensures { LoopsAreCut }
{}

/// Where no rule is broken, routines have numbers that fall along calls.
pub fn calls_have_a_rank()
    ensures { CallsHaveARank }
{}

/// A unit keeps all rules, or has one kind and one line.
pub fn units_have_one_refusal()
    ensures { (p : Program) → HasOneRefusal p }
{}

/// A unit is refused on one line in one way, with one pair of depths.
pub fn refusals_are_one()
    ensures { RefusalsAreOne }
{}

/// Small units break a rule each, and twins that differ in one thing keep it.
pub fn rules_by_example()
    ensures { RulesByExample }
{}
