ghost use Rattle.sp_safety.specs.Examples.{PremisesCanBeMet, TwinsAreNotSettled};
ghost use Rattle.sp_safety.specs.Theorems.{RunsAreSafe, SettledUnitsAreSafe};

/// Where calls lead to lower ranks, and each routine's own code is right with its calls as whole steps, all runs are good,
/// and contained unless their routine is a start routine.
pub fn runs_are_safe()
    ensures { RunsAreSafe }
{}

/// Of a unit that keeps all rules, and whose conditions of all walks are true in all admissible environments, all runs are
/// good, and contained unless their routine is a start routine.
pub fn settled_units_are_safe()
    ensures { SettledUnitsAreSafe }
{}

/// The unit of a routine that is a RET is settled, and the routine has entries.
pub fn premises_can_be_met()
    ensures { PremisesCanBeMet }
{}

/// A unit whose routine puts another value in A, which it doesn't list, isn't settled, whatever depths are given.
pub fn twins_are_not_settled()
    ensures { TwinsAreNotSettled }
{}
