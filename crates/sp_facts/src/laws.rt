ghost use Rattle.sp_facts.specs.Along.{RunsAreExecuted};
ghost use Rattle.sp_facts.specs.Ends.{AssertionsHold, CalleesAreEntered, ReturnsKeepTheirWord, AccessesArePermitted};
ghost use Rattle.sp_facts.specs.Theorems.{EnvironmentsAgree, EnvironmentsAreAdmissible, EntriesBegin, AssertionsBegin, StepsGoOn, PassesGoOn, CallsGoOn};

/// The environment of a run has the values of its states, and what has those of a longer run has those of the shorter.
pub fn environments_agree()
    ensures { EnvironmentsAgree }
{}

/// The environment of a run is admissible, so that conditions are true in it.
pub fn environments_are_admissible()
    ensures { EnvironmentsAreAdmissible }
{}

/// Where a routine is entered with its preconditions true, the empty walk from its entry is executed.
pub fn entries_begin()
    ensures { EntriesBegin }
{}

/// An instruction that calls nothing is executed on its walk as it runs, by the choice that the flags make.
pub fn steps_go_on()
    ensures { StepsGoOn }
{}

/// A call or a return that isn't taken changes the program counter alone, and its execution adds the choice alone.
pub fn passes_go_on()
    ensures { PassesGoOn }
{}

/// Where an asserted instruction is reached with its assertions true, the empty walk from there is executed.
pub fn assertions_begin()
    ensures { AssertionsBegin }
{}

/// A whole call that leaves what its routine doesn't list, and after which its postconditions are true, is a step of the walk.
pub fn calls_go_on()
    ensures { CallsGoOn }
{}

/// Where a run comes along a walk, by steps and whole calls, the walk is executed as the run goes.
pub fn runs_are_executed()
    ensures { RunsAreExecuted }
{}

/// Where a walk ends at an assertion and its condition is true, the assertion is.
pub fn assertions_hold()
    ensures { AssertionsHold }
{}

/// Where it ends at a call that is taken, the callee's preconditions are true.
pub fn callees_are_entered()
    ensures { CalleesAreEntered }
{}

/// Where it ends at a return, the postconditions are true, and what isn't listed is as at the entry.
pub fn returns_keep_their_word()
    ensures { ReturnsKeepTheirWord }
{}

/// Where it ends at an access, the address lies in an area that the routine permits.
pub fn accesses_are_permitted()
    ensures { AccessesArePermitted }
{}
