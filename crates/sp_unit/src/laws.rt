ghost use Rattle.sp_unit.specs.Kept.{UnitsOfSourcesKeepTheRules};
ghost use Rattle.sp_unit.specs.Lines.{PlacesAreFound};
ghost use Rattle.sp_unit.specs.Faults.{SourcesHaveOneCause};
ghost use Rattle.sp_unit.specs.Sources.{ValuesAreOfTrees};

/// Lines stand in the header or the routine that begins last above them, and outside routines after an `end`.
pub fn places_are_found()
    ensures { PlacesAreFound }
{}

/// A source has one first fault at most, and none where its lines are right.
pub fn sources_have_one_cause()
    ensures { SourcesHaveOneCause }
{}

/// Expressions of annotation lines stand for the values of their trees.
pub fn values_are_of_trees()
    ensures { ValuesAreOfTrees }
{}

/// The unit of a source keeps the rules of units: whatever the lines break none of, the program keeps.
pub fn units_of_sources_keep_the_rules()
    ensures { UnitsOfSourcesKeepTheRules }
{}
