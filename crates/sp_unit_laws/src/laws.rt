ghost use Rattle.sp_unit_laws.specs.Breaks.{StraysByExample, UnknownsByExample, ClashesByExample, PlacesByExample, LimitsByExample};
ghost use Rattle.sp_unit_laws.specs.Names.{NamesByExample, BoundNamesByExample, ConditionsByExample};
ghost use Rattle.sp_unit_laws.specs.Order.{LinesAreMerged};
ghost use Rattle.sp_unit_laws.specs.Routines.{RoutinesByExample};
ghost use Rattle.sp_unit_laws.specs.Units.{UnitsByExample, UnitsHaveTheirInstructions};

/// The lines of a source are its statements and its annotation lines, by rising line, and no other list is that.
pub fn lines_are_merged()
    ensures { LinesAreMerged }
{}

/// What names stand for: areas of each kind, then names of the assembler.
pub fn names_by_example()
    ensures { NamesByExample }
{}

/// What a bound name hides.
pub fn bound_names_by_example()
    ensures { BoundNamesByExample }
{}

/// Where a quantifier binds its name.
pub fn conditions_by_example()
    ensures { ConditionsByExample }
{}

/// Lines that belong where they stand, and lines that don't.
pub fn strays_by_example()
    ensures { StraysByExample }
{}

/// Names and expressions with a meaning, and without one.
pub fn unknowns_by_example()
    ensures { UnknownsByExample }
{}

/// Numbers and regions at the ends of their ranges, and past them.
pub fn clashes_by_example()
    ensures { ClashesByExample }
{}

/// Statements, conditions and assertions where they may stand, and where they may not.
pub fn places_by_example()
    ensures { PlacesByExample }
{}

/// The last annotation of a place that may stand there, and the first that may not.
pub fn limits_by_example()
    ensures { LimitsByExample }
{}

/// The routine of a `routine` line, and twins that differ in one thing and aren't its.
pub fn routines_by_example()
    ensures { RoutinesByExample }
{}

/// The instructions of a unit are those of its source: each statement that is one, and no others.
pub fn units_have_their_instructions()
    ensures { UnitsHaveTheirInstructions }
{}

/// A source with two routines, its unit, and programs that differ in one thing and aren't its unit.
pub fn units_by_example()
    ensures { UnitsByExample }
{}
