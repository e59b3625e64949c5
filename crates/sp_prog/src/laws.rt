ghost use Rattle.sp_prog.specs.Examples.{KeepsRegionsApart, KeepsCode, KeepsNotes};
ghost use Rattle.sp_prog.specs.Laws.{ListsHaveTheirLocations, UnitsArePrograms};

/// Each unit has areas apart from the stack region, changed areas and a stack region apart from its image, and instructions
/// whose codes stand in the image, an address being of one alone.
pub fn units_are_programs()
    ensures { UnitsArePrograms }
{}

/// The locations that a unit lists are those of the set that the code keeps.
pub fn lists_have_their_locations()
    ensures { ListsHaveTheirLocations }
{}

/// A program that keeps the rules, with twins whose stack regions and areas break one.
pub fn units_keep_regions_apart()
    ensures { KeepsRegionsApart }
{}

/// Twins whose instructions break a rule.
pub fn units_keep_code()
    ensures { KeepsCode }
{}

/// Twins whose annotations break a rule.
pub fn units_keep_notes()
    ensures { KeepsNotes }
{}
