ghost use Rattle.sp_asm.specs.Examples.{AddressesByExample, RoomByExample, UsesByExample, DefinitionsByExample, RangesByExample, BytesByExample, AssembliesByExample, CausesByExample};
ghost use Rattle.sp_asm.specs.Items.{ListingsHoldTheirItems, ImagesHoldTheirItems};
ghost use Rattle.sp_asm.specs.Meanings.{NamesHaveMeanings};
ghost use Rattle.sp_asm.specs.Source.{AssembliesAreOne, CausesAreOne};

/// A source has at most one assembly.
pub fn a_source_has_one_assembly()
    ensures { AssembliesAreOne }
{}

/// A source is refused for one kind at one line, and never where it has an assembly.
pub fn causes_are_one()
    ensures { CausesAreOne }
{}

/// Names stand for what they mean, in EQU, SET, ORG and DS, in other statements and in annotations, and are listed in the
/// order of their first definitions.
pub fn names_have_meanings()
    ensures { NamesHaveMeanings }
{}

/// The items of a listing are the statements of its source by rising lines, and its image has their bytes and no others.
pub fn listings_hold_their_items()
    ensures { ListingsHoldTheirItems }
{}

/// In an image that holds items each instruction is valid and stands at its address, and no two share a byte's address.
pub fn images_hold_their_items()
    ensures { ImagesHoldTheirItems }
{}

/// The address after statements that differ little.
pub fn addresses_by_example()
    ensures { AddressesByExample }
{}

/// Labels, bytes and spaces at the last addresses.
pub fn room_by_example()
    ensures { RoomByExample }
{}

/// Which statements use the names above alone, and what the names that they define have as values.
pub fn uses_by_example()
    ensures { UsesByExample }
{}

/// Names that are defined again, by SET and otherwise.
pub fn definitions_by_example()
    ensures { DefinitionsByExample }
{}

/// Values at the ends of their ranges.
pub fn ranges_by_example()
    ensures { RangesByExample }
{}

/// The bytes of instructions and items.
pub fn bytes_by_example()
    ensures { BytesByExample }
{}

/// An assembly written out.
pub fn assemblies_by_example()
    ensures { AssembliesByExample }
{}

/// Small sources with the line and the kind of their refusals.
pub fn causes_by_example()
    ensures { CausesByExample }
{}
