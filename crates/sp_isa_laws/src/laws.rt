//! What instructions read.
ghost use Rattle.sp_isa_laws.specs.Differences.{ReadsMatter};
ghost use Rattle.sp_isa_laws.specs.Sets.{AreSets};

/// Each register and flag that an instruction reads can make a difference, so that none is read for nothing.
pub fn locations_make_differences()
    ensures { ReadsMatter }
{}

/// Locations are in the sets that are made of them, and in no others.
pub fn locations_form_sets()
    ensures { AreSets }
{}
