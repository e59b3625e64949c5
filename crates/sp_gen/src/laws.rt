ghost use Rattle.sp_gen.specs.Examples.{SourcesByExample};

/// The source and scripts of four routines, line by line, and routines whose numbers don't fit a byte.
pub fn sources_by_example()
    ensures { SourcesByExample }
{}
