ghost use Rattle.sp_stmt.specs.Examples.{InstructionsByExample, ValuesByExample, DirectivesByExample, LabelsByExample};
ghost use Rattle.sp_stmt.specs.Grammar.{LinesAreOneStatement};
ghost use Rattle.sp_stmt.specs.Source.{SourcesHaveOneAnswer};

/// A line is at most one statement.
pub fn a_line_is_one_statement()
    ensures { LinesAreOneStatement }
{}

/// The lines of a source have their statements, or a lowest line has none, for one kind of fault.
pub fn a_source_has_one_answer()
    ensures { SourcesHaveOneAnswer }
{}

/// Lines with instructions that differ little: which are statements, and which.
pub fn instructions_by_example()
    ensures { InstructionsByExample }
{}

/// Lines with values that differ little.
pub fn values_by_example()
    ensures { ValuesByExample }
{}

/// Lines with directives that differ little.
pub fn directives_by_example()
    ensures { DirectivesByExample }
{}

/// Lines with labels that differ little.
pub fn labels_by_example()
    ensures { LabelsByExample }
{}
