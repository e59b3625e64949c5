//! Annotation lines are read as the table of lines says.
ghost use Rattle.sp_note_lines.specs.Lines.{ExpressionsFollowTheGrammar, LinesAreRefused, LinesFollowTheTable};

/// A line is read as the part that it is by the table of lines.
pub fn lines_follow_the_table()
    ensures { LinesFollowTheTable }
{}

/// A line is refused exactly where it is no part, and a condition for the rule that it breaks.
pub fn lines_are_refused()
    ensures { LinesAreRefused }
{}

/// Tokens are read as the expression that they are, and else refused for the first rule that they break.
pub fn expressions_follow_the_grammar()
    ensures { ExpressionsFollowTheGrammar }
{}
