//! What printed annotations are read as.
ghost use Rattle.sp_note_laws.specs.Printed.{PrintedNotesAreRead, PrintedNotesStandForThemselves};

/// The text of an annotation is cut into tokens that are written as a condition, which stands for the annotation.
pub fn printed_notes_stand_for_themselves()
    ensures { PrintedNotesStandForThemselves }
{}

/// The reader of conditions answers by the note that was printed, unless the text nests too deep or its numbers are too large.
pub fn printed_notes_are_read()
    ensures { PrintedNotesAreRead }
{}
