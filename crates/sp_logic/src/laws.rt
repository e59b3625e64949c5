//! What printed texts and well-formed notes are, by example.
ghost use Rattle.sp_logic.specs.Examples.{FormsNotes, PrintsNotes};

/// Notes with each form of theirs, and their texts.
pub fn notes_are_printed()
    ensures { PrintsNotes }
{}

/// Notes at the limits of numbers and of words of the stack, and names that quantifiers can't bind.
pub fn notes_are_formed()
    ensures { FormsNotes }
{}
