//! The stack region.
ghost use Rattle.std.specs.Prelude.{◌≡◌, is_some};
ghost use Rattle.sp_base.specs.Image.{ImageMap};
ghost use Rattle.sp_note.specs.Parts.{lines_of};
ghost use Rattle.sp_unit.specs.Faults.{region, stack_line, stack_of};
ghost use Rattle.sp_unit.specs.Sources.{source, value_by};

use crate::tables::value_of;
use sp_expr::{Expr, Symbols};
use sp_note::{NoteLine, Part};

/// The numbers of a `stack` line, where both have one.
fn numbers(first: &Expr, last: &Expr, names: &Symbols) -> Option<(u16, u16)>
    ensures { result ≡ region (value_by names.now.entries first.now) (value_by names.now.entries last.now) }
{
    let first = value_of(first, names)?;
    let last = value_of(last, names)?;
    Some((first, last))
}

/// The region of the first `stack` line, where its ends have numbers.
pub(crate) fn stack_region(notes: &[NoteLine], names: &Symbols) -> Option<(u16, u16)>
    ensures { (image : ImageMap) → result ≡ stack_of (source image names.now.entries (lines_of notes.now)) }
{
    for note in notes {
        if let Part::Stack(first, last) = &note.part {
            return numbers(first, last, names);
        }
    }
    None
}

/// Whether there is a `stack` line.
pub(crate) fn has_stack(notes: &[NoteLine], names: &Symbols) -> bool
    ensures { (image : ImageMap) → result ≡ is_some (stack_line (source image names.now.entries (lines_of notes.now))) }
{
    let _ = names;
    for note in notes {
        if let Part::Stack(_, _) = &note.part {
            return true;
        }
    }
    false
}
