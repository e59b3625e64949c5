//! Statements and annotation lines in one order.
ghost use Rattle.std.specs.Prelude.{◌≡◌, ◌+◌, ◌<◌, ◌∷◌, [], IfOk, IfSome, MatchOption, length, map};
ghost use Rattle.sp_note.specs.Parts.{lines_of};
ghost use Rattle.sp_unit.specs.Lines.{merged};
ghost use Rattle.sp_unit.specs.code.Entries.{entry_of, entries_of};

use crate::entry::Entry;
use sp_asm::Item;
use sp_base::Memory;
use sp_note::NoteLine;
use std::alloc::Global;

/// The first of some lines, and the others.
#[derive(Clone, Copy)]
struct First<'a> {
    entry: Entry<'a>,
    items: &'a [Item],
    notes: &'a [NoteLine],
}

/// The first line, if there is one.
fn first_line<'a>(items: &'a [Item], notes: &'a [NoteLine]) -> Option<First<'a>>
    ensures lines { MatchOption result (merged items.now (lines_of notes.now) ≡ [])
        (λ f. merged items.now (lines_of notes.now) ≡ entry_of f.entry ∷ merged f.items.now (lines_of f.notes.now)) }
    ensures fewer { IfSome result (λ f. length f.items.now + length f.notes.now < length items.now + length notes.now) }
{
    let [item, items_below @ ..] = items else {
        let [note, notes_below @ ..] = notes else {
            return None;
        };
        return Some(First {
            entry: Entry::Annotation(note),
            items,
            notes: notes_below,
        });
    };
    let [note, notes_below @ ..] = notes else {
        return Some(First {
            entry: Entry::Statement(item),
            items: items_below,
            notes,
        });
    };
    if item.line.0 < note.line.0 {
        return Some(First {
            entry: Entry::Statement(item),
            items: items_below,
            notes,
        });
    }
    Some(First {
        entry: Entry::Annotation(note),
        items,
        notes: notes_below,
    })
}

/// The lines of a source: its statements and its annotation lines by rising line.
pub(crate) fn merged<'a>(
    alloc: Global,
    items: &'a [Item],
    notes: &'a [NoteLine],
) -> Result<Vec<Entry<'a>>, Memory>
    ensures { IfOk result (λ all. entries_of all.items ≡ merged items.now (lines_of notes.now)) }
{
    let mut all = Vec::new(alloc);
    let mut items_below = items;
    let mut notes_below = notes;
    while let Some(first) = first_line(items_below, notes_below) {
        all.push(first.entry)?;
        items_below = first.items;
        notes_below = first.notes;
    }
    Ok(all)
}
