ghost use Rattle.std.specs.Prelude.{◌≡◌, ◌<◌, ◌+◌, length};
ghost use Rattle.sp_graph.specs.Structure.{HasNoSlot, words_of, note_words};
ghost use Rattle.sp_logic.specs.View.{note_of, quantity_of};
ghost use Rattle.sp_struct.specs.Kinds.{IsLowestLine};
ghost use Rattle.sp_struct.specs.code.Levels.{AreLevels};
ghost use Rattle.sp_struct.specs.code.Lowest.{LowestSoFar};
ghost use Rattle.sp_struct.specs.code.Slots.{LacksHere, Lowered, lacks};

use crate::finding::lower;
use crate::stack::Levels;
use sp_base::Line;
use sp_logic::{Note, Quantity};
use sp_prog::{Noted, Unit};

/// Whether a quantity names a word that isn't on a stack of this depth.
#[tactic(auto, using(crate::proofs::SlotLemmas::lacks_both))]
fn lacks_word(x: &Quantity, depth: &i64) -> bool
    ensures { result ≡ lacks depth.now (words_of (quantity_of x.now)) }
{
    match x {
        Quantity::StackWord(k) => *depth < 2 * i64::from(*k),
        Quantity::Cell(_, x) | Quantity::Negative(x) | Quantity::Parity(x) => lacks_word(x, depth),
        Quantity::Total(_, x, y) | Quantity::Operate(_, x, y) => {
            lacks_word(x, depth) || lacks_word(y, depth)
        }
        _ => false,
    }
}

/// Whether an annotation names a word that isn't on a stack of this depth.
#[tactic(auto, using(crate::proofs::SlotLemmas::lacks_both))]
fn note_lacks_word(p: &Note, depth: &i64) -> bool
    ensures { result ≡ lacks depth.now (note_words (note_of p.now)) }
{
    match p {
        Note::Constant(_) => false,
        Note::Compare(_, x, y) => lacks_word(x, depth) || lacks_word(y, depth),
        Note::Not(p) => note_lacks_word(p, depth),
        Note::Connect(_, p, q) => note_lacks_word(p, depth) || note_lacks_word(q, depth),
        Note::Quantify(_, _, x, y, p) => {
            lacks_word(x, depth) || lacks_word(y, depth) || note_lacks_word(p, depth)
        }
    }
}

/// The lowest line of the annotations that name a word that isn't there, and the line so far.
fn lowest_note(notes: &[Noted], depth: &i64, so_far: Option<Line>) -> Option<Line>
    ensures { Lowered depth.now notes.now (length notes.now) so_far result }
{
    let mut best = so_far;
    'notes: for place in 0..notes.len() {
        let noted = &notes[place];
        if note_lacks_word(&noted.note, depth) {
            best = lower(best, noted.line);
        }
    }
    best
}

/// The lowest line on which an assertion of this routine, or of one before it, names a word that isn't there.
fn lowest_slot_in(unit: &Unit, all: &[Levels], place: usize, so_far: Option<Line>) -> Option<Line>
    requires place { place < length unit.now.routines }
    requires levels { AreLevels unit.now all.now }
    requires so_far { LowestSoFar (LacksHere unit.now) place 0 so_far }
    ensures { LowestSoFar (LacksHere unit.now) (place + 1) 0 result }
{
    let routine = &unit.routines.as_slice()[place];
    let code = routine.code.as_slice();
    let levels = &all[place];
    let mut best = so_far;
    'places: for at in 0..code.len() {
        if levels.reached[at] {
            best = lowest_note(code[at].asserts.as_slice(), &levels.depths[at], best);
        }
    }
    best
}

/// The lowest line on which an assertion names a word that isn't on the stack.
pub fn lowest_slot(unit: &Unit, all: &[Levels]) -> Option<Line>
    requires { AreLevels unit.now all.now }
    ensures { IsLowestLine (HasNoSlot unit.now) result }
{
    let mut best = None;
    'routines: for place in 0..unit.routines.as_slice().len() {
        best = lowest_slot_in(unit, all, place, best);
    }
    best
}
