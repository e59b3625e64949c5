//! What stands above a line.
ghost use Rattle.std.specs.Prelude.{◌≡◌, ℕ, ◌+◌, min, if◌then◌else◌, List, [], ◌∷◌, ◌++◌};
ghost use Rattle.sp_unit.specs.Lines as lines;
ghost use Rattle.sp_unit.specs.code.Entries.{entry_of, entries_of};

use crate::entry::Entry;
use crate::place::Place;

/// The most routines or areas of a unit.
pub(crate) const UNITS: usize = 1_024;

/// What stands above a line.
#[derive(Clone, Copy)]
pub(crate) struct Above {
    pub has_stack: bool,
    /// How many areas and routines, at most 1,024 each.
    pub areas: usize,
    pub routines: usize,
    pub place: Place,
}

/// A count that stays at 1,024, with one more where a line is of the kind.
fn counted(count: usize, more: bool) -> usize
    ensures { (n : ℕ) → count ≡ min n 1024 → result ≡ min (n + (if more then 1 else 0)) 1024 }
{
    if more && count < UNITS {
        count + 1
    } else {
        count
    }
}

impl Above {
    ghost use Rattle.sp_unit.specs.code.Aboves.{IsAbove};

    pub(crate) fn nothing() -> Above
        ensures { (below : List lines.Entry) → IsAbove result [] below }
    {
        Above {
            has_stack: false,
            areas: 0,
            routines: 0,
            place: Place::Outside,
        }
    }

    /// What stands above the line after this one.
    pub(crate) fn after(self, e: &Entry<'_>, below: &[Entry<'_>]) -> Above
        ensures { (all : List lines.Entry) → IsAbove self all (entry_of e.now ∷ entries_of below.now)
            → IsAbove result (all ++ entry_of e.now ∷ []) (entries_of below.now) }
    {
        Above {
            has_stack: self.has_stack | e.is_stack(),
            areas: counted(self.areas, e.is_area()),
            routines: counted(self.routines, e.is_routine()),
            place: self.place.after(e, below),
        }
    }
}
