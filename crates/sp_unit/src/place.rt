//! Where a line stands among those above it.
ghost use Rattle.std.specs.Prelude.{◌≡◌, ℕ, ◌+◌, min, if◌then◌else◌, List, [], ◌∷◌, ◌++◌, true, false};
ghost use Rattle.sp_unit.specs.code.Entries.{note, entry_of, entries_of};
ghost use Rattle.sp_unit.specs.Lines as lines;

use crate::entry::{Entry, is_depth_part, is_post_part, is_pre_part, is_start_part};
use crate::stretch::{has_start, header};
use sp_note::Part;

/// The most annotations of a place.
pub(crate) const NOTES: usize = 64;

/// What stands in a header so far.
#[derive(Clone, Copy)]
pub(crate) struct Header {
    /// Whether a line of the header says that it is a start routine, above or below.
    pub is_start: bool,
    pub starts: bool,
    pub has_depth: bool,
    /// How many conditions of each kind stand above, at most 64.
    pub pre: usize,
    pub post: usize,
}

/// What stands in a routine after its header so far.
#[derive(Clone, Copy)]
pub(crate) struct Body {
    pub is_start: bool,
    /// Whether an instruction stands above.
    pub entered: bool,
    /// How many assertions at the next instruction stand above, at most 64.
    pub asserts: usize,
}

/// The part of a source in which a line stands.
#[derive(Clone, Copy)]
pub(crate) enum Place {
    /// In no routine.
    Outside,
    /// In the header of a routine.
    Header(Header),
    /// In a routine, after its header.
    Body(Body),
}

/// A count that stays at 64, with one more where a line is of the kind.
fn counted(count: usize, more: bool) -> usize
    ensures { (n : ℕ) → count ≡ min n 64 → result ≡ min (n + (if more then 1 else 0)) 64 }
{
    if more && count < NOTES {
        count + 1
    } else {
        count
    }
}

impl Header {
    ghost use Rattle.sp_unit.specs.code.Places.{IsHeader};

    /// The header of a routine with these lines below it.
    fn begun(below: &[Entry<'_>]) -> Header
        ensures { IsHeader result [] (entries_of below.now) }
    {
        Header {
            is_start: has_start(header(below)),
            starts: false,
            has_depth: false,
            pre: 0,
            post: 0,
        }
    }

    /// With one line more.
    fn after(self, part: &Part) -> Header
        ensures { (all below : List lines.Entry) (n : ℕ) → lines.ends_header (lines.Annotation (note n part.now)) ≡ false
            → IsHeader self all (lines.Annotation (note n part.now) ∷ below) → IsHeader result (all ++ lines.Annotation (note n part.now) ∷ []) below }
    {
        Header {
            is_start: self.is_start,
            starts: self.starts | is_start_part(part),
            has_depth: self.has_depth | is_depth_part(part),
            pre: counted(self.pre, is_pre_part(part)),
            post: counted(self.post, is_post_part(part)),
        }
    }
}

impl Body {
    ghost use Rattle.sp_unit.specs.code.Places.{IsBody};

    /// With one line more.
    fn after(self, e: &Entry<'_>) -> Body
        ensures { (all more : List lines.Entry) → IsBody self all more → IsBody result all (more ++ entry_of e.now ∷ []) }
    {
        if e.is_instruction() {
            return Body {
                is_start: self.is_start,
                entered: true,
                asserts: 0,
            };
        }
        Body {
            is_start: self.is_start,
            entered: self.entered,
            asserts: counted(self.asserts, e.is_assertion()),
        }
    }
}

impl Place {
    ghost use Rattle.sp_unit.specs.code.Places.{IsHeader, IsBody, IsPlace};
    ghost use Rattle.sp_unit.specs.Lines.{Outside, InHeader, InBody, next_place, grown};

    /// The place after a header that this line ends.
    fn ended(h: Header, e: &Entry<'_>) -> Place
        ensures { (all below : List lines.Entry) → lines.ends_header (entry_of e.now) ≡ true → IsHeader h all (entry_of e.now ∷ below)
            → IsPlace result (InBody all (entry_of e.now ∷ [])) below }
    {
        let body = Body {
            is_start: h.is_start,
            entered: false,
            asserts: 0,
        };
        Place::Body(body.after(e))
    }

    /// The place after one more line that neither begins nor ends a routine.
    fn grown(self, e: &Entry<'_>) -> Place
        ensures { (place : lines.Place) (below : List lines.Entry) → IsPlace self place (entry_of e.now ∷ below) → IsPlace result (grown place (entry_of e.now)) below }
    {
        match self {
            Place::Outside => Place::Outside,
            Place::Body(body) => Place::Body(body.after(e)),
            Place::Header(h) => match e {
                Entry::Annotation(note) => {
                    if e.ends_header() {
                        Place::ended(h, e)
                    } else {
                        Place::Header(h.after(&note.part))
                    }
                }
                Entry::Statement(_) => Place::ended(h, e),
            },
        }
    }

    /// The place after one more line, above these.
    pub(crate) fn after(self, e: &Entry<'_>, below: &[Entry<'_>]) -> Place
        ensures { (place : lines.Place) → IsPlace self place (entry_of e.now ∷ entries_of below.now)
            → IsPlace result (next_place place (entry_of e.now)) (entries_of below.now) }
    {
        if e.is_routine() {
            return Place::Header(Header::begun(below));
        }
        if e.is_end() {
            return Place::Outside;
        }
        self.grown(e)
    }
}
