ghost use Rattle.std.specs.Prelude.{◌-◌, ◌^◌, ◌<◌};
ghost use Rattle.sp_logic.specs.View.{note_of, frame_of};
ghost use Rattle.sp_eval.specs.Wide.{IsNarrow};
ghost use Rattle.sp_eval.specs.Evaluation.{Evaluates};

use crate::scope::Scope;
use crate::setting::Setting;
use crate::truth::truth_at;
use sp_logic::{Frame, Note};
use sp_machine::Machine;

/// The truth of a note, and how many nodes were evaluated.
#[derive(Clone, Copy, Debug, PartialEq, Eq)]
pub struct Seen {
    pub value: bool,
    pub nodes: u64,
}

/// The note has more nodes than the budget; `nodes` is the budget and 1.
#[derive(Clone, Copy, Debug, PartialEq, Eq)]
pub struct TooLong {
    pub nodes: u64,
}

/// Whether a note is true on the machine `now`, for a run of a routine that began on the machine `entry`. Both sides of
/// each operator and every index of a quantifier are evaluated. It takes no memory.
pub fn holds(
    note: &Note,
    frame: Frame,
    entry: &Machine,
    now: &Machine,
    budget: u64,
) -> Result<Seen, TooLong>
    requires budget { budget < 2 ^ 64 - 1 }
    requires narrow { IsNarrow (note_of note.now) }
    ensures { Evaluates (frame_of frame) (note_of note.now) entry.now now.now budget result }
{
    let _ = entry.pc();
    let _ = now.pc();
    let at = Setting {
        frame,
        entry,
        present: now,
    };
    let mut left = budget;
    match truth_at(&at, &Scope::Empty, note, &mut left) {
        Some(value) => Ok(Seen {
            value,
            nodes: budget - left,
        }),
        None => Err(TooLong { nodes: budget + 1 }),
    }
}
