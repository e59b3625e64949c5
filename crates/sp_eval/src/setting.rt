ghost use Rattle.std.specs.Prelude.{◌≡◌};
ghost use Rattle.sp_eval.specs.code.Setting.{core_at};

use sp_logic::{Frame, Moment};
use sp_machine::Machine;

/// What a note is read in: its frame, the machine at the routine's entry, and the present one.
#[derive(Clone, Copy)]
pub struct Setting<'a> {
    pub frame: Frame,
    pub entry: &'a Machine,
    pub present: &'a Machine,
}

/// The machine at a moment.
pub fn machine_at<'a>(at: &Setting<'a>, moment: Moment) -> &'a Machine
    ensures { result.now ≡ core_at moment at.now }
{
    match moment {
        Moment::Now => at.present,
        Moment::AtEntry => at.entry,
    }
}
