ghost use Rattle.std.specs.Prelude.{◌<◌, length};
ghost use Rattle.sp_base.specs.Refused.{Answers};
ghost use Rattle.sp_check.specs.Refusals.{IsChecked, IsRefused, CheckIsAnswered};

use crate::reading::read_unit;
use crate::refusal::CheckRefusal;
use sp_graph::Sound;
use sp_prog::Unit;
use std::alloc::Global;

/// A unit whose structure and flow are right, with the depths of its instructions.
#[derive(Debug, Drop)]
pub struct Checked {
    pub unit: Unit,
    pub sound: Sound,
}

/// Reads the unit of a source and checks its structure and its flow. A refusal names the first of Text, Asm, Note, Unit,
/// Struct and Flow that stands, at its line. The source has fewer than 4,294,967,295 bytes.
pub fn check(alloc: Global, source: &[u8]) -> Result<Checked, CheckRefusal>
    requires { length source.now < 4294967295 }
    ensures right { Answers (IsChecked source.now) (IsRefused source.now) result }
    // Each source whose unit is sound is answered by it, and each other one is refused, unless memory runs out.
    ensures complete { CheckIsAnswered source.now result }
{
    let unit = read_unit(alloc, source)?;
    let sound = match sp_struct::check(alloc, &unit) {
        Ok(sound) => sound,
        Err(refusal) => return Err(refusal.with_kind()),
    };
    match sp_flow::check(alloc, &unit) {
        Ok(_) => Ok(Checked { unit, sound }),
        Err(refusal) => Err(refusal.with_kind()),
    }
}
