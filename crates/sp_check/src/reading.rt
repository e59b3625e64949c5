ghost use Rattle.std.specs.Prelude.{◌<◌, length};
ghost use Rattle.sp_base.specs.Refused.{Answers};
ghost use Rattle.sp_check.specs.Refusals.{HasNoUnit, UnitIsAnswered};
ghost use Rattle.sp_check.specs.Units.{HasUnit};

use crate::refusal::CheckRefusal;
use sp_prog::Unit;
use std::alloc::Global;

/// The unit of a source: its lines, its listing, its annotation lines, and what these say together. A refusal names the
/// first of Text, Asm, Note and Unit that stands, at its line. The source has fewer than 4,294,967,295 bytes.
pub fn read_unit(alloc: Global, source: &[u8]) -> Result<Unit, CheckRefusal>
    requires { length source.now < 4294967295 }
    ensures right { Answers (HasUnit source.now) (HasNoUnit source.now) result }
    // Each source that has a unit is answered by it, and each that has none is refused, unless memory runs out.
    ensures complete { UnitIsAnswered source.now result }
{
    let lines = match sp_lex::lines(alloc, source) {
        Ok(lines) => lines,
        Err(refusal) => return Err(refusal.with_kind()),
    };
    let listing = match sp_asm::assemble(alloc, source, &lines) {
        Ok(listing) => listing,
        Err(refusal) => return Err(refusal.with_kind()),
    };
    let notes = match sp_note::read_notes(alloc, source, &lines) {
        Ok(notes) => notes,
        Err(refusal) => return Err(refusal.with_kind()),
    };
    match sp_unit::join(alloc, &listing, &notes) {
        Ok(unit) => Ok(unit),
        Err(refusal) => Err(refusal.with_kind()),
    }
}
