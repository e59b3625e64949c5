ghost use Rattle.std.specs.Prelude.{◌<◌, length};
ghost use Rattle.sp_base.specs.Refused.{Answers};
ghost use Rattle.sp_lex.specs.Reading.{AreLines};
ghost use Rattle.sp_asm.specs.Listing.{IsListing, IsAnswered};
ghost use Rattle.sp_asm.specs.Refusals.{IsCause};

use crate::listing::Listing;
use crate::places::places_of;
use crate::refusal::AsmRefusal;
use crate::rows::listing_of;
use sp_lex::Lines;
use std::alloc::Global;

/// The assembly of a source: each statement with its address, the bytes of the image, and the names with their values.
/// Addresses go from 0 to 65,535, and statements without bytes may stand at 65,536. A refusal names the lowest line of the
/// first of three rounds that refuses one: reading statements; addresses, and the values of EQU, SET, ORG and DS; bytes.
pub fn assemble(alloc: Global, source: &[u8], lines: &Lines) -> Result<Listing, AsmRefusal>
    requires lines { AreLines source.now lines.now }
    requires short { length source.now < 4294967295 }
    ensures right { Answers (IsListing source.now lines.now) (IsCause source.now lines.now) result }
    // Each source that has an assembly is assembled, and each cause of a refusal is answered, unless memory runs out.
    ensures complete { IsAnswered source.now lines.now result }
{
    let statements = match sp_stmt::statements(alloc, source, lines) {
        Ok(statements) => statements,
        Err(refusal) => return Err(refusal.with_kind()),
    };
    let places = places_of(alloc, statements.as_slice())?;
    listing_of(alloc, statements.as_slice(), places)
}
