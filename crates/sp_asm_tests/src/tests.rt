mod images;
mod listings;
mod refusals;

use sp_asm::{AsmRefusal, Listing, assemble};
use sp_lex::lines;
use std::alloc::Global;
use std::process::Abort;
use std::test::Fail;

/// What a source is assembled to, or why it isn't.
fn assembled(
    rt: &impl Abort,
    alloc: Global,
    source: &[u8],
) -> Result<Result<Listing, AsmRefusal>, Fail> {
    assert!(rt; source.len() < 10_000);
    let lines = lines(alloc, source)?;
    Ok(assemble(alloc, source, &lines))
}
