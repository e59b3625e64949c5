use sp_asm::assemble;
use sp_lex::lines;
use sp_note::read_notes;
use sp_prog::Unit;
use sp_unit::join;
use std::alloc::Global;
use std::process::Abort;
use std::test::Fail;

/// The unit of a source.
pub fn unit_of(rt: &impl Abort, alloc: Global, source: &[u8]) -> Result<Unit, Fail> {
    assert!(rt; source.len() < 10_000);
    let lines = lines(alloc, source)?;
    let Ok(listing) = assemble(alloc, source, &lines) else {
        panic!(rt; "not assembled: {source:?}");
    };
    let Ok(notes) = read_notes(alloc, source, &lines) else {
        panic!(rt; "no notes: {source:?}");
    };
    let Ok(unit) = join(alloc, &listing, &notes) else {
        panic!(rt; "no unit: {source:?}");
    };
    Ok(unit)
}
