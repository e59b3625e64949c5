use sp_base::{Line, Refused};
use sp_check::{CheckKind, CheckRefusal, Checked, check, instruction_count};
use std::alloc::Global;
use std::process::Abort;
use std::test::Fail;

/// The answer of the check of a short source.
fn answer(
    rt: &impl Abort,
    alloc: Global,
    source: &[u8],
) -> Result<Result<Checked, CheckRefusal>, Fail> {
    assert!(rt; source.len() < 10_000);
    Ok(check(alloc, source))
}

/// Whether a source is refused at this line for this kind.
pub(crate) fn expect_refused(
    rt: &impl Abort,
    alloc: Global,
    source: &[u8],
    line: u32,
    kind: CheckKind,
) -> Result<(), Fail> {
    match answer(rt, alloc, source)? {
        Ok(_) => panic!(rt; "sound: {source:?}"),
        Err(found) => {
            assert_eq!(rt; found, Refused::At(Line(line), kind), "at {source:?}");
        }
    }
    Ok(())
}

/// Whether a source is sound and has so many routines and instructions.
pub(crate) fn expect_sound(
    rt: &impl Abort,
    alloc: Global,
    source: &[u8],
    routines: usize,
    instructions: u64,
) -> Result<(), Fail> {
    match answer(rt, alloc, source)? {
        Ok(checked) => {
            assert_eq!(rt;
                checked.unit.routines.as_slice().len(),
                routines,
                "at {source:?}"
            );
            assert_eq!(rt;
                instruction_count(&checked.unit),
                instructions,
                "at {source:?}"
            );
        }
        Err(found) => panic!(rt; "{found:?} at {source:?}"),
    }
    Ok(())
}
