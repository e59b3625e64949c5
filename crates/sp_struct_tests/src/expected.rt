use crate::sources::unit_of;
use sp_base::{Line, Refused};
use sp_graph::Sound;
use sp_struct::{StructKind, StructRefusal, check};
use std::alloc::Global;
use std::process::Abort;
use std::test::Fail;

/// The depths of a source's instructions, or the rule on structure that it breaks first.
fn checked(
    rt: &impl Abort,
    alloc: Global,
    source: &[u8],
) -> Result<Result<Sound, StructRefusal>, Fail> {
    let unit = unit_of(rt, alloc, source)?;
    Ok(check(alloc, &unit))
}

/// Whether each source is refused at its line for its kind.
pub fn expect_refused(
    rt: &impl Abort,
    alloc: Global,
    table: &[(&[u8], u32, StructKind)],
) -> Result<(), Fail> {
    for (source, line, kind) in table {
        match checked(rt, alloc, source)? {
            Ok(_) => panic!(rt; "not refused: {source:?}"),
            Err(found) => assert_eq!(rt; found, Refused::At(Line(*line), *kind), "at {source:?}"),
        }
    }
    Ok(())
}

/// How many instructions have a depth.
fn instructions(sound: &Sound) -> usize {
    let mut count = 0usize;
    for depths in sound.depths.as_slice() {
        count = count.saturating_add(depths.as_slice().len());
    }
    count
}

/// Whether each source breaks no rule, and has so many routines and instructions.
pub fn expect_sound(
    rt: &impl Abort,
    alloc: Global,
    table: &[(&[u8], usize, usize)],
) -> Result<(), Fail> {
    for (source, routines, count) in table {
        match checked(rt, alloc, source)? {
            Ok(sound) => assert_eq!(rt;
                (sound.depths.as_slice().len(), instructions(&sound)),
                (*routines, *count),
                "at {source:?}"
            ),
            Err(found) => panic!(rt; "refused: {found:?} at {source:?}"),
        }
    }
    Ok(())
}
