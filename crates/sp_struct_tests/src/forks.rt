ghost use Rattle.std.specs.Prelude.{◌<◌, length};
ghost use Rattle.sp_graph.specs.Structure.{IsStructured};

use crate::sources::unit_of;
use sp_graph::{Walk, WalksRefusal, walks};
use sp_prog::Unit;
use sp_struct::check;
use std::alloc::Global;
use std::process::Abort;
use std::test::Fail;

/// A routine of so many jumps with a condition, each to the next line, and a return.
fn forks(alloc: Global, jumps: u32) -> Result<String, Fail>
    requires { jumps < 100 }
{
    let mut source = String::new(alloc);
    source.push_str(";# stack 2300H, 23FFH\n;# routine X1\n;# reads CY\n")?;
    for at in 1..jumps + 1 {
        let line = format!(in alloc; "X{at}: JC X{}\n", at + 1)?;
        source.push_str(line.as_str())?;
    }
    let last = format!(in alloc; "X{}: RET\n;# end\n", jumps + 1)?;
    source.push_str(last.as_str())?;
    Ok(source)
}

/// The choices of a walk as a number in binary, that of its first step as the highest digit.
fn number_of(walk: &Walk) -> u32 {
    let mut number = 0u32;
    for step in walk.steps.as_slice() {
        number = number.wrapping_mul(2).wrapping_add(u32::from(step.taken));
    }
    number
}

/// How many walks a routine has, where the k-th one has the choices of k in binary, or why they aren't given.
fn count_in_order(
    rt: &impl Abort,
    alloc: Global,
    unit: &Unit,
    routine: usize,
) -> Result<Result<u32, WalksRefusal>, Fail>
    requires structured { IsStructured unit.now }
    requires routine { routine < length unit.now.routines }
{
    let mut all = match walks(alloc, unit, routine) {
        Ok(all) => all,
        Err(refused) => return Ok(Err(refused)),
    };
    for count in 0..65_537u32 {
        match all.next()? {
            Some(walk) => assert_eq!(rt; number_of(&walk), count),
            None => return Ok(Ok(count)),
        }
    }
    Ok(Ok(65_537))
}

/// The same, of the only routine of a source.
fn counted(
    rt: &impl Abort,
    alloc: Global,
    source: &[u8],
) -> Result<Result<u32, WalksRefusal>, Fail> {
    let unit = unit_of(rt, alloc, source)?;
    assert_eq!(rt; unit.routines.as_slice().len(), 1);
    match check(alloc, &unit) {
        Ok(_) => count_in_order(rt, alloc, &unit, 0),
        Err(refused) => panic!(rt; "refused: {refused:?}"),
    }
}

static FORKS: [(u32, Result<u32, WalksRefusal>); 9] = [
    (0, Ok(1)),
    (1, Ok(2)),
    (4, Ok(16)),
    (16, Ok(65_536)),
    (17, Err(WalksRefusal::TooMany(131_072))),
    (62, Err(WalksRefusal::TooMany(4_611_686_018_427_387_904))),
    (63, Err(WalksRefusal::TooMany(9_223_372_036_854_775_808))),
    (64, Err(WalksRefusal::TooMany(18_446_744_073_709_551_615))),
    (90, Err(WalksRefusal::TooMany(18_446_744_073_709_551_615))),
];

/// Each jump doubles the walks; over 65,536 they are counted, up to the greatest u64.
#[test]
fn forks_double_the_walks(rt: HostRuntime) -> Result<(), Fail> {
    for (jumps, answer) in &FORKS {
        assert!(rt; *jumps < 100);
        let source = forks(rt.alloc(), *jumps)?;
        let found = counted(&rt, rt.alloc(), source.as_bytes())?;
        assert_eq!(&rt; found, *answer, "at {jumps} jumps");
    }
    Ok(())
}
