//! The registers and flags that instructions use and set, by the 8080 manual.
use sp_base::{Loc, Locs, Pair, Reg};
use sp_isa::{Arg, Cond, Instr, Op, StackPair, reads, valid, writes};
use std::test::Fail;

/// The locations of a list as a set.
fn set_of(locs: &[Loc]) -> Locs {
    let mut set = Locs::empty();
    for x in locs {
        set = set.union(Locs::single(*x));
    }
    set
}

/// Instructions with what they use and set.
static ROWS: [(Instr, &[Loc], &[Loc]); 13] = [
    (
        Instr::Mov(Arg::M, Arg::Reg(Reg::B)),
        &[Loc::B, Loc::H, Loc::L],
        &[],
    ),
    (
        Instr::Inr(Arg::M),
        &[Loc::H, Loc::L],
        &[Loc::S, Loc::Z, Loc::Ac, Loc::P],
    ),
    (
        Instr::Alu(Op::Xra, Arg::Reg(Reg::A)),
        &[],
        &[Loc::A, Loc::S, Loc::Z, Loc::Ac, Loc::P, Loc::Cy],
    ),
    (
        Instr::Alu(Op::Sbb, Arg::Reg(Reg::A)),
        &[Loc::Cy],
        &[Loc::A, Loc::S, Loc::Z, Loc::Ac, Loc::P, Loc::Cy],
    ),
    (
        Instr::Alu(Op::Cmp, Arg::M),
        &[Loc::A, Loc::H, Loc::L],
        &[Loc::S, Loc::Z, Loc::Ac, Loc::P, Loc::Cy],
    ),
    (
        Instr::AluImmediate(Op::Adc, 1),
        &[Loc::A, Loc::Cy],
        &[Loc::A, Loc::S, Loc::Z, Loc::Ac, Loc::P, Loc::Cy],
    ),
    (
        Instr::Daa,
        &[Loc::A, Loc::Ac, Loc::Cy],
        &[Loc::A, Loc::S, Loc::Z, Loc::Ac, Loc::P, Loc::Cy],
    ),
    (
        Instr::Dad(Pair::Sp),
        &[Loc::H, Loc::L],
        &[Loc::H, Loc::L, Loc::Cy],
    ),
    (Instr::Push(StackPair::B), &[], &[]),
    (Instr::Pop(StackPair::D), &[], &[Loc::D, Loc::E]),
    (Instr::Xthl, &[], &[Loc::H, Loc::L]),
    (Instr::Ccc(Cond::P, 0), &[Loc::S], &[]),
    (Instr::Out(1), &[Loc::A], &[]),
];

#[test]
fn instructions_read_and_write_locations(rt: HostRuntime) -> Result<(), Fail> {
    for (i, used, written) in &ROWS {
        assert!(rt; valid(i));
        assert_eq!(rt;
            (reads(i), writes(i)),
            (set_of(used), set_of(written)),
            "{i:?}"
        );
    }
    assert!(rt; set_of(&[Loc::A, Loc::Cy]).contains(Loc::Cy));
    assert!(rt; !set_of(&[Loc::A, Loc::Cy]).contains(Loc::C));
    Ok(())
}
