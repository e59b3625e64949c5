use sp_asm::assemble;
use sp_base::{Line, Refused};
use sp_lex::lines;
use sp_note::read_notes;
use sp_unit::{UnitKind, UnitRefusal, check};
use std::alloc::Global;
use std::process::Abort;
use std::test::Fail;

/// Whether a source keeps the rules of units, or the line that breaks one first.
fn checked(rt: &impl Abort, alloc: Global, source: &[u8]) -> Result<Result<(), UnitRefusal>, Fail> {
    assert!(rt; source.len() < 100_000);
    let lines = lines(alloc, source)?;
    let Ok(listing) = assemble(alloc, source, &lines) else {
        panic!(rt; "not assembled: {source:?}");
    };
    let Ok(notes) = read_notes(alloc, source, &lines) else {
        panic!(rt; "no notes: {source:?}");
    };
    Ok(check(alloc, &listing, &notes))
}

/// Whether each source is refused at its line for its kind.
fn expect_refused(
    rt: &impl Abort,
    alloc: Global,
    table: &[(&[u8], u32, UnitKind)],
) -> Result<(), Fail> {
    for (source, line, kind) in table {
        let found = checked(rt, alloc, source)?;
        assert_eq!(rt;
            found,
            Err(Refused::At(Line(*line), *kind)),
            "at {source:?}"
        );
    }
    Ok(())
}

/// Whether each source keeps the rules.
fn expect_right(rt: &impl Abort, alloc: Global, table: &[&[u8]]) -> Result<(), Fail> {
    for source in table {
        let found = checked(rt, alloc, source)?;
        assert_eq!(rt; found, Ok(()), "at {source:?}");
    }
    Ok(())
}

static FIRST: [(&[u8], u32, UnitKind); 60] = [
    (b"", 0, UnitKind::NoStack),
    (b"; # stack 1, 2\n", 0, UnitKind::NoStack),
    (b" NOP\n", 0, UnitKind::NoStack),
    (b";# end\n", 0, UnitKind::NoStack),
    (b";# routine R\nR: RET\n;# end\n", 0, UnitKind::NoStack),
    (b"END\n;# stack 2300H, 23FFH\n", 0, UnitKind::NoStack),
    (b";# byte X, 1\n;# byte X, 1\n", 0, UnitKind::NoStack),
    (
        b";# stack 2300H, 23FFH\n;# stack 2300H, 23FFH\n",
        2,
        UnitKind::Stray,
    ),
    (
        b";# stack 2300H, 23FFH\n;# stack 5, 1\n",
        2,
        UnitKind::Stray,
    ),
    (
        b";# stack 2300H, 23FFH\n;# routine R\n;# start\n;# start\nR: LXI SP,2400H\nH1: JMP H1\n;# end\n",
        4,
        UnitKind::Stray,
    ),
    (
        b";# stack 2300H, 23FFH\n;# routine R\n;# depth 2\n;# depth 2\nR: RET\n;# end\n",
        4,
        UnitKind::Stray,
    ),
    (
        b";# stack 2300H, 23FFH\n;# pre true\n;# routine R\nR: RET\n;# end\n",
        2,
        UnitKind::Stray,
    ),
    (
        b";# stack 2300H, 23FFH\n;# routine R\nR: RET\n;# post true\n;# end\n",
        4,
        UnitKind::Stray,
    ),
    (
        b";# stack 2300H, 23FFH\n;# routine R\n;# assert true\n;# reads A\nR: RET\n;# end\n",
        4,
        UnitKind::Stray,
    ),
    (
        b";# stack 2300H, 23FFH\n;# routine R\nR:\n;# changes A\n RET\n;# end\n",
        4,
        UnitKind::Stray,
    ),
    (
        b";# stack 2300H, 23FFH\n;# routine R\nX EQU 1\n;# changes A\nR: RET\n;# end\n",
        4,
        UnitKind::Stray,
    ),
    (
        b";# stack 2300H, 23FFH\n;# routine R\nX SET 1\n;# start\nR: RET\n;# end\n",
        4,
        UnitKind::Stray,
    ),
    (
        b";# stack 2300H, 23FFH\n;# routine R\nR: RET\n;# end\n;# ins 1\n",
        5,
        UnitKind::Stray,
    ),
    (
        b";# stack 2300H, 23FFH\n;# routine R\nR: RET\n;# end\n;# depth 2\n",
        5,
        UnitKind::Stray,
    ),
    (
        b";# stack 2300H, 23FFH\n;# assert true\n;# routine R\nR: RET\n;# end\n",
        2,
        UnitKind::Stray,
    ),
    (
        b";# stack 2300H, 23FFH\n;# routine R\nR: RET\n;# end\n;# assert true\n",
        5,
        UnitKind::Stray,
    ),
    (
        b";# stack 2300H, 23FFH\n;# end\n;# routine R\nR: RET\n;# end\n",
        2,
        UnitKind::Stray,
    ),
    (
        b";# stack 2300H, 23FFH\n;# routine R\nR: RET\n;# end\n;# end\n",
        5,
        UnitKind::Stray,
    ),
    (
        b";# stack 2300H, 23FFH\n;# routine R\nR: RET\n;# routine S1\nS1: RET\n;# end\n",
        4,
        UnitKind::Stray,
    ),
    (
        b";# stack 2300H, 23FFH\n;# routine R\nR: RET\n",
        2,
        UnitKind::Stray,
    ),
    (
        b";# stack 2300H, 23FFH\n;# routine R\nR: RET\n;# end\n;# routine S1\nS1: RET\n",
        5,
        UnitKind::Stray,
    ),
    (
        b";# stack 2300H, 23FFH\n;# routine R\nR: RET\n;# assert true\n;# end\n",
        4,
        UnitKind::Stray,
    ),
    (
        b";# stack 2300H, 23FFH\n;# routine R\nR: RET\n;# assert true\nL1:\n;# end\n",
        4,
        UnitKind::Stray,
    ),
    (
        b";# stack 2300H, 23FFH\n;# routine R\nR: RET\n;# assert true\nX EQU 1\n;# end\n;# routine S1\nS1: RET\n;# end\n",
        4,
        UnitKind::Stray,
    ),
    (
        b";# stack 2300H, 23FFH\n;# routine R\nR: RET\nEND\n;# end\n",
        2,
        UnitKind::Stray,
    ),
    (
        b";# stack 2300H, 23FFH\n;# byte X, Q\n",
        2,
        UnitKind::Unknown,
    ),
    (b";# stack Q, 5\n", 1, UnitKind::Unknown),
    (b";# stack 1/0, 5\n", 1, UnitKind::Unknown),
    (
        b";# stack 2300H, 23FFH\n;# bytes X, 1, 5 MOD 0\n",
        2,
        UnitKind::Unknown,
    ),
    (
        b";# stack 2300H, 23FFH\n;# routine R\n;# depth Q\nR: RET\n;# end\n",
        3,
        UnitKind::Unknown,
    ),
    (
        b";# stack 2300H, 23FFH\n;# routine R\n;# ins 1, Q\nR: RET\n;# end\n",
        3,
        UnitKind::Unknown,
    ),
    (
        b";# stack 2300H, 23FFH\n;# routine R\n;# outs 1/0\nR: RET\n;# end\n",
        3,
        UnitKind::Unknown,
    ),
    (
        b";# stack 2300H, 23FFH\n;# routine R\n;# reads Q\nR: RET\n;# end\n",
        3,
        UnitKind::Unknown,
    ),
    (
        b";# stack 2300H, 23FFH\n;# routine R\n;# changes A, Q\nR: RET\n;# end\n",
        3,
        UnitKind::Unknown,
    ),
    (
        b";# stack 2300H, 23FFH\n;# routine R\n;# reads R\nR: RET\n;# end\n",
        3,
        UnitKind::Unknown,
    ),
    (
        b";# stack 2300H, 23FFH\n;# routine R\n;# pre Q = 1\nR: RET\n;# end\n",
        3,
        UnitKind::Unknown,
    ),
    (
        b";# stack 2300H, 23FFH\n;# bytes P1, 2000H, 4\n;# bytes P2, 2004H, 4\n;# byte B1, 2010H\n;# word W1, 2012H\n;# routine R\n;# pre P1 = 1\nR: RET\n;# end\n",
        7,
        UnitKind::Unknown,
    ),
    (
        b";# stack 2300H, 23FFH\n;# bytes P1, 2000H, 4\n;# bytes P2, 2004H, 4\n;# byte B1, 2010H\n;# word W1, 2012H\n;# routine R\n;# pre B1[0] = 1\nR: RET\n;# end\n",
        7,
        UnitKind::Unknown,
    ),
    (
        b";# stack 2300H, 23FFH\n;# bytes P1, 2000H, 4\n;# bytes P2, 2004H, 4\n;# byte B1, 2010H\n;# word W1, 2012H\n;# routine R\n;# post W1[0] = 1\nR: RET\n;# end\n",
        7,
        UnitKind::Unknown,
    ),
    (
        b";# stack 2300H, 23FFH\n;# routine R\n;# pre R[0] = 1\nR: RET\n;# end\n",
        3,
        UnitKind::Unknown,
    ),
    (
        b";# stack 2300H, 23FFH\n;# routine R\n;# pre R~ = 1\nR: RET\n;# end\n",
        3,
        UnitKind::Unknown,
    ),
    (
        b";# stack 2300H, 23FFH\n;# routine R\n;# pre addr(R) = 1\nR: RET\n;# end\n",
        3,
        UnitKind::Unknown,
    ),
    (
        b";# stack 2300H, 23FFH\n;# routine R\n;# pre len(Q) = 1\nR: RET\n;# end\n",
        3,
        UnitKind::Unknown,
    ),
    (
        b";# stack 2300H, 23FFH\n;# routine R\n;# pre for all I in 0..I: true\nR: RET\n;# end\n",
        3,
        UnitKind::Unknown,
    ),
    (
        b";# stack 2300H, 23FFH\n;# routine R\n;# pre for all I in 0..1: I~ = 1\nR: RET\n;# end\n",
        3,
        UnitKind::Unknown,
    ),
    (
        b";# stack 2300H, 23FFH\n;# bytes P1, 2000H, 4\n;# bytes P2, 2004H, 4\n;# byte B1, 2010H\n;# word W1, 2012H\n;# routine R\n;# pre for all P1 in 0..1: P1[0] = 1\nR: RET\n;# end\n",
        7,
        UnitKind::Unknown,
    ),
    (
        b";# stack 2300H, 23FFH\n;# routine R\n;# pre STK0 = 1\nR: RET\n;# end\n",
        3,
        UnitKind::Unknown,
    ),
    (
        b";# stack 2300H, 23FFH\n;# routine R\n;# pre STK01 = 1\nR: RET\n;# end\n",
        3,
        UnitKind::Unknown,
    ),
    (
        b";# stack 2300H, 23FFH\n;# routine R\n;# pre STK32768 = 1\nR: RET\n;# end\n",
        3,
        UnitKind::Unknown,
    ),
    (
        b";# stack 2300H, 23FFH\n;# routine S1\nR: RET\n;# end\n",
        2,
        UnitKind::Unknown,
    ),
    (
        b";# stack 2300H, 23FFH\n;# routine S1\nR: NOP\nS1: RET\n;# end\n",
        2,
        UnitKind::Unknown,
    ),
    (
        b";# stack 2300H, 23FFH\nR:\n;# routine R\n RET\n;# end\n",
        3,
        UnitKind::Unknown,
    ),
    (
        b";# stack 2300H, 23FFH\n;# routine R\n RET\n;# end\nR EQU 0\n",
        2,
        UnitKind::Unknown,
    ),
    (
        b";# stack 2300H, 23FFH\n;# routine R\n;# end\nR:\n",
        2,
        UnitKind::Unknown,
    ),
    (
        b";# stack 2300H, 23FFH\n;# routine R\nR:\n;# end\n",
        2,
        UnitKind::Unknown,
    ),
];

static SECOND: [(&[u8], u32, UnitKind); 62] = [
    (
        b";# stack 2300H, 23FFH\n;# routine R\nR EQU 0\n RET\n;# end\n",
        2,
        UnitKind::Unknown,
    ),
    (
        b";# stack 2300H, 23FFH\n;# routine R\nR: RET\n;# end\n;# routine R1\nS1: RET\n;# end\n",
        5,
        UnitKind::Unknown,
    ),
    (
        b";# stack 2300H, 23FFH\n;# routine R\n;# pre mem[Q] = 0\nR: RET\n;# end\n",
        3,
        UnitKind::Unknown,
    ),
    (
        b";# stack 2300H, 23FFH\n;# routine R\n;# assert Q = 1\nR: RET\n;# end\n",
        3,
        UnitKind::Unknown,
    ),
    (
        b";# stack 2300H, 23FFH\n;# routine R\n;# reads A\n;# pre Z1 = 1\nR: RET\n;# end\n",
        4,
        UnitKind::Unknown,
    ),
    (b";# stack 5, 4\n", 1, UnitKind::Clash),
    (b";# stack 0, 0FFFFH\n", 1, UnitKind::Clash),
    (b";# stack 0, 10\n DB 1\n", 1, UnitKind::Clash),
    (
        b";# stack 0FFH, 1FFH\nORG 1FFH\n DB 1\n",
        1,
        UnitKind::Clash,
    ),
    (
        b";# stack 2300H, 23FFH\n;# bytes X, 1000H, 0\n",
        2,
        UnitKind::Clash,
    ),
    (
        b";# stack 2300H, 23FFH\n;# bytes X, 0FFFFH, 2\n",
        2,
        UnitKind::Clash,
    ),
    (
        b";# stack 2300H, 23FFH\n;# word X, 0FFFFH\n",
        2,
        UnitKind::Clash,
    ),
    (
        b";# stack 2300H, 23FFH\n;# byte X, 2300H\n",
        2,
        UnitKind::Clash,
    ),
    (
        b";# stack 2300H, 23FFH\n;# byte X, 23FFH\n",
        2,
        UnitKind::Clash,
    ),
    (
        b";# stack 2300H, 23FFH\n;# word X, 22FFH\n",
        2,
        UnitKind::Clash,
    ),
    (
        b";# stack 2300H, 23FFH\n;# bytes X, 2200H, 400H\n",
        2,
        UnitKind::Clash,
    ),
    (
        b";# bytes X, 2200H, 400H\n;# stack 2300H, 23FFH\n",
        1,
        UnitKind::Clash,
    ),
    (
        b";# stack 2300H, 23FFH\n;# byte X, 1\n;# byte X, 1\n",
        3,
        UnitKind::Clash,
    ),
    (
        b";# stack 2300H, 23FFH\n;# byte X, 1\n;# bytes X, 5, 5\n",
        3,
        UnitKind::Clash,
    ),
    (
        b";# stack 2300H, 23FFH\n;# routine R\n;# ins 256\nR: RET\n;# end\n",
        3,
        UnitKind::Clash,
    ),
    (
        b";# stack 2300H, 23FFH\n;# routine R\n;# outs -1\nR: RET\n;# end\n",
        3,
        UnitKind::Clash,
    ),
    (
        b";# stack 2300H, 23FFH\n;# routine R\n;# ins 1, 2, 256 \n;# depth 0\nR: RET\n;# end\n",
        3,
        UnitKind::Clash,
    ),
    (
        b";# stack 2300H, 23FFH\n;# byte X, 0\n;# routine R\n;# changes X\nR: RET\n;# end\n",
        4,
        UnitKind::Clash,
    ),
    (
        b";# stack 2300H, 23FFH\n;# bytes X, 1, 10\n;# routine R\n;# changes A, X\nR: RET\n;# end\nDB 5\n",
        4,
        UnitKind::Clash,
    ),
    (
        b";# stack 2300H, 23FFH\n;# bytes X, 0FFFFH, 1\n;# routine R\n;# reads X\n;# changes X\nR: RET\n;# end\nORG 0FFFFH\nDB 5\n",
        5,
        UnitKind::Clash,
    ),
    (b";# stack 10, 5\n;# stack 1, 2\n", 1, UnitKind::Clash),
    (
        b";# stack 2300H, 23FFH\n NOP\n",
        2,
        UnitKind::OutsideRoutine,
    ),
    (
        b";# stack 2300H, 23FFH\nL1: NOP\n;# routine R\nR: RET\n;# end\n",
        2,
        UnitKind::OutsideRoutine,
    ),
    (
        b";# stack 2300H, 23FFH\n;# routine R\nR: RET\n;# end\n NOP\n",
        5,
        UnitKind::OutsideRoutine,
    ),
    (
        b";# stack 2300H, 23FFH\n;# routine R\nR: RET\n;# end\n RET\n;# routine S1\nS1: RET\n;# end\n",
        5,
        UnitKind::OutsideRoutine,
    ),
    (
        b" HLT\n;# stack 2300H, 23FFH\n",
        1,
        UnitKind::OutsideRoutine,
    ),
    (
        b";# stack 2300H, 23FFH\nDB 1\nDS 5\nL1:\n JMP L1\n",
        5,
        UnitKind::OutsideRoutine,
    ),
    (
        b";# stack 2300H, 23FFH\n;# routine R\nR: NOP\n      DB 1\n      RET\n;# end\n",
        4,
        UnitKind::NotHere,
    ),
    (
        b";# stack 2300H, 23FFH\n;# routine R\nR: NOP\n      DW 1\n      RET\n;# end\n",
        4,
        UnitKind::NotHere,
    ),
    (
        b";# stack 2300H, 23FFH\n;# routine R\nR: NOP\n      DS 1\n      RET\n;# end\n",
        4,
        UnitKind::NotHere,
    ),
    (
        b";# stack 2300H, 23FFH\n;# routine R\nR: NOP\n      DS 0\n      RET\n;# end\n",
        4,
        UnitKind::NotHere,
    ),
    (
        b";# stack 2300H, 23FFH\n;# routine R\nR: NOP\n      RET\n      ORG 100H\n;# end\n",
        5,
        UnitKind::NotHere,
    ),
    (
        b";# stack 2300H, 23FFH\n;# routine R\n;# pre STK1 = 0\nR: RET\n;# end\n",
        3,
        UnitKind::NotHere,
    ),
    (
        b";# stack 2300H, 23FFH\n;# routine R\n;# post STK1 = 0\nR: RET\n;# end\n",
        3,
        UnitKind::NotHere,
    ),
    (
        b";# stack 2300H, 23FFH\n;# routine R\n;# pre for all I in 0..STK2: true\nR: RET\n;# end\n",
        3,
        UnitKind::NotHere,
    ),
    (
        b";# stack 2300H, 23FFH\n;# routine R\n;# post mem[STK1] = 0\nR: RET\n;# end\n",
        3,
        UnitKind::NotHere,
    ),
    (
        b";# stack 2300H, 23FFH\n;# routine R\n;# start\n;# post true\nR: LXI SP,2400H\nH1: JMP H1\n;# end\n",
        4,
        UnitKind::NotHere,
    ),
    (
        b";# stack 2300H, 23FFH\n;# routine R\n;# post true\n;# start\nR: LXI SP,2400H\nH1: JMP H1\n;# end\n",
        3,
        UnitKind::NotHere,
    ),
    (
        b";# stack 2300H, 23FFH\n;# routine R\n;# start\n;# assert true\nR: LXI SP,2400H\nH1: JMP H1\n;# end\n",
        4,
        UnitKind::NotHere,
    ),
    (
        b";# stack 2300H, 23FFH\n;# routine R\n;# start\nX EQU 1\n;# assert true\n;# assert true\nR: LXI SP,2400H\nH1: JMP H1\n;# end\n",
        5,
        UnitKind::NotHere,
    ),
    (
        b";# stack 2300H, 23FFH\n;# routine L1\nL1: DB 5\n      RET\n;# end\n",
        2,
        UnitKind::Unknown,
    ),
    (
        b";# stack 2300H, 23FFH\n;# routine R\nR: RET\nL1: DB 5\n;# end\n",
        4,
        UnitKind::NotHere,
    ),
    (
        b";# stack 2300H, 23FFH\n;# routine R\nR: RET\n      DB 'A'\n;# end\n",
        4,
        UnitKind::NotHere,
    ),
    (
        b";# stack 2300H, 23FFH\n;# routine R\n;# pre STK1 = Q\nR: RET\n;# end\n",
        3,
        UnitKind::Unknown,
    ),
    (
        b";# stack 2300H, 23FFH\n;# routine R\n;# ins 256, Q\nR: RET\n;# end\n",
        3,
        UnitKind::Unknown,
    ),
    (
        b";# stack 2300H, 23FFH\n;# routine R\nR: RET\n;# end\n;# post STK1 = Q\n",
        5,
        UnitKind::Stray,
    ),
    (
        b";# stack 2300H, 23FFH\n;# routine R\n;# start\n;# post Q = 1\nR: LXI SP,2400H\nH1: JMP H1\n;# end\n",
        4,
        UnitKind::Unknown,
    ),
    (
        b";# stack 2300H, 23FFH\n;# byte X, 0\n;# routine R\n;# changes X, Q\nR: RET\n;# end\n",
        4,
        UnitKind::Unknown,
    ),
    (
        b";# stack 2300H, 23FFH\n;# byte X, 2300H\n NOP\n;# end\n",
        2,
        UnitKind::Clash,
    ),
    (
        b";# stack 2300H, 23FFH\n NOP\n;# byte X, 2300H\n;# end\n",
        2,
        UnitKind::OutsideRoutine,
    ),
    (
        b";# stack 2300H, 23FFH\n;# end\n NOP\n;# byte X, 2300H\n",
        2,
        UnitKind::Stray,
    ),
    (b";# stack Q, 1\n;# stack Q, 1\n", 1, UnitKind::Unknown),
    (b";# stack 1, 2\n;# stack Q, 1\n", 2, UnitKind::Stray),
    (
        b";# stack 2300H, 23FFH\n;# routine R\n;# routine Q\n;# start\nR: RET\n;# end\n",
        3,
        UnitKind::Stray,
    ),
    (b";# routine R\nR: PCHL\n", 0, UnitKind::NoStack),
    (
        b";# stack 2300H, 23FFH\n;# routine R\nR: JMP 5\n;# end\n;# end\n",
        5,
        UnitKind::Stray,
    ),
    (
        b";# stack 2300H, 23FFH\n;# routine R\n;# pre Q = 1\nR: NOP\n;# end\n",
        3,
        UnitKind::Unknown,
    ),
];

static RIGHT: [&[u8]; 24] = [
    b";# stack 2300H, 23FFH\n;# bytes P1, 2000H, 4\n;# bytes P2, 2004H, 4\n;# byte B1, 2010H\n;# word W1, 2012H\n;# routine R\n;# pre ((((((((((((((((((((((((((((((((((((((((((((((((((((((((((((((((A = A))))))))))))))))))))))))))))))))))))))))))))))))))))))))))))))))\nR: RET\n;# end\n",
    b";# stack 2300H, 23FFH\n;# bytes P1, 2000H, 4\n;# bytes P2, 2004H, 4\n;# byte B1, 2010H\n;# word W1, 2012H\n;# routine R\n;# pre not not not not not not not not not not not not not not not not not not not not not not not not not not not not not not not not not not not not not not not not not not not not not not not not not not not not not not not not not not not not not not not not true\nR: RET\n;# end\n",
    b";# stack 2300H, 23FFH\n;# bytes P1, 2000H, 4\n;# bytes P2, 2004H, 4\n;# byte B1, 2010H\n;# word W1, 2012H\n;# routine R\n;# pre ----------------------------------------------------------------1 = 1\nR: RET\n;# end\n",
    b";# stack 2300H, 23FFH\n;# bytes P1, 2000H, 4\n;# bytes P2, 2004H, 4\n;# byte B1, 2010H\n;# word W1, 2012H\n;# routine R\n;# pre (((((((((((((((((((((((((((((((((((((((((((((((((((((((((((((((addr(P1) = 1)))))))))))))))))))))))))))))))))))))))))))))))))))))))))))))))\nR: RET\n;# end\n",
    b";# stack 2300H, 23FFH\n;# bytes P1, 2000H, 4\n;# bytes P2, 2004H, 4\n;# byte B1, 2010H\n;# word W1, 2012H\n;# routine R\n;# pre ((((((((((((((((((((((((((((((((not not not not not not not not not not not not not not not not not not not not not not not not not not not not not not not not true))))))))))))))))))))))))))))))))\nR: RET\n;# end\n",
    b";# stack 2300H, 23FFH\n;# bytes P1, 2000H, 4\n;# bytes P2, 2004H, 4\n;# byte B1, 2010H\n;# word W1, 2012H\n;# routine R\n;# pre 1125899906842624 * 1125899906842623 <> 0\nR: RET\n;# end\n",
    b";# stack 2300H, 23FFH\n;# bytes P1, 2000H, 4\n;# bytes P2, 2004H, 4\n;# byte B1, 2010H\n;# word W1, 2012H\n;# routine R\n;# pre 1125899906842624 * 1125899906842623 + 1125899906842623 <> 0\nR: RET\n;# end\n",
    b";# stack 2300H, 23FFH\n;# bytes P1, 2000H, 4\n;# bytes P2, 2004H, 4\n;# byte B1, 2010H\n;# word W1, 2012H\n;# routine R\n;# pre A * A * A * A * A * A * A * A * A * A * A * A >= 0\nR: RET\n;# end\n",
    b";# stack 2300H, 23FFH\n;# bytes P1, 2000H, 4\n;# bytes P2, 2004H, 4\n;# byte B1, 2010H\n;# word W1, 2012H\n;# routine R\n;# pre HL * HL * HL * HL * HL * HL >= 0\nR: RET\n;# end\n",
    b";# stack 2300H, 23FFH\n;# bytes P1, 2000H, 4\n;# bytes P2, 2004H, 4\n;# byte B1, 2010H\n;# word W1, 2012H\n;# routine R\n;# pre B1 * B1 * B1 * B1 * B1 * B1 >= 0\nR: RET\n;# end\n",
    b";# stack 2300H, 23FFH\n;# bytes P1, 2000H, 4\n;# bytes P2, 2004H, 4\n;# byte B1, 2010H\n;# word W1, 2012H\n;# routine R\n;# pre total(0, 1) * total(0, 1) * total(0, 1) * total(0, 1) >= 0\nR: RET\n;# end\n",
    b";# stack 2300H, 23FFH\n;# bytes P1, 2000H, 4\n;# bytes P2, 2004H, 4\n;# byte B1, 2010H\n;# word W1, 2012H\n;# routine R\n;# pre (1125899906842624 * 1125899906842623) mod 1125899906842624 = 0 or true\nR: RET\n;# end\n",
    b";# stack 2300H, 23FFH\n;# bytes P1, 2000H, 4\n;# bytes P2, 2004H, 4\n;# byte B1, 2010H\n;# word W1, 2012H\n;# routine R\n;# pre 9223372036854775807 * S * Z * AC * P * CY >= 0\nR: RET\n;# end\n",
    b";# stack 2300H, 23FFH\n;# routine R\n;# byte X, 1000H\n;# reads X\n;# word Y, 1001H\n;# changes Y\nR: RET\n;# end\n",
    b";# stack 2300H, 23FFH\n;# bytes X, 1, 10\n;# routine R\n;# changes X\nR: RET\n;# end\n",
    b";# stack 2300H, 23FFH\n;# bytes X, 1, 10\n;# routine R\n;# changes X\nR: RET\n;# end\nDS 5\n",
    b";# stack 2300H, 23FFH\n;# routine R\n;# start\n;# pre true\nR: LXI SP,2400H\n;# assert true\nH1: JMP H1\n;# end\n",
    b";# stack 2300H, 23FFH\n;# routine R\n;# start\nR: LXI SP,2400H\n;# assert true\n      NOP\n      HLT\n;# end\n",
    b";# stack 2300H, 23FFH\n;# routine R\n;# assert true\nR: JMP $\n;# end\n",
    b";# stack 2300H, 23FFH\n;# routine R\n;# assert true\nR: JMP R\n;# end\n",
    b";# stack 2300H, 23FFH\n;# routine R\n;# depth 2\nR: PUSH B\n;# assert STK1 = 0\n      NOP\n      POP B\n      RET\n;# end\n",
    b";# stack 2300H, 23FFH\n;# routine R\n;# depth 4\nR: PUSH B\n      PUSH D\n;# assert STK1 = STK2\n      POP D\n      POP B\n      RET\n;# end\n",
    b";# stack 2300H, 23FFH\n;# routine L1\n;# reads Z, CY\n;# assert true\nL1: JZ L2\n      JMP L1\n;# assert true\nL2: JC L2\n      RET\n;# end\n",
    b";# stack 2300H, 23FFH\n;# routine R\n;# reads Z, CY\nR: NOP\n;# assert true\nL1: NOP\nL2: JZ L1\n      RET\n;# end\n",
];

#[test]
fn lines_without_place_or_meaning(rt: HostRuntime) -> Result<(), Fail> {
    expect_refused(&rt, rt.alloc(), &FIRST)
}

#[test]
fn lines_that_clash(rt: HostRuntime) -> Result<(), Fail> {
    expect_refused(&rt, rt.alloc(), &SECOND)
}

#[test]
fn lines_that_keep_the_rules(rt: HostRuntime) -> Result<(), Fail> {
    expect_right(&rt, rt.alloc(), &RIGHT)
}

static EDGES: [&[u8]; 12] = [
    b";# stack 0, 0FFFEH\n",
    b";# stack 2300H, 2300H\n",
    b";# stack 1, 2\nDB 1\nORG 3\nDB 1\n",
    b";# stack 2300H, 23FFH\n;# byte X, 0FFFFH\n",
    b";# stack 2300H, 23FFH\n;# word X, 0FFFEH\n",
    b";# stack 2300H, 23FFH\n;# bytes X, 0FFFFH, 1\n;# bytes Y, 1, 22FFH\n;# byte Z1, 2400H\n",
    b";# stack 2300H, 23FFH\n;# byte X, 0\n;# routine R\n;# reads X\nR: RET\n;# end\n",
    b";# stack 2300H, 23FFH\n;# byte X, 1\n;# routine R\n;# changes X\nR: RET\n;# end\n",
    b";# stack 2300H, 23FFH\n;# routine R\n;# ins 255, 0\n;# outs 255\nR: RET\n;# end\n",
    b";# stack 2300H, 23FFH\nR EQU 5\n;# routine L1\nX EQU R\nL1:\n\nL2: RET\n;# end\n",
    b";# byte X, 1\n;# routine R\n;# start\n;# pre X = 1\nR: HLT\n;# end\n;# stack 2300H, 23FFH\n",
    b";# stack 2300H, 23FFH\n;# byte R, 100H\n;# routine R\n;# pre R = 1 and for all R in 0..R: R < 5\nR: RET\n;# end\n",
];

#[test]
fn lines_at_the_edges(rt: HostRuntime) -> Result<(), Fail> {
    expect_right(&rt, rt.alloc(), &EDGES)
}

/// A text, a line so many times, and another text.
fn repeated(
    alloc: Global,
    first: &[u8],
    line: &[u8],
    count: usize,
    last: &[u8],
) -> Result<Vec<u8>, Fail> {
    let mut source = Vec::new(alloc);
    source.extend_from_slice(first)?;
    for _ in 0..count {
        source.extend_from_slice(line)?;
    }
    source.extend_from_slice(last)?;
    Ok(source)
}

/// Each line may stand 64 times in its place, and the 65th is one too many.
static REPEATED: [(&[u8], &[u8], &[u8], u32); 5] = [
    (
        b";# stack 9, 10\n;# routine R\n",
        b";# pre true\n",
        b"R: RET\n;# end\n",
        67,
    ),
    (
        b";# stack 9, 10\n;# routine R\n;# pre false\n",
        b";# post true\n",
        b"R: RET\n;# end\n",
        68,
    ),
    (
        b";# stack 9, 10\n;# routine R\n",
        b";# assert true\n",
        b"R: RET\n;# end\n",
        67,
    ),
    (
        b";# stack 9, 10\n;# routine R\nR: NOP\n;# assert true\n NOP\n",
        b";# assert true\n",
        b" RET\n;# end\n",
        70,
    ),
    (
        b";# stack 9, 10\n;# routine R\n",
        b";# assert true\nX SET 1\n",
        b"R: RET\n;# end\n",
        131,
    ),
];

#[test]
fn sixty_four_lines_of_a_kind(rt: HostRuntime) -> Result<(), Fail> {
    let alloc = rt.alloc();
    for (first, line, last, at) in &REPEATED {
        let most = checked(&rt, alloc, &repeated(alloc, first, line, 64, last)?)?;
        let more = checked(&rt, alloc, &repeated(alloc, first, line, 65, last)?)?;
        let found = (most, more);
        let wanted = (Ok(()), Err(Refused::At(Line(*at), UnitKind::TooMany)));
        assert_eq!(rt; found, wanted, "at {line:?}");
    }
    Ok(())
}

/// Appends a number below 10,000 in four digits.
fn add_number(source: &mut Vec<u8>, n: usize) -> Result<(), Fail> {
    for place in [1000, 100, 10, 1] {
        source.push(b'0' + (n / place % 10) as u8)?;
    }
    Ok(())
}

/// A stack region, and lines so many times; the number of the turn stands twice in them.
fn numbered(
    alloc: Global,
    first: &[u8],
    middle: &[u8],
    last: &[u8],
    count: usize,
) -> Result<Vec<u8>, Fail> {
    let mut source = Vec::new(alloc);
    source.extend_from_slice(b";# stack 9000H, 9001H\n")?;
    for n in 0..count {
        source.extend_from_slice(first)?;
        add_number(&mut source, n)?;
        source.extend_from_slice(middle)?;
        add_number(&mut source, n)?;
        source.extend_from_slice(last)?;
    }
    Ok(source)
}

/// There may be 1,024 areas and 1,024 routines, and one more is one too many.
static NUMBERED: [(&[u8], &[u8], &[u8], u32); 2] = [
    (b";# byte A", b", ", b"\n", 1026),
    (b";# routine R", b"\nR", b": RET\n;# end\n", 3074),
];

#[test]
fn areas_and_routines(rt: HostRuntime) -> Result<(), Fail> {
    let alloc = rt.alloc();
    for (first, middle, last, at) in &NUMBERED {
        let most = numbered(alloc, first, middle, last, 1024)?;
        let more = numbered(alloc, first, middle, last, 1025)?;
        let found = (checked(&rt, alloc, &most)?, checked(&rt, alloc, &more)?);
        let wanted = (Ok(()), Err(Refused::At(Line(*at), UnitKind::TooMany)));
        assert_eq!(rt; found, wanted, "at {first:?}");
    }
    Ok(())
}
