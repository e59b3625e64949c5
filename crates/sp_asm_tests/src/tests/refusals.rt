//! Sources with the lines that refuse them.
use super::assembled;
use sp_asm::AsmKind;
use sp_asm::AsmKind::*;
use sp_base::{Line, Refused};
use std::alloc::Global;
use std::process::Abort;
use std::test::Fail;

/// Whether each source has its refusal.
fn expect_refusals(
    rt: &impl Abort,
    alloc: Global,
    table: &[(&[u8], u32, AsmKind)],
) -> Result<(), Fail> {
    for (source, line, kind) in table {
        let found = assembled(rt, alloc, source)?.err();
        assert_eq!(rt;
            found,
            Some(Refused::At(Line(*line), *kind)),
            "at {source:?}"
        );
    }
    Ok(())
}

/// What isn't in the grammar of statements.
static STATEMENTS: [(&[u8], u32, AsmKind); 20] = [
    (b"NOP\n\nX", 3, Syntax),
    (b"A: NOP", 1, Syntax),
    (b"l: NOP", 1, Syntax),
    (b"MOV: NOP", 1, Syntax),
    (b"Org: NOP", 1, Syntax),
    (b"SP EQU 1", 1, Syntax),
    (b"PSW EQU 1", 1, Syntax),
    (b"M SET 1", 1, Syntax),
    (b"EQU EQU 1", 1, Syntax),
    (b"MOD SET 1", 1, Syntax),
    (b"NOT: NOP", 1, Syntax),
    (b"DB M", 1, Syntax),
    (b"JMP SP", 1, Syntax),
    (b"MOV M,M", 1, Syntax),
    (b"NOP\nX: ORG 5", 2, Syntax),
    (b"NOP\nX: END", 2, Syntax),
    (b"END:", 1, Syntax),
    (b"X: Y: NOP", 1, Syntax),
    (b"DB ''", 1, Syntax),
    (b"MVI A,'AB'", 1, Syntax),
];

/// What breaks the rules of addresses, and of names above.
static PLACES: [(&[u8], u32, AsmKind); 57] = [
    (b"X1:\nX1:", 2, Duplicate),
    (b"x1:\nNOP\nX1: NOP\nX1: NOP", 3, Duplicate),
    (b"X: NOP\nX EQU 1", 2, Duplicate),
    (b"X EQU 1\nX: NOP", 2, Duplicate),
    (b"X EQU 1\nX EQU 1", 2, Duplicate),
    (b"X EQU 1\nX SET 1", 2, Duplicate),
    (b"X SET 1\nX EQU 1", 2, Duplicate),
    (b"X SET 1\nX SET 2\nX: NOP", 3, Duplicate),
    (b"X: NOP\nX SET 1", 2, Duplicate),
    (b"X EQU Y\nY EQU 1", 1, Later),
    (b"X SET Y\nY: NOP", 1, Later),
    (b"ORG Y\nY EQU 1", 1, Later),
    (b"DS Y\nY SET 1", 1, Later),
    (b"DS 1+2*Y\nY SET 1", 1, Later),
    (b"X1: DS X1", 1, Later),
    (b"X EQU X", 1, Later),
    (b"X SET X+1", 1, Later),
    (b"X SET X+1\nX SET 1", 1, Later),
    (b"NOP\nX EQU Y\nY EQU Z\nZ EQU 1", 2, Later),
    (b"X EQU Y", 1, Undefined),
    (b"X SET Y", 1, Undefined),
    (b"ORG Y", 1, Undefined),
    (b"DS Y", 1, Undefined),
    (b"DS Y\nEND\nY EQU 1", 1, Undefined),
    (b"X EQU 1/0", 1, ZeroDivisor),
    (b"X SET 1 MOD 0", 1, ZeroDivisor),
    (b"X EQU 0\nORG 1/X", 2, ZeroDivisor),
    (b"DS 1/$", 1, ZeroDivisor),
    (b"ORG 0FFFFH\nMVI A,1", 2, PastEnd),
    (b"ORG 0FFFFH\nJMP 0", 2, PastEnd),
    (b"ORG 0FFFEH\nJMP 0", 2, PastEnd),
    (b"ORG 0FFFFH\nDB 1,2", 2, PastEnd),
    (b"ORG 0FFFFH\nDB 'AB'", 2, PastEnd),
    (b"ORG 0FFFFH\nDW 1", 2, PastEnd),
    (b"ORG 0FFFFH\nDS 2", 2, PastEnd),
    (b"DS 1\nDS 0FFFFH\nDS 1", 3, PastEnd),
    (b"ORG 0FFFFH\nDS 0FFFFH", 2, PastEnd),
    (b"ORG 0FFFFH\nNOP\nNOP", 3, PastEnd),
    (b"ORG 0FFFFH\nNOP\nDB 1", 3, PastEnd),
    (b"ORG 0FFFFH\nNOP\nX:", 3, PastEnd),
    (b"ORG 0FFFFH\nNOP\nX: DS 0", 3, PastEnd),
    (b"ORG 0FFFFH\nNOP\nX: NOP", 3, PastEnd),
    // Of kinds on one line the first of the order.
    (b"X EQU 1\nX: DS Y\nY:", 2, Duplicate),
    (b"X EQU 1\nX EQU Y", 2, Duplicate),
    (b"X EQU 1\nX EQU 1/0", 2, Duplicate),
    (b"X EQU 1\nORG 0FFFFH\nX: DW 1", 3, Duplicate),
    (b"DS Y+X\nX:", 1, Later),
    (b"X EQU 1/0+X", 1, Later),
    (b"ORG 0FFFFH\nNOP\nX: DS X", 3, Later),
    (b"DS 1/0+Y", 1, Undefined),
    (b"ORG 0FFFFH\nNOP\nX: DS Y", 3, Undefined),
    (b"ORG 0FFFFH\nNOP\nX: DS 1/0", 3, ZeroDivisor),
    // Of lines the lowest.
    (b"DS Y\nDS X\nX:", 1, Undefined),
    (b"DS 1/0\nX:\nX:", 1, ZeroDivisor),
    (b"X:\nX:\nDS X1\nX1:", 2, Duplicate),
    (b"ORG 0FFFFH\nDW 1\nDS Y", 2, PastEnd),
    (b"ORG 0FFFFH\nDW Y", 2, PastEnd),
];

/// What breaks the rules of operands and bytes.
static BYTES: [(&[u8], u32, AsmKind); 47] = [
    (b"DB X\nX SET 1", 1, Later),
    (b"JMP X\nX SET 1\nX SET 2", 1, Later),
    (b"DW 0,X\nX SET 1", 1, Later),
    (b"RST X\nX SET 1", 1, Later),
    (b"MVI A,Y", 1, Undefined),
    (b"JMP Y", 1, Undefined),
    (b"LXI H,Y", 1, Undefined),
    (b"RST Y", 1, Undefined),
    (b"IN Y", 1, Undefined),
    (b"DB 'A',1,Y", 1, Undefined),
    (b"DW 1,Y", 1, Undefined),
    (b"END Y", 1, Undefined),
    (b"END Y\nY EQU 1", 1, Undefined),
    (b"JMP BC", 1, Undefined),
    (b"DB 1/0", 1, ZeroDivisor),
    (b"DW 1,2,3 MOD 0", 1, ZeroDivisor),
    (b"JMP 1/X\nX EQU 0", 1, ZeroDivisor),
    (b"NOP\nEND 1/0", 2, ZeroDivisor),
    (b"ORG 0FFFFH\nNOP\nEND 1/$", 3, ZeroDivisor),
    (b"DB 256", 1, Range),
    (b"DB 0FEFFH", 1, Range),
    (b"DB -257", 1, Range),
    (b"DB 'AB',1,2,300", 1, Range),
    (b"MVI A,256", 1, Range),
    (b"X EQU 300\nADI X", 2, Range),
    (b"IN 100H", 1, Range),
    (b"OUT 0FEFFH", 1, Range),
    (b"RST 8", 1, Range),
    (b"RST 0FF00H", 1, Range),
    (b"RST -1", 1, Range),
    (b"DB 1,2\nORG 1\nDB 3", 3, Overlap),
    (b"ORG 1\nDB 3\nORG 0\nDW 0", 4, Overlap),
    (b"NOP\nORG 0\nNOP", 3, Overlap),
    (b"ORG 5\nJMP 0\nORG 3\nJMP 0\nORG 5\nNOP", 4, Overlap),
    (b"ORG 0FFFFH\nNOP\nORG 0FFFFH\nNOP", 4, Overlap),
    // Of kinds on one line the first of the order.
    (b"DB Y,X\nX SET 1", 1, Later),
    (b"DB 1/0,X\nX SET 1", 1, Later),
    (b"DB 256,X\nX SET 1", 1, Later),
    (b"DW 1/0,Y", 1, Undefined),
    (b"DB 256,Y", 1, Undefined),
    (b"DB 256,1/0", 1, ZeroDivisor),
    (b"NOP\nORG 0\nDB 256", 3, Range),
    // Of lines the lowest.
    (b"DB 256\nDB Y", 1, Range),
    (b"DB Y\nDB 256", 1, Undefined),
    (b"NOP\nORG 0\nNOP\nDB X\nX SET 1", 3, Overlap),
    (b"DB 1/0\nNOP\nORG 1\nNOP", 1, ZeroDivisor),
    (b"DB X\nX SET 1\nDB 256", 1, Later),
];

/// Lines that different rounds refuse: the first of the rounds counts.
static ROUNDS: [(&[u8], u32, AsmKind); 9] = [
    (b"X: DB 256\nX:\n\n\n\n\n\n\nX", 9, Syntax),
    (b"X: DB 256\nX:\n", 2, Duplicate),
    (b"DB 256\nORG 0FFFFH\nDW 1", 3, PastEnd),
    (b"JMP Y\nX EQU Z1\nZ1:", 2, Later),
    (b"DB 1/0\nDS Y", 2, Undefined),
    (b"NOP\nORG 0\nNOP\nDS 1/0", 4, ZeroDivisor),
    (b"DS Y\nNOP NOP", 2, Syntax),
    (
        b"X:\nX:\nDB (((((((((((((((((((((((((((((((((((((((((((((((((((((((((((((((((1)))))))))))))))))))))))))))))))))))))))))))))))))))))))))))))))))",
        3,
        TooDeep,
    ),
    (
        b"DB ((((((((((((((((((((((((((((((((((((((((((((((((((((((((((((((((256))))))))))))))))))))))))))))))))))))))))))))))))))))))))))))))))",
        1,
        Range,
    ),
];

#[test]
fn sources_have_their_refusals(rt: HostRuntime) -> Result<(), Fail> {
    expect_refusals(&rt, rt.alloc(), &STATEMENTS)?;
    expect_refusals(&rt, rt.alloc(), &PLACES)?;
    expect_refusals(&rt, rt.alloc(), &BYTES)?;
    expect_refusals(&rt, rt.alloc(), &ROUNDS)
}
