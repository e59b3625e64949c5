use crate::expected::{expect_refused, expect_sound};
use sp_struct::StructKind;
use std::test::Fail;

static REFUSED: [(&[u8], u32, StructKind); 7] = [
    (
        b";# stack 2300H, 23FFH\n;# routine LOOP\n;# post B = 0\n;# reads B\n;# changes B, FLAGS\nLOOP: DCR B\n      JNZ LOOP\n      RET\n;# end\n",
        7,
        StructKind::UncutLoop,
    ),
    (
        b";# stack 2300H, 23FFH\n;# routine FIVE\n;# post A = 5\n;# changes A\nFIVE: MVI A,5\n      STA 0\n      RET\n;# end\n",
        6,
        StructKind::CodeWritten,
    ),
    (
        b";# stack 2300H, 23FFH\n;# routine FIVE\n;# post A = 5\n;# changes A\n;# depth 2\nFIVE: PUSH B\n      RET\n;# end\n",
        7,
        StructKind::Depth(2, 0),
    ),
    (
        b";# stack 2300H, 23FFH\n;# routine FIVE\n;# post A = 5\n;# changes A\nFIVE: POP B\n      PUSH B\n      RET\n;# end\n",
        5,
        StructKind::PopsReturn,
    ),
    (
        b";# stack 2300H, 23FFH\n;# routine ONE\n;# changes A\n;# depth 2\nONE: CALL TWO\n      RET\n;# end\n;# routine TWO\n;# changes A\n;# depth 2\nTWO: CALL ONE\n      RET\n;# end\n",
        5,
        StructKind::Recursion,
    ),
    (
        b";# stack 2300H, 23FFH\n;# routine START\n;# start\n;# changes A\n;# depth 2\nSTART: LXI SP,2400H\n       CALL FIVE\n;# assert A = 5\nHERE:  RET\n;# end\n;# routine FIVE\n;# post A = 5\n;# changes A\nFIVE:  MVI A,5\n       RET\n;# end\n",
        9,
        StructKind::ReturnInStart,
    ),
    (
        b";# stack 2300H, 23FFH\n;# routine MAIN\n;# start\n;# changes A\n;# depth 2\nMAIN: LXI SP,2400H\n      RST 2\n;# assert A = 5\nHERE: JMP HERE\n;# end\n      ORG 8\n;# routine FIVE\n;# post A = 5\n;# changes A\nFIVE: MVI A,5\n      RET\n;# end\n",
        7,
        StructKind::CallOut,
    ),
];

static SOUND: [(&[u8], usize, usize); 2] = [
    (
        b";# stack 2300H, 23FFH\n;# routine START\n;# start\n;# changes A\n;# depth 2\nSTART: LXI SP,2400H\n       CALL FIVE\n;# assert A = 5\nHERE:  JMP HERE\n;# end\n;# routine FIVE\n;# post A = 5\n;# changes A\nFIVE:  MVI A,5\n       RET\n;# end\n",
        2,
        5,
    ),
    (
        b";# stack 2300H, 23FFH\n;# routine MAIN\n;# start\n;# changes A\n;# depth 2\nMAIN: LXI SP,2400H\n      RST 1\n;# assert A = 5\nHERE: JMP HERE\n;# end\n      ORG 8\n;# routine FIVE\n;# post A = 5\n;# changes A\nFIVE: MVI A,5\n      RET\n;# end\n",
        2,
        5,
    ),
];

/// Small routines that go wrong in one thing.
#[test]
fn small_routines_go_wrong(rt: HostRuntime) -> Result<(), Fail> {
    expect_refused(&rt, rt.alloc(), &REFUSED)
}

/// Start routines that call and restart.
#[test]
fn start_routines_call(rt: HostRuntime) -> Result<(), Fail> {
    expect_sound(&rt, rt.alloc(), &SOUND)
}
