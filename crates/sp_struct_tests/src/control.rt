use crate::expected::expect_refused;
use sp_struct::StructKind;
use std::test::Fail;

static CONTROL: [(&[u8], u32, StructKind); 58] = [
    (
        b";# stack 2300H, 23FFH\n;# routine R\nR: JMP 5\n;# end\n",
        3,
        StructKind::JumpOut,
    ),
    (
        b";# stack 2300H, 23FFH\n;# routine R\n;# reads Z\nR: JZ 1234H\n      RET\n;# end\n",
        4,
        StructKind::JumpOut,
    ),
    (
        b";# stack 2300H, 23FFH\n;# routine R\nR: NOP\n      JMP R+2\n;# end\n",
        4,
        StructKind::JumpOut,
    ),
    (
        b";# stack 2300H, 23FFH\n;# routine R\nR: JMP Q\n;# end\n;# routine Q\nQ: RET\n;# end\n",
        3,
        StructKind::JumpOut,
    ),
    (
        b";# stack 2300H, 23FFH\n;# routine R\n;# reads CY\nR: JC L1\n      RET\n;# end\nL1: DB 0\n",
        4,
        StructKind::JumpOut,
    ),
    (
        b";# stack 2300H, 23FFH\n;# routine L1\nL1: NOP\n      JMP L1+4\n;# end\n",
        4,
        StructKind::JumpOut,
    ),
    (
        b";# stack 2300H, 23FFH\n;# routine R\nR: JMP $+1\n;# end\n",
        3,
        StructKind::JumpOut,
    ),
    (
        b";# stack 2300H, 23FFH\n;# routine R\n;# reads Z\nR: JZ L9\n      JZ R+1\n      RET\n      L9 EQU 9\n;# end\n",
        4,
        StructKind::JumpOut,
    ),
    (
        b";# stack 2300H, 23FFH\n;# routine R\nR: NOP\n;# end\n",
        3,
        StructKind::FallsOff,
    ),
    (
        b";# stack 2300H, 23FFH\n;# routine R\n;# reads Z\nR: RZ\n;# end\n",
        4,
        StructKind::FallsOff,
    ),
    (
        b";# stack 2300H, 23FFH\n;# routine L1\n;# reads Z\nL1: JZ L1\n;# end\n",
        4,
        StructKind::FallsOff,
    ),
    (
        b";# stack 2300H, 23FFH\n;# routine R\n;# depth 2\nR: CALL Q\n;# end\n;# routine Q\nQ: RET\n;# end\n",
        4,
        StructKind::FallsOff,
    ),
    (
        b";# stack 2300H, 23FFH\n;# routine R\nR: RET\n;# end\n;# routine S1\n;# changes A\nS1: MVI A,1\n;# end\n",
        7,
        StructKind::FallsOff,
    ),
    (
        b";# stack 2300H, 23FFH\n;# routine R\nR: NOP\n;# end\n;# routine S1\nS1: NOP\n;# end\n",
        3,
        StructKind::FallsOff,
    ),
    (
        b";# stack 2300H, 23FFH\n;# routine R\nR: NOP\n      RET\n      OUT 1\n;# end\n",
        5,
        StructKind::FallsOff,
    ),
    (
        b";# stack 2300H, 23FFH\n;# routine R\n;# depth 2\nR: CALL 5\n      RET\n;# end\n",
        4,
        StructKind::CallOut,
    ),
    (
        b";# stack 2300H, 23FFH\n;# routine R\n;# depth 2\nR: CALL R+1\n      RET\n;# end\n",
        4,
        StructKind::CallOut,
    ),
    (
        b";# stack 2300H, 23FFH\n;# routine R\n;# depth 2\n;# reads Z\nR: CZ M1\n      RET\n;# end\n;# routine M0\nM0: NOP\nM1: RET\n;# end\n",
        5,
        StructKind::CallOut,
    ),
    (
        b";# stack 2300H, 23FFH\n;# routine R\n;# depth 2\nR: CALL S1\n      RET\n;# end\n;# routine S1\n;# start\nS1: LXI SP,2400H\n      HLT\n;# end\n",
        4,
        StructKind::CallOut,
    ),
    (
        b";# stack 2300H, 23FFH\n;# routine R\n;# depth 2\nR: RST 1\n      RET\n;# end\n",
        4,
        StructKind::CallOut,
    ),
    (
        b";# stack 2300H, 23FFH\n;# routine R\n;# depth 2\nR: RST 7\n      CALL 5\n      RET\n;# end\n",
        4,
        StructKind::CallOut,
    ),
    (
        b";# stack 2300H, 23FFH\n;# routine R\n;# depth 2\nR: CALL D1\n      RET\n;# end\nD1: DB 0C9H\n",
        4,
        StructKind::CallOut,
    ),
    (
        b";# stack 2300H, 23FFH\n;# routine R\n;# depth 2\nR: RST 2\n      RET\n;# end\nORG 16\n;# routine S1\n;# start\nS1: LXI SP,2400H\n      HLT\n;# end\n",
        4,
        StructKind::CallOut,
    ),
    (
        b";# stack 2300H, 23FFH\n;# routine R\n;# depth 2\nR: CALL R\n      RET\n;# end\n",
        4,
        StructKind::Recursion,
    ),
    (
        b";# stack 2300H, 23FFH\n;# routine R\n;# depth 2\nR: CALL Q\n      RET\n;# end\n;# routine Q\n;# depth 2\nQ: CALL R\n      RET\n;# end\n",
        4,
        StructKind::Recursion,
    ),
    (
        b";# stack 2300H, 23FFH\n;# routine R\n;# depth 2\n;# reads Z\nR: NOP\n      CZ R\n      RET\n;# end\n",
        6,
        StructKind::Recursion,
    ),
    (
        b";# stack 2300H, 23FFH\n;# routine R\n;# depth 2\nR: CALL Q\n      RET\n;# end\n;# routine Q\n;# depth 2\nQ: CALL S1\n      RET\n;# end\n;# routine S1\n;# depth 2\nS1: CALL Q\n      RET\n;# end\n",
        9,
        StructKind::Recursion,
    ),
    (
        b";# stack 2300H, 23FFH\n;# routine R\n;# depth 2\nR: RST 0\n      RET\n;# end\n",
        4,
        StructKind::Recursion,
    ),
    (
        b";# stack 2300H, 23FFH\n;# routine R\n;# depth 2\nR: CALL Q\n      RET\n;# end\n;# routine Q\n;# depth 2\nQ: CALL S1\n      RET\n;# end\n;# routine S1\n;# depth 2\nS1: CALL R\n      RET\n;# end\n",
        4,
        StructKind::Recursion,
    ),
    (
        b";# stack 2300H, 23FFH\n;# routine A1\n;# depth 2\nA1: CALL C1\n      RET\n;# end\n;# routine B1\n;# depth 2\nB1: CALL B1\n      RET\n;# end\n;# routine C1\nC1: RET\n;# end\n",
        9,
        StructKind::Recursion,
    ),
    (
        b";# stack 2300H, 23FFH\n;# routine R\n;# reads HL\nR: PCHL\n      RET\n;# end\n",
        4,
        StructKind::Computed,
    ),
    (
        b";# stack 2300H, 23FFH\n;# routine R\nR: RET\n      PCHL\n      RET\n;# end\n",
        4,
        StructKind::Computed,
    ),
    (
        b";# stack 2300H, 23FFH\n;# routine R\n;# reads HL\n;# start\nR: LXI SP,2400H\n      PCHL\n      HLT\n;# end\n",
        6,
        StructKind::Computed,
    ),
    (
        b";# stack 2300H, 23FFH\n;# routine R\nR: RET\n;# end\n;# routine S1\n;# reads HL\nS1: NOP\n      PCHL\n      RET\n;# end\n",
        8,
        StructKind::Computed,
    ),
    (
        b";# stack 2300H, 23FFH\n;# routine R\nR: RET\n      PCHL\n      SPHL\n      RET\n;# end\n",
        4,
        StructKind::Computed,
    ),
    (
        b";# stack 2300H, 23FFH\n;# routine R\nR: PCHL\n      PCHL\n      RET\n;# end\n",
        3,
        StructKind::Computed,
    ),
    (
        b";# stack 2300H, 23FFH\n;# routine R\n;# reads HL\nR: SPHL\n      RET\n;# end\n",
        4,
        StructKind::StackPointer,
    ),
    (
        b";# stack 2300H, 23FFH\n;# routine R\n;# reads HL\n;# changes HL, CY\nR: DAD SP\n      RET\n;# end\n",
        5,
        StructKind::StackPointer,
    ),
    (
        b";# stack 2300H, 23FFH\n;# routine R\nR: INX SP\n      RET\n;# end\n",
        3,
        StructKind::StackPointer,
    ),
    (
        b";# stack 2300H, 23FFH\n;# routine R\nR: DCX SP\n      RET\n;# end\n",
        3,
        StructKind::StackPointer,
    ),
    (
        b";# stack 2300H, 23FFH\n;# routine R\nR: LXI SP,2400H\n      RET\n;# end\n",
        3,
        StructKind::StackPointer,
    ),
    (
        b";# stack 2300H, 23FFH\n;# routine R\n;# start\nR: LXI SP,2400H\n      LXI SP,2400H\n      HLT\n;# end\n",
        5,
        StructKind::StackPointer,
    ),
    (
        b";# stack 2300H, 23FFH\n;# routine R\n;# start\nR: NOP\n      LXI SP,2400H\n      HLT\n;# end\n",
        4,
        StructKind::StackPointer,
    ),
    (
        b";# stack 2300H, 23FFH\n;# routine R\n;# start\nR: LXI SP,23FFH\n      HLT\n;# end\n",
        4,
        StructKind::StackPointer,
    ),
    (
        b";# stack 2300H, 23FFH\n;# routine R\n;# start\nR: LXI SP,2401H\n      HLT\n;# end\n",
        4,
        StructKind::StackPointer,
    ),
    (
        b";# stack 2300H, 23FFH\n;# routine R\n;# start\nR: LXI SP,2400H\n      JMP R\n;# end\n",
        5,
        StructKind::StackPointer,
    ),
    (
        b";# stack 2300H, 23FFH\n;# routine R\n;# start\n;# reads Z\nR: LXI SP,2400H\n      JZ R\n      HLT\n;# end\n",
        6,
        StructKind::StackPointer,
    ),
    (
        b";# stack 2300H, 23FFH\n;# routine R\n;# start\nR: LXI B,2400H\n      HLT\n;# end\n",
        4,
        StructKind::StackPointer,
    ),
    (
        b";# stack 2300H, 23FFH\n;# routine R\nR: RET\n      INX SP\n      SPHL\n      RET\n;# end\n",
        4,
        StructKind::StackPointer,
    ),
    (
        b";# stack 2300H, 23FFH\n;# routine R\n;# reads A\nR: STA 0\n      JMP 5\n      NOP\n;# end\n",
        5,
        StructKind::JumpOut,
    ),
    (
        b";# stack 2300H, 23FFH\n;# routine R\nR: CALL 5\n      NOP\n;# end\n",
        4,
        StructKind::FallsOff,
    ),
    (
        b";# stack 2300H, 23FFH\n;# routine R\n;# depth 2\nR: PCHL\n      CALL 5\n      RET\n;# end\n",
        5,
        StructKind::CallOut,
    ),
    (
        b";# stack 2300H, 23FFH\n;# routine R\n;# depth 2\nR: PCHL\n      CALL R\n      RET\n;# end\n",
        5,
        StructKind::Recursion,
    ),
    (
        b";# stack 2300H, 23FFH\n;# routine R\nR: SPHL\n      PCHL\n      RET\n;# end\n",
        4,
        StructKind::Computed,
    ),
    (
        b";# stack 2300H, 23FFH\n;# routine R\nR: RET\n      NOP\n      INX SP\n      RET\n;# end\n",
        5,
        StructKind::StackPointer,
    ),
    (
        b";# stack 2300H, 23FFH\n;# routine R\n;# depth 2\nR: CALL 5\n      RET\n;# end\n;# routine S1\nS1: NOP\n;# end\n",
        8,
        StructKind::FallsOff,
    ),
    (
        b";# stack 2300H, 23FFH\n;# routine R\nR: NOP\n;# end\n;# routine S1\nS1: JMP 5\n;# end\n",
        6,
        StructKind::JumpOut,
    ),
    (
        b";# stack 2300H, 23FFH\n;# routine R\nR: MOV A,B\n      IN 5\n;# end\n",
        4,
        StructKind::FallsOff,
    ),
];

/// Jumps, ends, calls, recursion, PCHL and SP.
#[test]
fn control_goes_wrong(rt: HostRuntime) -> Result<(), Fail> {
    expect_refused(&rt, rt.alloc(), &CONTROL)
}
