use crate::expected::expect_refused;
use sp_struct::StructKind;
use std::test::Fail;

static LOOPS: [(&[u8], u32, StructKind); 41] = [
    (
        b";# stack 2300H, 23FFH\n;# routine R\nR: NOP\n;# assert STK1 = 0\n      RET\n;# end\n",
        4,
        StructKind::NoSlot,
    ),
    (
        b";# stack 2300H, 23FFH\n;# routine R\n;# depth 2\nR: PUSH B\n;# assert STK2 = 0\n      NOP\n      POP B\n      RET\n;# end\n",
        5,
        StructKind::NoSlot,
    ),
    (
        b";# stack 2300H, 23FFH\n;# routine R\n;# depth 4\nR: PUSH B\n      PUSH D\n;# assert STK1 = STK3\n      POP D\n      POP B\n      RET\n;# end\n",
        6,
        StructKind::NoSlot,
    ),
    (
        b";# stack 2300H, 23FFH\n;# routine R\n;# depth 2\nR: PUSH B\n      POP B\n;# assert mem[STK1] = 0\n      RET\n;# end\n",
        6,
        StructKind::NoSlot,
    ),
    (
        b";# stack 2300H, 23FFH\n;# routine R\n;# depth 2\nR: PUSH B\n;# assert true\n;# assert for all I in 0..STK2: true\n      POP B\n      RET\n;# end\n",
        6,
        StructKind::NoSlot,
    ),
    (
        b";# stack 2300H, 23FFH\n;# routine R\nR: NOP\n;# assert STK32767 = 0\n      RET\n;# end\n",
        4,
        StructKind::NoSlot,
    ),
    (
        b";# stack 2300H, 23FFH\n;# routine R\n;# assert STK1 = 0\nR: NOP\n      RET\n;# end\n",
        3,
        StructKind::NoSlot,
    ),
    (
        b";# stack 2300H, 23FFH\n;# routine R\nR: NOP\n;# assert total(STK1, 5) = 0\n      RET\n;# end\n",
        4,
        StructKind::NoSlot,
    ),
    (
        b";# stack 2300H, 23FFH\n;# routine R\n;# reads B\n;# changes B, FLAGS\nR: DCR B\n      JNZ R\n      RET\n;# end\n",
        6,
        StructKind::UncutLoop,
    ),
    (
        b";# stack 2300H, 23FFH\n;# routine R\nR: JMP R\n;# end\n",
        3,
        StructKind::UncutLoop,
    ),
    (
        b";# stack 2300H, 23FFH\n;# routine R\nR: NOP\nL1: JMP L1\n;# end\n",
        4,
        StructKind::UncutLoop,
    ),
    (
        b";# stack 2300H, 23FFH\n;# routine L1\n;# reads Z\nL1: NOP\n      JZ L1\n;# assert true\nL2: JZ L2\n      RET\n;# end\n",
        5,
        StructKind::UncutLoop,
    ),
    (
        b";# stack 2300H, 23FFH\n;# routine L1\n;# reads Z, CY\nL1: NOP\nL2: JZ L1\n      JC L2\n      RET\n;# end\n",
        5,
        StructKind::UncutLoop,
    ),
    (
        b";# stack 2300H, 23FFH\n;# routine R\n;# reads Z\nR: JMP L2\nL1: RET\nL2: JZ L1\n      JMP L2\n;# end\n",
        7,
        StructKind::UncutLoop,
    ),
    (
        b";# stack 2300H, 23FFH\n;# routine R\n;# reads Z\nR: JMP L2\nL1: NOP\n      NOP\n      RET\nL2: JZ L1\n      JMP L3\nL3: JMP L2\n;# end\n",
        10,
        StructKind::UncutLoop,
    ),
    (
        b";# stack 2300H, 23FFH\n;# routine L1\n;# reads Z, CY\n;# assert true\nL1: JZ L2\n      JMP L1\nL2: JC L2\n      RET\n;# end\n",
        7,
        StructKind::UncutLoop,
    ),
    (
        b";# stack 2300H, 23FFH\n;# routine R\n;# reads Z, CY\nR: NOP\n;# assert true\nL1: NOP\nL2: NOP\n      JZ L2\n      RET\n;# end\n",
        8,
        StructKind::UncutLoop,
    ),
    (
        b";# stack 2300H, 23FFH\n;# routine R\n;# reads Z, CY\nR: JZ L3\nL1: NOP\n      JC L1\n      RET\nL3: NOP\n      JMP L3\n;# end\n",
        6,
        StructKind::UncutLoop,
    ),
    (
        b";# stack 2300H, 23FFH\n;# routine R\n;# reads Z, CY\nR: JZ L3\n;# assert true\nL1: NOP\n      JC L1\n      RET\nL3: NOP\n      JMP L3\n;# end\n",
        10,
        StructKind::UncutLoop,
    ),
    (
        b";# stack 2300H, 23FFH\n;# routine L1\n;# depth 2\n;# reads Z\nL1: CALL Q\n      JZ L1\n      RET\n;# end\n;# routine Q\nQ: RET\n;# end\n",
        6,
        StructKind::UncutLoop,
    ),
    (
        b";# stack 2300H, 23FFH\n;# routine R\n;# start\nR: LXI SP,2400H\nL1: JMP L1\n;# end\n",
        5,
        StructKind::UncutLoop,
    ),
    (
        b";# stack 2300H, 23FFH\n;# routine R\n;# reads Z, CY, P\nR: JMP L4\nL1: JZ L2\n      RET\nL2: JC L1\n      RET\nL4: JPE L1\n      JMP L2\n;# end\n",
        7,
        StructKind::UncutLoop,
    ),
    (
        b";# stack 2300H, 23FFH\n;# routine R\n;# start\nR: LXI SP,2400H\n      RET\n;# end\n",
        5,
        StructKind::ReturnInStart,
    ),
    (
        b";# stack 2300H, 23FFH\n;# routine R\n;# start\n;# reads Z\nR: LXI SP,2400H\n      RZ\n      HLT\n;# end\n",
        6,
        StructKind::ReturnInStart,
    ),
    (
        b";# stack 2300H, 23FFH\n;# routine R\n;# start\n;# reads CY\nR: LXI SP,2400H\n;# assert true\nL1: JC L1\n      RNC\n      RET\n;# end\n",
        8,
        StructKind::ReturnInStart,
    ),
    (
        b";# stack 2300H, 23FFH\n;# routine R\n;# start\nR: LXI SP,2400H\n      RET\n;# end\n;# routine S1\n;# start\nS1: LXI SP,2400H\n      RET\n;# end\n",
        5,
        StructKind::ReturnInStart,
    ),
    (
        b";# stack 2300H, 23FFH\n;# routine R\nR: RET\n;# end\n;# routine S1\n;# start\n;# depth 2\nS1: LXI SP,2400H\n      CALL R\n      RET\n;# end\n",
        10,
        StructKind::ReturnInStart,
    ),
    (
        b";# stack 2300H, 23FFH\n;# routine R\n;# start\n;# reads S\nR: LXI SP,2400H\n      RM\n      RP\n      HLT\n;# end\n",
        6,
        StructKind::ReturnInStart,
    ),
    (
        b";# stack 2300H, 23FFH\n;# routine R\n;# reads A\nR: STA 0\n      RET\n;# end\n",
        4,
        StructKind::CodeWritten,
    ),
    (
        b";# stack 2300H, 23FFH\n;# routine R\n;# reads A\nR: STA R+2\n      RET\n;# end\n",
        4,
        StructKind::CodeWritten,
    ),
    (
        b";# stack 2300H, 23FFH\n;# routine R\n;# reads HL\nR: SHLD 3\n      RET\n;# end\n",
        4,
        StructKind::CodeWritten,
    ),
    (
        b";# stack 2300H, 23FFH\n;# routine R\n;# reads HL\nR: SHLD 0FFFFH\n      RET\n;# end\n",
        4,
        StructKind::CodeWritten,
    ),
    (
        b";# stack 2300H, 23FFH\n;# routine R\n;# reads HL\nR: SHLD D1-1\n      RET\n;# end\nORG 1000H\nD1: DB 5\n",
        4,
        StructKind::CodeWritten,
    ),
    (
        b";# stack 2300H, 23FFH\n;# routine R\n;# reads A\nR: STA D1\n      RET\n;# end\nD1: DB 5\n",
        4,
        StructKind::CodeWritten,
    ),
    (
        b";# stack 2300H, 23FFH\n;# routine R\n;# reads A\nR: STA 2000H\n      STA 1\n      RET\n;# end\n",
        5,
        StructKind::CodeWritten,
    ),
    (
        b";# stack 2300H, 23FFH\n;# routine R\n;# reads A\nR: NOP\n      RET\n;# end\n;# routine S1\n;# reads A\nS1: STA R\n      RET\n;# end\n",
        9,
        StructKind::CodeWritten,
    ),
    (
        b";# stack 2300H, 23FFH\n;# routine L0\n;# reads Z\nL0: JZ L0\n;# assert STK1 = 0\n      RET\n;# end\n",
        5,
        StructKind::NoSlot,
    ),
    (
        b";# stack 2300H, 23FFH\n;# routine R\n;# start\n;# reads Z\nR: LXI SP,2400H\n      RZ\nL1: JMP L1\n;# end\n",
        7,
        StructKind::UncutLoop,
    ),
    (
        b";# stack 2300H, 23FFH\n;# routine R\n;# start\n;# reads A\nR: LXI SP,2400H\n      STA 0\n      RET\n;# end\n",
        7,
        StructKind::ReturnInStart,
    ),
    (
        b";# stack 2300H, 23FFH\n;# routine R\nR: STA 0\n      RET\n;# end\n",
        3,
        StructKind::CodeWritten,
    ),
    (
        b";# stack 2300H, 23FFH\n;# routine R\nR: MOV A,B\n      STA 0\n      RET\n;# end\n",
        4,
        StructKind::CodeWritten,
    ),
];

/// Words below the stack, loops without assertions, returns in start routines and stores to code.
#[test]
fn loops_and_stores_go_wrong(rt: HostRuntime) -> Result<(), Fail> {
    expect_refused(&rt, rt.alloc(), &LOOPS)
}
