use crate::expected::expect_refused;
use sp_struct::StructKind;
use std::test::Fail;

static STACK: [(&[u8], u32, StructKind); 56] = [
    (
        b";# stack 2300H, 23FFH\n;# routine R\nR: RET\n      NOP\n      RET\n;# end\n",
        4,
        StructKind::Unreached,
    ),
    (
        b";# stack 2300H, 23FFH\n;# routine R\nR: JMP L1\n      NOP\nL1: RET\n;# end\n",
        4,
        StructKind::Unreached,
    ),
    (
        b";# stack 2300H, 23FFH\n;# routine R\nR: HLT\n      RET\n;# end\n",
        4,
        StructKind::Unreached,
    ),
    (
        b";# stack 2300H, 23FFH\n;# routine R\nR: RET\n;# assert true\nL1: JMP L1\n;# end\n",
        5,
        StructKind::Unreached,
    ),
    (
        b";# stack 2300H, 23FFH\n;# routine R\nR: RET\nL1: NOP\nL2: JMP L1\n;# end\n",
        4,
        StructKind::Unreached,
    ),
    (
        b";# stack 2300H, 23FFH\n;# routine R\nR: JMP L1\nL2: RET\n      NOP\nL1: RET\n;# end\n",
        4,
        StructKind::Unreached,
    ),
    (
        b";# stack 2300H, 23FFH\n;# routine R\n;# depth 2\nR: RET\n      PUSH B\n      RET\n;# end\n",
        5,
        StructKind::Unreached,
    ),
    (
        b";# stack 2300H, 23FFH\n;# routine R\nR: RET\n;# end\n;# routine S1\nS1: RET\n      RET\n;# end\n",
        7,
        StructKind::Unreached,
    ),
    (
        b";# stack 2300H, 23FFH\n;# routine R\n;# depth 2\nR: PUSH B\n      RET\n;# end\n",
        5,
        StructKind::Depth(2, 0),
    ),
    (
        b";# stack 2300H, 23FFH\n;# routine R\n;# depth 4\n;# reads Z\nR: PUSH B\n      PUSH D\n      RZ\n      POP D\n      POP B\n      RET\n;# end\n",
        7,
        StructKind::Depth(4, 0),
    ),
    (
        b";# stack 2300H, 23FFH\n;# routine R\n;# depth 2\n;# reads Z\nR: JZ L1\n      PUSH B\nL1: RET\n;# end\n",
        6,
        StructKind::Depth(2, 0),
    ),
    (
        b";# stack 2300H, 23FFH\n;# routine R\n;# depth 2\n;# reads Z\n;# assert true\nR: PUSH B\n      JZ R\n      POP B\n      RET\n;# end\n",
        7,
        StructKind::Depth(2, 0),
    ),
    (
        b";# stack 2300H, 23FFH\n;# routine R\n;# reads Z\n;# changes BC\n;# assert true\nR: POP B\n      JZ R\n      RET\n;# end\n",
        7,
        StructKind::Depth(-2, 0),
    ),
    (
        b";# stack 2300H, 23FFH\n;# routine R\n;# depth 4\n;# reads Z, CY\nR: JZ L1\n      PUSH B\nL1: JC L2\n      NOP\nL2: RET\n;# end\n",
        6,
        StructKind::Depth(2, 0),
    ),
    (
        b";# stack 2300H, 23FFH\n;# routine R\n;# depth 2\nR: PUSH B\n;# assert true\nL1: RET\n;# end\n",
        6,
        StructKind::Depth(2, 0),
    ),
    (
        b";# stack 2300H, 23FFH\n;# routine R\n;# depth 2\n;# reads Z\nR: JZ L0\n      PUSH B\n      NOP\nL0: POP B\n      RET\n;# end\n",
        7,
        StructKind::Depth(2, 0),
    ),
    (
        b";# stack 2300H, 23FFH\n;# routine R\n;# depth 2\n;# reads Z\nR: PUSH B\n      RZ\n      JMP L9\nL9: RET\n;# end\n",
        6,
        StructKind::Depth(2, 0),
    ),
    (
        b";# stack 2300H, 23FFH\n;# routine R\n;# depth 8\n;# assert true\nR: PUSH B\n      JMP R\n;# end\n",
        6,
        StructKind::Depth(2, 0),
    ),
    (
        b";# stack 2300H, 23FFH\n;# routine R\n;# depth 2\n;# reads Z, CY\nR: JZ L1\n      JC L2\n      PUSH B\nL2: NOP\nL1: RET\n;# end\n",
        7,
        StructKind::Depth(2, 0),
    ),
    (
        b";# stack 2300H, 23FFH\n;# routine R\n;# depth 2\n;# reads Z, CY\nR: JMP L3\nL1: NOP\nL2: RET\nL3: JZ L1\n      PUSH B\n      JMP L2\n;# end\n",
        10,
        StructKind::Depth(2, 0),
    ),
    (
        b";# stack 2300H, 23FFH\n;# routine R\n;# depth 4\n;# reads Z, CY\nR: JMP L3\nL2: POP B\n      RET\nL1: JMP L2\nL3: PUSH B\n      JZ L2\n      POP B\n      JMP L1\n;# end\n",
        8,
        StructKind::Depth(0, 2),
    ),
    (
        b";# stack 2300H, 23FFH\n;# routine R\n;# depth 2\n;# reads Z\nR: JMP L3\nL1: PUSH B\nL2: RET\nL3: JZ L2\n      JMP L1\n;# end\n",
        6,
        StructKind::Depth(2, 0),
    ),
    (
        b";# stack 2300H, 23FFH\n;# routine R\n;# depth 2\n;# reads Z\nR: JMP L4\nL1: PUSH B\n      JMP L3\nL2: JMP L3\nL3: RET\nL4: JZ L1\n      JMP L2\n;# end\n",
        8,
        StructKind::Depth(0, 2),
    ),
    (
        b";# stack 2300H, 23FFH\n;# routine R\n;# depth 2\n;# reads Z\n;# changes BC\nR: JMP L4\nL1: PUSH B\n      JMP L3\nL2: NOP\n      JMP L3\nL3: POP B\n      RET\nL4: JZ L1\n      JMP L2\n;# end\n",
        10,
        StructKind::Depth(0, 2),
    ),
    (
        b";# stack 2300H, 23FFH\n;# routine R\n;# depth 2\n;# reads Z\nR: JMP L4\nL1: NOP\n      JMP L3\nL3: RET\nL4: JZ L1\n      PUSH B\n      JMP L3\n;# end\n",
        11,
        StructKind::Depth(2, 0),
    ),
    (
        b";# stack 2300H, 23FFH\n;# routine R\n;# depth 4\n;# reads Z\nR: JMP L5\nL1: PUSH B\n      NOP\n      JMP L3\nL3: POP B\n      RET\nL5: JZ L1\n      PUSH D\n      PUSH H\n      JMP L3\n;# end\n",
        14,
        StructKind::Depth(4, 2),
    ),
    (
        b";# stack 2300H, 23FFH\n;# routine R\n;# depth 2\n;# reads Z\nR: JZ L9\n      PUSH B\n      NOP\n      NOP\nL8: RET\nL9: JMP L8\n;# end\n",
        8,
        StructKind::Depth(2, 0),
    ),
    (
        b";# stack 2300H, 23FFH\n;# routine R\n;# depth 2\n;# reads Z\nR: JZ L9\n      PUSH B\nL8: RET\nL9: NOP\n      NOP\n      JMP L8\n;# end\n",
        7,
        StructKind::Depth(2, 0),
    ),
    (
        b";# stack 2300H, 23FFH\n;# routine R\n;# depth 2\n;# reads Z, CY\nR: JMP L6\nL1: PUSH B\n      JMP L4\nL2: NOP\n      JMP L4\nL4: POP B\n      RET\nL6: JZ L1\n      JC L2\n      RET\n;# end\n",
        9,
        StructKind::Depth(0, 2),
    ),
    (
        b";# stack 2300H, 23FFH\n;# routine R\n;# depth 4\n;# reads Z, CY\nR: JMP L6\nL1: PUSH B\n      PUSH D\n      JMP L4\nL2: NOP\n      NOP\n      JMP L4\nL4: POP D\n      POP B\n      RET\nL6: JZ L1\n      JMP L2\n;# end\n",
        11,
        StructKind::Depth(0, 4),
    ),
    (
        b";# stack 2300H, 23FFH\n;# routine R\n;# depth 4\n;# reads Z, CY\nR: JMP L6\nL1: NOP\n      NOP\n      JMP L4\nL2: PUSH B\n      NOP\n      JMP L4\nL4: RET\nL6: JZ L1\n      JMP L2\n;# end\n",
        11,
        StructKind::Depth(2, 0),
    ),
    (
        b";# stack 2300H, 23FFH\n;# routine R\n;# depth 2\n;# reads Z, CY\nR: JMP L3\nL1: JC L2\n      PUSH B\nL2: RET\nL3: JZ L1\n      JMP L2\n;# end\n",
        7,
        StructKind::Depth(2, 0),
    ),
    (
        b";# stack 2300H, 23FFH\n;# routine R\n;# changes BC\nR: POP B\n      PUSH B\n      RET\n;# end\n",
        4,
        StructKind::PopsReturn,
    ),
    (
        b";# stack 2300H, 23FFH\n;# routine R\n;# changes HL\nR: XTHL\n      RET\n;# end\n",
        4,
        StructKind::PopsReturn,
    ),
    (
        b";# stack 2300H, 23FFH\n;# routine R\n;# depth 2\n;# changes BC\nR: PUSH B\n      POP B\n      POP B\n      PUSH B\n      RET\n;# end\n",
        7,
        StructKind::PopsReturn,
    ),
    (
        b";# stack 2300H, 23FFH\n;# routine R\n;# changes HL\n;# depth 2\nR: XTHL\n      PUSH B\n      POP B\n      RET\n;# end\n",
        5,
        StructKind::PopsReturn,
    ),
    (
        b";# stack 2300H, 23FFH\n;# routine R\n;# start\nR: LXI SP,2400H\n      POP PSW\n      HLT\n;# end\n",
        5,
        StructKind::PopsReturn,
    ),
    (
        b";# stack 2300H, 23FFH\n;# routine R\n;# reads Z\n;# changes DE\nR: JZ L1\n      NOP\nL1: POP D\n      PUSH D\n      RET\n;# end\n",
        7,
        StructKind::PopsReturn,
    ),
    (
        b";# stack 2300H, 23FFH\n;# routine R\nR: RET\n;# end\n;# routine S1\n;# changes HL\nS1: NOP\n      XTHL\n      XTHL\n      RET\n;# end\n",
        8,
        StructKind::PopsReturn,
    ),
    (
        b";# stack 2300H, 23FFH\n;# routine R\nR: PUSH B\n      POP B\n      RET\n;# end\n",
        3,
        StructKind::OverDepth,
    ),
    (
        b";# stack 2300H, 23FFH\n;# routine R\n;# depth 1\nR: PUSH B\n      POP B\n      RET\n;# end\n",
        4,
        StructKind::OverDepth,
    ),
    (
        b";# stack 2300H, 23FFH\n;# routine R\n;# depth 2\nR: PUSH B\n      PUSH D\n      POP D\n      POP B\n      RET\n;# end\n",
        5,
        StructKind::OverDepth,
    ),
    (
        b";# stack 2300H, 23FFH\n;# routine R\nR: CALL Q\n      RET\n;# end\n;# routine Q\nQ: RET\n;# end\n",
        3,
        StructKind::OverDepth,
    ),
    (
        b";# stack 2300H, 23FFH\n;# routine R\n;# depth 3\nR: PUSH B\n      CALL Q\n      POP B\n      RET\n;# end\n;# routine Q\nQ: RET\n;# end\n",
        5,
        StructKind::OverDepth,
    ),
    (
        b";# stack 2300H, 23FFH\n;# routine R\n;# depth 5\nR: PUSH B\n      CALL Q\n      POP B\n      RET\n;# end\n;# routine Q\n;# depth 2\nQ: RET\n;# end\n",
        5,
        StructKind::OverDepth,
    ),
    (
        b";# stack 2300H, 23FFH\n;# routine R\n;# depth 2\n;# reads Z\nR: CZ Q\n      RET\n;# end\n;# routine Q\n;# depth 1\nQ: RET\n;# end\n",
        5,
        StructKind::OverDepth,
    ),
    (
        b";# stack 2300H, 23FFH\n;# routine R\n;# start\n;# depth 257\nR: LXI SP,2400H\n HLT\n;# end\n",
        2,
        StructKind::OverDepth,
    ),
    (
        b";# stack 2300H, 23FFH\n;# routine R\n;# depth 1\nR: RST 1\n      RET\n;# end\nORG 8\n;# routine Q\nQ: RET\n;# end\n",
        4,
        StructKind::OverDepth,
    ),
    (
        b";# stack 2300H, 23FFH\n;# routine R\n;# depth 65535\nR: CALL Q\n      RET\n;# end\n;# routine Q\n;# depth 65535\nQ: RET\n;# end\n",
        4,
        StructKind::OverDepth,
    ),
    (
        b";# stack 2300H, 23FFH\n;# routine R\n;# start\n;# depth 300\nR: LXI SP,2400H\n      PUSH B\n      POP B\n      HLT\n;# end\n",
        2,
        StructKind::OverDepth,
    ),
    (
        b";# stack 2300H, 23FFH\n;# routine R\n;# depth 2\nR: PUSH B\n      RET\n      NOP\n      RET\n;# end\n",
        6,
        StructKind::Unreached,
    ),
    (
        b";# stack 2300H, 23FFH\n;# routine R\n;# depth 2\n;# changes HL\nR: XTHL\n      PUSH B\n      RET\n;# end\n",
        7,
        StructKind::Depth(2, 0),
    ),
    (
        b";# stack 2300H, 23FFH\n;# routine R\n;# changes HL, BC\nR: PUSH B\n      POP B\n      POP B\n      PUSH B\n      RET\n;# end\n",
        6,
        StructKind::PopsReturn,
    ),
    (
        b";# stack 2300H, 23FFH\n;# routine R\n;# assert STK1 = 0\nR: NOP\n      PUSH B\n      POP B\n      RET\n;# end\n",
        5,
        StructKind::OverDepth,
    ),
    (
        b";# stack 2300H, 23FFH\n;# routine R\n;# changes BC\nR: POP B\n      PUSH B\n      RET\n;# end\n;# routine S1\nS1: RET\n      RET\n;# end\n",
        10,
        StructKind::Unreached,
    ),
    (
        b";# stack 2300H, 23FFH\n;# routine R\nR: MOV A,B\n      RET\n      IN 5\n      RET\n;# end\n",
        5,
        StructKind::Unreached,
    ),
];

/// Unreached instructions, depths, return addresses and the depth of routines.
#[test]
fn the_stack_goes_wrong(rt: HostRuntime) -> Result<(), Fail> {
    expect_refused(&rt, rt.alloc(), &STACK)
}
