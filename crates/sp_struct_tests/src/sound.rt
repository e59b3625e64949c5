use crate::expected::expect_sound;
use std::test::Fail;

static SOUND: [(&[u8], usize, usize); 64] = [
    (
        b";# stack 2300H, 23FFH\n;# routine R\n;# assert true\nR: JMP $\n;# end\n",
        1,
        1,
    ),
    (
        b";# stack 2300H, 23FFH\n;# routine R\n;# reads Z\nR: JZ L9\n      NOP\nL9: RET\n;# end\n",
        1,
        3,
    ),
    (
        b";# stack 2300H, 23FFH\n;# routine R\nR: HLT\n;# end\n",
        1,
        1,
    ),
    (
        b";# stack 2300H, 23FFH\n;# routine R\n;# assert true\nR: JMP R\n;# end\n",
        1,
        1,
    ),
    (
        b";# stack 2300H, 23FFH\n;# routine R\n;# depth 2\nR: RST 1\n      RET\n;# end\nORG 8\n;# routine Q\nQ: RET\n;# end\n",
        2,
        3,
    ),
    (
        b";# stack 2300H, 23FFH\n;# routine R\n;# depth 2\nR: CALL Q\n      RET\n;# end\n;# routine Q\nQ: RET\n;# end\n",
        2,
        3,
    ),
    (
        b";# stack 2300H, 23FFH\n;# routine R\n;# depth 2\nR: CALL X\n      RET\n;# end\n;# routine Y\nX:\nY: RET\n;# end\n",
        2,
        3,
    ),
    (
        b";# stack 2300H, 23FFH\n;# routine R\n;# depth 6\nR: CALL Q\n      CALL S1\n      RET\n;# end\n;# routine Q\n;# depth 2\nQ: CALL S1\n      RET\n;# end\n;# routine S1\nS1: RET\n;# end\n",
        3,
        6,
    ),
    (
        b";# stack 2300H, 23FFH\n;# routine R\n;# start\nR: LXI SP,2400H\n      HLT\n;# end\n",
        1,
        2,
    ),
    (
        b";# stack 0FF00H, 0FFFEH\n;# routine R\n;# start\nR: LXI SP,0FFFFH\n      HLT\n;# end\n",
        1,
        2,
    ),
    (
        b";# stack 2300H, 23FFH\n;# routine R\nR: JMP L1\nL2: RET\nL1: JMP L2\n;# end\n",
        1,
        3,
    ),
    (
        b";# stack 2300H, 23FFH\n;# routine R\n;# depth 4\n;# reads Z\nR: PUSH B\n      JZ L1\n      PUSH D\n      POP D\nL1: POP B\n      RET\n;# end\n",
        1,
        6,
    ),
    (
        b";# stack 2300H, 23FFH\n;# routine R\n;# depth 2\n;# reads Z\nR: PUSH B\n      JZ L1\n      POP B\n      RET\nL1: POP B\n      RET\n;# end\n",
        1,
        6,
    ),
    (
        b";# stack 2300H, 23FFH\n;# routine R\n;# depth 2\n;# changes HL\nR: PUSH B\n      XTHL\n      POP B\n      RET\n;# end\n",
        1,
        4,
    ),
    (
        b";# stack 2300H, 23FFH\n;# routine R\n;# depth 3\nR: PUSH B\n      POP B\n      RET\n;# end\n",
        1,
        3,
    ),
    (
        b";# stack 2300H, 23FFH\n;# routine R\n;# depth 4\nR: PUSH B\n      CALL Q\n      POP B\n      RET\n;# end\n;# routine Q\nQ: RET\n;# end\n",
        2,
        5,
    ),
    (
        b";# stack 2300H, 23FFH\n;# routine R\n;# start\n;# depth 256\nR: LXI SP,2400H\n HLT\n;# end\n",
        1,
        2,
    ),
    (
        b";# stack 2300H, 23FFH\n;# routine R\n;# depth 65535\nR: RET\n;# end\n",
        1,
        1,
    ),
    (
        b";# stack 2300H, 23FFH\n;# routine R\n;# depth 2\nR: PUSH B\n;# assert STK1 = 0\n      NOP\n      POP B\n      RET\n;# end\n",
        1,
        4,
    ),
    (
        b";# stack 2300H, 23FFH\n;# routine R\n;# depth 4\nR: PUSH B\n      PUSH D\n;# assert STK1 = STK2\n      POP D\n      POP B\n      RET\n;# end\n",
        1,
        5,
    ),
    (
        b";# stack 2300H, 23FFH\n;# routine L1\n;# reads Z, CY\n;# assert true\nL1: JZ L2\n      JMP L1\n;# assert true\nL2: JC L2\n      RET\n;# end\n",
        1,
        4,
    ),
    (
        b";# stack 2300H, 23FFH\n;# routine R\n;# reads Z, CY\nR: NOP\n;# assert true\nL1: NOP\nL2: JZ L1\n      RET\n;# end\n",
        1,
        4,
    ),
    (
        b";# stack 2300H, 23FFH\n;# routine R\n;# start\n;# depth 2\nR: LXI SP,2400H\n      CALL Q\n      HLT\n;# end\n;# routine Q\nQ: RET\n;# end\n",
        2,
        4,
    ),
    (
        b";# stack 2300H, 23FFH\n;# routine R\n;# reads B\n;# changes A\nR: MOV A,B\n      RET\n;# end\n",
        1,
        2,
    ),
    (
        b";# stack 2300H, 23FFH\n;# routine R\n;# reads A\nR: RLC\n      RET\n;# end\n",
        1,
        2,
    ),
    (
        b";# stack 2300H, 23FFH\n;# routine R\nR: XRA A\n      RET\n;# end\n",
        1,
        2,
    ),
    (
        b";# stack 2300H, 23FFH\n;# routine R\nR: SUB A\n      RET\n;# end\n",
        1,
        2,
    ),
    (
        b";# stack 2300H, 23FFH\n;# routine R\nR: CMP A\n      RET\n;# end\n",
        1,
        2,
    ),
    (
        b";# stack 2300H, 23FFH\n;# routine R\n;# reads CY\nR: SBB A\n      RET\n;# end\n",
        1,
        2,
    ),
    (
        b";# stack 2300H, 23FFH\n;# routine R\nR: STC\n      CMC\n      RET\n;# end\n",
        1,
        3,
    ),
    (
        b";# stack 2300H, 23FFH\n;# routine R\n;# depth 2\nR: PUSH B\n      POP D\n      MOV A,D\n      RET\n;# end\n",
        1,
        4,
    ),
    (
        b";# stack 2300H, 23FFH\n;# routine R\n;# depth 2\nR: PUSH PSW\n      POP B\n      RET\n;# end\n",
        1,
        3,
    ),
    (
        b";# stack 2300H, 23FFH\n;# routine R\n;# depth 2\nR: PUSH B\n      XTHL\n      MOV A,L\n      POP D\n      RET\n;# end\n",
        1,
        5,
    ),
    (
        b";# stack 2300H, 23FFH\n;# routine R\n;# reads HL\nR: DAD H\n      RET\n;# end\n",
        1,
        2,
    ),
    (
        b";# stack 2300H, 23FFH\n;# routine R\n;# ins 1\n;# outs 1\nR: IN 1\n      OUT 1\n      RET\n;# end\n",
        1,
        3,
    ),
    (
        b";# stack 2300H, 23FFH\n;# routine R\n;# reads Z\nR: JZ L1\n      MVI B,1\n      JMP L2\nL1: MVI B,2\nL2: MOV A,B\n      RET\n;# end\n",
        1,
        6,
    ),
    (
        b";# stack 2300H, 23FFH\n;# routine R\nR: MVI B,1\n;# assert true\nL1: MOV A,B\n      MVI B,2\n      JMP L1\n;# end\n",
        1,
        4,
    ),
    (
        b";# stack 2300H, 23FFH\n;# routine R\n;# reads B\n;# changes B\nR: INR B\n      RZ\n      RM\n      RPE\n      RET\n;# end\n",
        1,
        5,
    ),
    (
        b";# stack 2300H, 23FFH\n;# routine R\nR: CMP A\n      RC\n      RET\n;# end\n",
        1,
        3,
    ),
    (
        b";# stack 2300H, 23FFH\n;# routine R\n;# reads A\nR: CMA\n      RET\n;# end\n",
        1,
        2,
    ),
    (
        b";# stack 2300H, 23FFH\n;# routine R\n;# depth 2\nR: CALL Q\n      MOV B,A\n      RET\n;# end\n;# routine Q\n;# changes A\nQ: MVI A,1\n      RET\n;# end\n",
        2,
        5,
    ),
    (
        b";# stack 2300H, 23FFH\n;# routine R\n;# depth 2\n;# reads Z\nR: CZ Q\n      CNZ Q\n      MVI A,1\n      MOV B,A\n      RET\n;# end\n;# routine Q\n;# changes A\nQ: MVI A,1\n      RET\n;# end\n",
        2,
        7,
    ),
    (
        b";# stack 2300H, 23FFH\n;# routine R\n;# depth 2\nR: RST 2\n      MOV B,A\n      RET\n;# end\nORG 16\n;# routine Q\n;# changes A\nQ: MVI A,1\n      RET\n;# end\n",
        2,
        5,
    ),
    (
        b";# stack 2300H, 23FFH\n;# routine R\n;# depth 2\nR: CALL Q\n      RZ\n      RET\n;# end\n;# routine Q\n;# changes FLAGS\nQ: CMP A\n      RET\n;# end\n",
        2,
        5,
    ),
    (
        b";# stack 2300H, 23FFH\n;# routine R\n;# depth 2\nR: CALL Q\n      MOV A,B\n      RET\n;# end\n;# routine Q\n;# changes BC\nQ: RET\n;# end\n",
        2,
        4,
    ),
    (
        b";# stack 2300H, 23FFH\n;# bytes P1, 2000H, 4\n;# bytes P2, 2004H, 4\n;# byte B1, 2010H\n;# word W1, 2012H\n;# routine R\n;# reads P1\nR: LDA 2000H\n      RET\n;# end\n",
        1,
        2,
    ),
    (
        b";# stack 2300H, 23FFH\n;# bytes P1, 2000H, 4\n;# bytes P2, 2004H, 4\n;# byte B1, 2010H\n;# word W1, 2012H\n;# routine R\n;# changes P1\nR: LDA 2003H\n      RET\n;# end\n",
        1,
        2,
    ),
    (
        b";# stack 2300H, 23FFH\n;# bytes P1, 2000H, 4\n;# bytes P2, 2004H, 4\n;# byte B1, 2010H\n;# word W1, 2012H\n;# routine R\n;# reads P1, P2\nR: LHLD 2003H\n      RET\n;# end\n",
        1,
        2,
    ),
    (
        b";# stack 2300H, 23FFH\n;# bytes P1, 2000H, 4\n;# bytes P2, 2004H, 4\n;# byte B1, 2010H\n;# word W1, 2012H\n;# routine R\n;# reads P1\n;# changes P2\nR: LHLD 2003H\n      RET\n;# end\n",
        1,
        2,
    ),
    (
        b";# stack 2300H, 23FFH\n;# bytes PR, R, 4\n;# routine R\n;# reads PR\nR: LDA R\n      RET\n;# end\n",
        1,
        2,
    ),
    (
        b";# stack 2300H, 23FFH\n;# bytes P1, 2000H, 4\n;# bytes P2, 2004H, 4\n;# byte B1, 2010H\n;# word W1, 2012H\n;# routine R\n;# reads A\n;# changes P1\nR: STA 2000H\n      RET\n;# end\n",
        1,
        2,
    ),
    (
        b";# stack 2300H, 23FFH\n;# bytes P1, 2000H, 4\n;# bytes P2, 2004H, 4\n;# byte B1, 2010H\n;# word W1, 2012H\n;# routine R\n;# reads HL\n;# changes P1, P2\nR: SHLD 2003H\n      RET\n;# end\n",
        1,
        2,
    ),
    (
        b";# stack 2300H, 23FFH\n;# bytes P1, 2000H, 4\n;# bytes P2, 2004H, 4\n;# byte B1, 2010H\n;# word W1, 2012H\n;# routine R\n;# depth 2\n;# changes P1, B1\nR: CALL Q\n      RET\n;# end\n;# routine Q\n;# changes P1, B1\nQ: RET\n;# end\n",
        2,
        3,
    ),
    (
        b";# stack 2300H, 23FFH\n;# bytes X2, 2000H, 1\n;# bytes X3, 2001H, 1\n;# routine R\n;# reads A\n;# changes X2, X3\nR: STA 2001H\n      RET\n;# end\n",
        1,
        2,
    ),
    (
        b";# stack 2300H, 23FFH\n;# routine R\n;# ins 5\nR: IN 5\n      RET\n;# end\n",
        1,
        2,
    ),
    (
        b";# stack 2300H, 23FFH\n;# routine R\n;# reads A\n;# outs 0FFH\nR: OUT -1\n      RET\n;# end\n",
        1,
        2,
    ),
    (
        b";# stack 2300H, 23FFH\n;# routine R\n;# depth 2\n;# ins 7, 9\n;# outs 3\nR: CALL Q\n      RET\n;# end\n;# routine Q\n;# ins 9, 7\n;# outs 3\nQ: RET\n;# end\n",
        2,
        3,
    ),
    (
        b";# stack 2300H, 23FFH\n;# routine R\n;# ins 1\n;# ins 2\n;# outs 3\n;# outs 4\nR: IN 1\n      OUT 3\n      IN 2\n      OUT 4\n      RET\n;# end\n",
        1,
        5,
    ),
    (
        b";# stack 2300H, 23FFH\n;# routine R\n;# depth 2\n;# reads A\nR: CALL Q\n      RET\n;# end\n;# routine Q\n;# reads A\nQ: RET\n;# end\n",
        2,
        3,
    ),
    (
        b";# stack 2300H, 23FFH\n;# routine R\n;# depth 2\nR: MVI A,1\n      CALL Q\n      RET\n;# end\n;# routine Q\n;# reads A\nQ: RET\n;# end\n",
        2,
        4,
    ),
    (
        b";# stack 2300H, 23FFH\n;# bytes P1, 2000H, 4\n;# bytes P2, 2004H, 4\n;# byte B1, 2010H\n;# word W1, 2012H\n;# routine R\n;# depth 2\n;# reads P1\nR: CALL Q\n      RET\n;# end\n;# routine Q\n;# reads P1\nQ: RET\n;# end\n",
        2,
        3,
    ),
    (
        b";# stack 2300H, 23FFH\n;# bytes P1, 2000H, 4\n;# bytes P2, 2004H, 4\n;# byte B1, 2010H\n;# word W1, 2012H\n;# routine R\n;# depth 2\n;# changes P1\nR: CALL Q\n      RET\n;# end\n;# routine Q\n;# reads P1\nQ: RET\n;# end\n",
        2,
        3,
    ),
    (
        b";# stack 2300H, 23FFH\n;# routine R\n;# depth 2\nR: CALL P0\n      CALL Q\n      RET\n;# end\n;# routine P0\n;# changes A\nP0: MVI A,1\n      RET\n;# end\n;# routine Q\n;# reads A\nQ: RET\n;# end\n",
        3,
        6,
    ),
    (
        b";# stack 2300H, 23FFH\n;# routine R\n;# depth 2\nR: CMP A\n      CALL Q\n      RET\n;# end\n;# routine Q\n;# reads FLAGS\nQ: RET\n;# end\n",
        2,
        4,
    ),
];

/// Sources that differ little from refused ones, and break no rule.
#[test]
fn sound_units(rt: HostRuntime) -> Result<(), Fail> {
    expect_sound(&rt, rt.alloc(), &SOUND)
}
