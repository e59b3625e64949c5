//! Sources that break no rule, with the numbers of their routines and instructions.
use crate::helpers::expect_sound;
use std::alloc::Global;
use std::process::Abort;
use std::test::Fail;

fn expect_all(rt: &impl Abort, alloc: Global, table: &[(&[u8], usize, u64)]) -> Result<(), Fail> {
    for (source, routines, instructions) in table {
        expect_sound(rt, alloc, source, *routines, *instructions)?;
    }
    Ok(())
}

static SOUND_ONE: [(&[u8], usize, u64); 64] = [
    (b";# stack 2300H, 23FFH\n; \x80\xFF\n", 0, 0),
    (
        b";# stack 2300H, 23FFH\n;# routine R ; \x80\nR: RET\n;# end\n",
        1,
        1,
    ),
    (
        b";# stack 2300H, 23FFH\nXXXXXXXXXXXXXXXXXXXXXXXXXXXXXXX:\n",
        0,
        0,
    ),
    (b";# stack 2300H, 23FFH\r\n", 0, 0),
    (
        b";# stack 2300H, 23FFH\n;# routine R\n;# pre A <> 9223372036854775807\nR: RET\n;# end\n",
        1,
        1,
    ),
    (b";# stack 2300H, 23FFH\nEND\n\x01\x02 [ 1H0\n", 0, 0),
    (b";# stack 2300H, 23FFH\nDB ';',';;' ; \x90\n", 0, 0),
    (
        b";# stack 2300H, 23FFH\nDB ((((((((((((((((((((((((((((((((((((((((((((((((((((((((((((((((1))))))))))))))))))))))))))))))))))))))))))))))))))))))))))))))))\n",
        0,
        0,
    ),
    (b";# stack 2300H, 23FFH\nX SET 1\nX SET 2\n", 0, 0),
    (
        b";# stack 2300H, 23FFH\n;# routine R\n;# changes A\nR: MVI A,0FF00H\n      RET\n;# end\n",
        1,
        2,
    ),
    (
        b";# stack 2300H, 23FFH\nORG 0FFFFH\nDS 1\nDS 0\nX EQU $\n",
        0,
        0,
    ),
    (
        b";# stack 2300H, 23FFH\n;# routine R\n;# depth ((((((((((((((((((((((((((((((((((((((((((((((((((((((((((((((((0))))))))))))))))))))))))))))))))))))))))))))))))))))))))))))))))\nR: RET\n;# end\n",
        1,
        1,
    ),
    (
        b";# stack 2300H, 23FFH\n;# bytes P1, 2000H, 4\n;# bytes P2, 2004H, 4\n;# byte B1, 2010H\n;# word W1, 2012H\n;# routine R\n;# pre ----------------------------------------------------------------1 = 1\nR: RET\n;# end\n",
        1,
        1,
    ),
    (
        b";# stack 2300H, 23FFH\n;# bytes P1, 2000H, 4\n;# bytes P2, 2004H, 4\n;# byte B1, 2010H\n;# word W1, 2012H\n;# routine R\n;# pre 1125899906842624 * 1125899906842623 <> 0\nR: RET\n;# end\n",
        1,
        1,
    ),
    (
        b";# stack 2300H, 23FFH\n;# bytes P1, 2000H, 4\n;# bytes P2, 2004H, 4\n;# byte B1, 2010H\n;# word W1, 2012H\n;# routine R\n;# pre 1125899906842624 * 1125899906842623 + 1125899906842623 <> 0\nR: RET\n;# end\n",
        1,
        1,
    ),
    (
        b";# stack 2300H, 23FFH\n;# bytes P1, 2000H, 4\n;# bytes P2, 2004H, 4\n;# byte B1, 2010H\n;# word W1, 2012H\n;# routine R\n;# pre A * A * A * A * A * A * A * A * A * A * A * A >= 0\nR: RET\n;# end\n",
        1,
        1,
    ),
    (
        b";# stack 2300H, 23FFH\n;# bytes P1, 2000H, 4\n;# bytes P2, 2004H, 4\n;# byte B1, 2010H\n;# word W1, 2012H\n;# routine R\n;# pre HL * HL * HL * HL * HL * HL >= 0\nR: RET\n;# end\n",
        1,
        1,
    ),
    (
        b";# stack 2300H, 23FFH\n;# bytes P1, 2000H, 4\n;# bytes P2, 2004H, 4\n;# byte B1, 2010H\n;# word W1, 2012H\n;# routine R\n;# pre B1 * B1 * B1 * B1 * B1 * B1 >= 0\nR: RET\n;# end\n",
        1,
        1,
    ),
    (
        b";# stack 2300H, 23FFH\n;# bytes P1, 2000H, 4\n;# bytes P2, 2004H, 4\n;# byte B1, 2010H\n;# word W1, 2012H\n;# routine R\n;# pre total(0, 1) * total(0, 1) * total(0, 1) * total(0, 1) >= 0\nR: RET\n;# end\n",
        1,
        1,
    ),
    (
        b";# stack 2300H, 23FFH\n;# bytes P1, 2000H, 4\n;# bytes P2, 2004H, 4\n;# byte B1, 2010H\n;# word W1, 2012H\n;# routine R\n;# pre (1125899906842624 * 1125899906842623) mod 1125899906842624 = 0 or true\nR: RET\n;# end\n",
        1,
        1,
    ),
    (
        b";# stack 2300H, 23FFH\n;# bytes P1, 2000H, 4\n;# bytes P2, 2004H, 4\n;# byte B1, 2010H\n;# word W1, 2012H\n;# routine R\n;# pre 9223372036854775807 * S * Z * AC * P * CY >= 0\nR: RET\n;# end\n",
        1,
        1,
    ),
    (b";# stack 2300H, 23FFH\n", 0, 0),
    (b"\n\n;# stack 2300H, 23FFH\n", 0, 0),
    (b"X EQU 1\n;# stack 2300H, 23FFH\nY: DB 1\n", 0, 0),
    (b"LO EQU 2300H\n;# stack LO, HI\nHI EQU LO+255\n", 0, 0),
    (
        b";# stack 2300H, 23FFH\n;# routine R\n;# byte X, 1000H\n;# reads X\n;# word Y, 1001H\n;# changes Y\nR: RET\n;# end\n",
        1,
        1,
    ),
    (
        b";# routine R\n;# stack 2300H, 23FFH\n;# reads A\nR: RET\n;# end\n",
        1,
        1,
    ),
    (
        b";# stack 2300H, 23FFH\n;# routine R\n; a comment\n\n;# reads A\nR: RET\n;# end\n",
        1,
        1,
    ),
    (
        b";# stack 2300H, 23FFH\n;# routine R\n;# pre R = 0\nR: RET\n;# end\n",
        1,
        1,
    ),
    (
        b";# stack 2300H, 23FFH\n;# routine R\n;# pre STK0 = 1\nR: RET\n;# end\nSTK0 EQU 5\n",
        1,
        1,
    ),
    (
        b";# stack 2300H, 23FFH\n;# routine R\nR:\n RET\n;# end\n",
        1,
        1,
    ),
    (
        b";# stack 2300H, 23FFH\n;# routine R\nX:\nR: RET\n;# end\n",
        1,
        1,
    ),
    (
        b";# stack 2300H, 23FFH\n;# routine r\nR: RET\n;# end\n",
        1,
        1,
    ),
    (b";# stack 5, 5\n", 0, 0),
    (b";# stack 0, 0FFFEH\n", 0, 0),
    (
        b";# stack 0FFH, 1FFH\nORG 200H\n DB 1\nORG 0FEH\n DB 1\n",
        0,
        0,
    ),
    (b";# stack 0, 10\n DS 5\n", 0, 0),
    (b";# stack 2300H, 23FFH\n;# bytes X, 0FFFFH, 1\n", 0, 0),
    (b";# stack 2300H, 23FFH\n;# word X, 0FFFEH\n", 0, 0),
    (
        b";# stack 2300H, 23FFH\n;# word X, 22FEH\n;# byte Y, 2400H\n",
        0,
        0,
    ),
    (b";# stack 2300H, 23FFH\n;# byte X, 1\n;# byte Y, 1\n", 0, 0),
    (
        b";# stack 2300H, 23FFH\n;# routine R\n;# ins 255, 0\nR: RET\n;# end\n",
        1,
        1,
    ),
    (
        b";# stack 2300H, 23FFH\n;# byte X, 0\n;# routine R\n;# reads X\nR: RET\n;# end\n",
        1,
        1,
    ),
    (
        b";# stack 2300H, 23FFH\n;# bytes X, 1, 10\n;# routine R\n;# changes X\nR: RET\n;# end\n",
        1,
        1,
    ),
    (
        b";# stack 2300H, 23FFH\n;# bytes X, 1, 10\n;# routine R\n;# changes X\nR: RET\n;# end\nDS 5\n",
        1,
        1,
    ),
    (b";# stack 2300H, 23FFH\nDB 1\nDS 5\nL1:\nDW L1\n", 0, 0),
    (
        b";# stack 2300H, 23FFH\n;# routine R\nR: RET\n;# end\nDB 1\nX: DS 4\nORG 100H\n;# routine S1\nS1: RET\n;# end\n",
        2,
        2,
    ),
    (
        b";# stack 2300H, 23FFH\n;# routine R\nR: NOP\n      X EQU 5\n      V SET 1\n      RET\n;# end\n",
        1,
        2,
    ),
    (
        b";# stack 2300H, 23FFH\n;# routine R\n;# start\n;# pre true\nR: LXI SP,2400H\n;# assert true\nH1: JMP H1\n;# end\n",
        1,
        2,
    ),
    (
        b";# stack 2300H, 23FFH\n;# routine R\n;# start\nR: LXI SP,2400H\n;# assert true\n      NOP\n      HLT\n;# end\n",
        1,
        3,
    ),
    (
        b";# stack 2300H, 23FFH\n;# routine R\n;# assert true\nR: JMP $\n;# end\n",
        1,
        1,
    ),
    (
        b";# stack 2300H, 23FFH\n;# routine R\n;# reads Z\nR: JZ L9\n      NOP\nL9: RET\n;# end\n",
        1,
        3,
    ),
    (
        b";# stack 2300H, 23FFH\n;# routine R\nR: HLT\n;# end\n",
        1,
        1,
    ),
    (
        b";# stack 2300H, 23FFH\n;# routine R\n;# assert true\nR: JMP R\n;# end\n",
        1,
        1,
    ),
    (
        b";# stack 2300H, 23FFH\n;# routine R\n;# depth 2\nR: RST 1\n      RET\n;# end\nORG 8\n;# routine Q\nQ: RET\n;# end\n",
        2,
        3,
    ),
    (
        b";# stack 2300H, 23FFH\n;# routine R\n;# depth 2\nR: CALL Q\n      RET\n;# end\n;# routine Q\nQ: RET\n;# end\n",
        2,
        3,
    ),
    (
        b";# stack 2300H, 23FFH\n;# routine R\n;# depth 2\nR: CALL X\n      RET\n;# end\n;# routine Y\nX:\nY: RET\n;# end\n",
        2,
        3,
    ),
    (
        b";# stack 2300H, 23FFH\n;# routine R\n;# depth 6\nR: CALL Q\n      CALL S1\n      RET\n;# end\n;# routine Q\n;# depth 2\nQ: CALL S1\n      RET\n;# end\n;# routine S1\nS1: RET\n;# end\n",
        3,
        6,
    ),
    (
        b";# stack 2300H, 23FFH\n;# routine R\n;# start\nR: LXI SP,2400H\n      HLT\n;# end\n",
        1,
        2,
    ),
    (
        b";# stack 0FF00H, 0FFFEH\n;# routine R\n;# start\nR: LXI SP,0FFFFH\n      HLT\n;# end\n",
        1,
        2,
    ),
    (
        b";# stack 2300H, 23FFH\n;# routine R\nR: JMP L1\nL2: RET\nL1: JMP L2\n;# end\n",
        1,
        3,
    ),
    (
        b";# stack 2300H, 23FFH\n;# routine R\n;# depth 4\n;# reads Z\nR: PUSH B\n      JZ L1\n      PUSH D\n      POP D\nL1: POP B\n      RET\n;# end\n",
        1,
        6,
    ),
    (
        b";# stack 2300H, 23FFH\n;# routine R\n;# depth 2\n;# reads Z\nR: PUSH B\n      JZ L1\n      POP B\n      RET\nL1: POP B\n      RET\n;# end\n",
        1,
        6,
    ),
    (
        b";# stack 2300H, 23FFH\n;# routine R\n;# depth 2\n;# changes HL\nR: PUSH B\n      XTHL\n      POP B\n      RET\n;# end\n",
        1,
        4,
    ),
];

static SOUND_TWO: [(&[u8], usize, u64); 34] = [
    (
        b";# stack 2300H, 23FFH\n;# routine MUL10\n;# pre HL < 6554\n;# post HL = 10 * HL~\n;# reads HL\n;# changes DE, HL, CY\nMUL10: MOV D,H\n      MOV E,L\n      DAD H\n      DAD H\n      DAD D\n      DAD H\n      RET\n;# end\n",
        1,
        7,
    ),
    (
        b";# stack 2300H, 23FFH\n;# routine LFSR\n;# post A <> A~ or A~ = 0 or A~ = 255\n;# reads A\n;# changes A, B, FLAGS\nLFSR: RLC\n      JNC NOFB\n      XRI 1DH\nNOFB: MOV B,A\n      RET\n;# end\n",
        1,
        5,
    ),
    (
        b";# stack 2300H, 23FFH\n;# routine SETC\n;# post CY = 1\n;# changes CY\nSETC: STC\n      RET\n;# end\n;# routine CLRC\n;# post CY = 0\n;# changes CY\n;# depth 2\nCLRC: CALL SETC\n      CMC\n      RET\n;# end\n",
        2,
        5,
    ),
    (
        b";# stack 2300H, 23FFH\n;# routine CLASS\n;# post B <= 3\n;# reads A\n;# changes B, FLAGS\nCLASS: MVI B,0\n      CPI 0\n      RZ\n      INR B\n      CPI 10\n      RC\n      INR B\n      CPI 100\n      RC\n      INR B\n      RET\n;# end\n",
        1,
        11,
    ),
    (
        b";# stack 2300H, 23FFH\n;# byte CNT, 2020H\n;# word PTR, 2022H\n;# routine POKE\n;# pre BC = addr(CNT)\n;# post CNT = (CNT~ + D) mod 256\n;# reads BC, D, CNT\n;# changes CNT, A, FLAGS\nPOKE: LDAX B\n      ADD D\n      STAX B\n      RET\n;# end\n",
        1,
        4,
    ),
    (
        b";# stack 2300H, 23FFH\n;# routine DIGIT\n;# pre A <= 9\n;# post A mod 16 <= 9\n;# reads A\n;# changes A, FLAGS\nDIGIT: ADI 5\n      DAA\n      RET\n;# end\n",
        1,
        3,
    ),
    (
        b";# stack 2300H, 23FFH\n;# routine NULL\nNULL: RET\n;# end\n",
        1,
        1,
    ),
    (
        b";# stack 2300H, 23FFH\n;# routine NOPS\nNOPS: NOP\n      EI\n      DI\n      NOP\n      RET\n;# end\n",
        1,
        5,
    ),
    (
        b";# stack 2300H, 23FFH\n;# routine ECHO\n;# start\n;# changes A\n;# ins 0, 1\n;# outs 0FFH\nECHO: LXI SP,2400H\n;# assert true\nE1: IN 0\n      OUT 255\n      IN 1\n      OUT -1\n      JMP E1\n;# end\n",
        1,
        6,
    ),
    (
        b";# stack 2300H, 23FFH\nLIMIT EQU 40\nSTEP SET 2\nSTEP SET STEP + 3\n;# routine NAMES\n;# pre A < LIMIT\n;# post A = A~ + STEP\n;# reads A\n;# changes A, FLAGS\nNAMES: ADI STEP\n      RET\n;# end\nMSG: DB 'TEXT',0\n     DW MSG,NAMES\n     DS 4\n",
        1,
        2,
    ),
    (
        b";# stack 2300H, 23FFH\n;# bytes ROM, ROM, 2\n;# routine FIRST\n;# post A = 77\n;# reads ROM\n;# changes A\nFIRST: LDA ROM\n      RET\n;# end\nROM: DB 77,78\n",
        1,
        2,
    ),
    (
        b";# stack 2300H, 23FFH\n;# routine TRAP\n;# pre A <= 3\n;# post A < 3\n;# reads A\n;# changes FLAGS\nTRAP: CPI 3\n      RNZ\n      HLT\n;# end\n",
        1,
        3,
    ),
    (
        b";# stack 2300H, 23FFH\nORG 100H\n;# routine SECOND\n;# post A = 2\n;# changes A, FLAGS\n;# depth 2\nSECOND: CALL FIRST\n      INR A\n      RET\n;# end\nORG 40H\n;# routine FIRST\n;# post A = 1\n;# changes A\nFIRST: MVI A,1\n      RET\n;# end\n",
        2,
        5,
    ),
    (
        b";# stack 2300H, 23FFH\n;# routine ADD24\n;# reads BC, DE, HL, A\n;# changes A, HL, D, FLAGS\nADD24: MOV D,A\n      MOV A,L\n      ADD C\n      MOV L,A\n      MOV A,H\n      ADC B\n      MOV H,A\n      MOV A,D\n      ACI 0\n      RET\n;# end\n",
        1,
        10,
    ),
    (
        b";# stack 2300H, 23FFH\n;# routine MIX\n;# post A = bor(band(A~, 15), band(B, 240))\n;# reads A, B\n;# changes A, C, FLAGS\nMIX: ANI 0FH\n      MOV C,A\n      MOV A,B\n      ANI 0F0H\n      ORA C\n      RET\n;# end\n",
        1,
        6,
    ),
    (
        b";# stack 2300H, 23FFH\n;# routine FLIP\n;# post A = bxor(A~, 255)\n;# reads A\n;# changes A, FLAGS\nFLIP: XRI 0FFH\n      RET\n;# end\n",
        1,
        2,
    ),
    (
        b";# stack 2300H, 23FFH\n;# bytes BUF, 2000H, 8\n;# routine KEEP\n;# post for all I in 1..7: BUF[I] = BUF~[I]\n;# post for some I in 0..7: BUF[I] = A\n;# reads A\n;# changes BUF\nKEEP: STA 2000H\n      RET\n;# end\n",
        1,
        2,
    ),
    (
        b";# stack 2300H, 23FFH\n;# bytes BUF, 2000H, 8\n;# routine MEMN\n;# post mem[2000H] = 3 and mem[2001H] = mem~[2001H]\n;# changes BUF, HL\nMEMN: LXI H,2000H\n      MVI M,3\n      RET\n;# end\n",
        1,
        3,
    ),
    (
        b";# stack 2300H, 23FFH\n;# bytes BUF, 2000H, 8\n;# routine INCM\n;# pre HL >= addr(BUF) and HL < addr(BUF) + len(BUF)\n;# post mem[HL] = (mem~[HL] + 1) mod 256\n;# reads HL, BUF\n;# changes BUF, FLAGS\nINCM: INR M\n      RET\n;# end\n",
        1,
        2,
    ),
    (
        b";# stack 2300H, 23FFH\n;# byte CNT, 2020H\n;# word PTR, 2022H\n;# routine DECM\n;# pre HL = addr(CNT)\n;# post CNT = (CNT~ - 1) mod 256\n;# post Z = 1 <-> CNT~ = 1\n;# reads HL, CNT\n;# changes CNT, FLAGS\nDECM: DCR M\n      RET\n;# end\n",
        1,
        2,
    ),
    (
        b";# stack 2300H, 23FFH\n;# routine FIVE\n;# post A = 5\n;# changes A\n;# assert true\nFIVE: MVI A,5\n;# assert A = 5\n      RET\n;# end\n",
        1,
        2,
    ),
    (
        b";# stack 2300H, 23FFH\n;# routine BACKJ\n;# post A = 0\n;# reads A\n;# changes A, FLAGS\nBACKJ: JMP TEST\n;# assert A >= 1\nBODY: DCR A\nTEST: ORA A\n      JNZ BODY\n      RET\n;# end\n",
        1,
        5,
    ),
    (
        b";# stack 2300H, 23FFH\n;# routine PORTS\n;# post A = 0\n;# changes A, FLAGS\n;# ins 1, 2, 3\n;# outs 4\n;# outs 5\nPORTS: IN 1\n      OUT 4\n      IN 2\n      OUT 5\n      IN 3\n      XRA A\n      RET\n;# end\n",
        1,
        7,
    ),
    (
        b";# stack 2300H, 23FFH\n;# bytes HI2, 2000H, 8\n;# bytes LO2, 2004H, 8\n;# routine OVL\n;# post LO2[0] = 1\n;# changes HI2, A\nOVL: MVI A,1\n      STA 2004H\n      RET\n;# end\n",
        1,
        3,
    ),
    (
        b";# stack 0FF00H, 0FFFEH\n;# byte TOPB, 0FFFFH\n;# routine EDGE\n;# post TOPB = 9\n;# changes TOPB, A\nEDGE: MVI A,9\n      STA 0FFFFH\n      RET\n;# end\n",
        1,
        3,
    ),
    (
        b";# stack 0, 0FFH\nORG 200H\n;# routine LOWS\n;# start\n;# changes A\n;# depth 2\nLOWS: LXI SP,100H\n      CALL LEAF\n;# assert A = 1\nH1: JMP H1\n;# end\n;# routine LEAF\n;# post A = 1\n;# changes A\nLEAF: MVI A,1\n      RET\n;# end\n",
        2,
        5,
    ),
    (
        b";# stack 2300H, 23FFH\n;# Routine LOWER\n;# pre a <= 25\n;# POST A = a~ + 97\n;# READS a\n;# Changes A, flags\nlower: adi 61h\n      ret\n;# end\n",
        1,
        2,
    ),
    (
        b";# stack 2300H, 23FFH\n;# routine DIV8\n;# post A = A~ div 8\n;# reads A\n;# changes A, FLAGS\nDIV8: ANI 0F8H\n      RRC\n      RRC\n      RRC\n      RET\n;# end\n",
        1,
        5,
    ),
    (
        b";# stack 2300H, 23FFH\n;# routine SWAPAB\n;# post A = B~ and B = A~\n;# reads A, B\n;# changes A, B, C\nSWAPAB: MOV C,A\n      MOV A,B\n      MOV B,C\n      RET\n;# end\n",
        1,
        4,
    ),
    (
        b";# stack 2300H, 23FFH\n;# routine PASS\n;# post DE = BC~\n;# changes DE\n;# depth 2\nPASS: PUSH B\n      POP D\n      RET\n;# end\n",
        1,
        3,
    ),
    (
        b";# stack 2300H, 23FFH\n;# routine SHIFT\n;# pre B >= 1 and B <= 8\n;# post B = 0\n;# reads B, HL\n;# changes B, HL, FLAGS\n;# assert B >= 1 and B <= 8\nSHIFT: DAD H\n      DCR B\n      JNZ SHIFT\n      RET\n;# end\n",
        1,
        4,
    ),
    (
        b";# stack 2300H, 23FFH\n;# routine THREE\n;# post A = 3\n;# changes A, B, FLAGS\nTHREE: MVI A,0\n;# assert A = 0\n      NOP\n      INR A\n;# assert A = 1\n      INR A\n;# assert A = 2\n      INR A\n      RET\n;# end\n",
        1,
        6,
    ),
    (
        b";# stack 2300H, 23FFH\n;# routine X1\n;# reads CY\nX1: JC X2\nX2: RET\n;# end\n",
        1,
        2,
    ),
    (
        b";# stack 2300H, 23FFH\n;# routine X1\n;# reads CY\nX1: JC X2\nX2: JC X3\nX3: JC X4\nX4: JC X5\nX5: JC X6\nX6: RET\n;# end\n",
        1,
        6,
    ),
];

#[test]
fn sound_one(rt: HostRuntime) -> Result<(), Fail> {
    expect_all(&rt, rt.alloc(), &SOUND_ONE)
}

#[test]
fn sound_two(rt: HostRuntime) -> Result<(), Fail> {
    expect_all(&rt, rt.alloc(), &SOUND_TWO)
}
