ghost use Rattle.std.specs.Prelude.{◌<◌, length};
ghost use Rattle.sp_graph.specs.Structure.{IsStructured};

use crate::sources::unit_of;
use sp_graph::{End, Step, Walk, walks};
use sp_prog::Unit;
use sp_struct::check;
use std::alloc::Global;
use std::process::Abort;
use std::test::Fail;

/// What a walk ends at, as a word.
fn word_of(end: End) -> &'static str {
    match end {
        End::Access => "access",
        End::Call => "call",
        End::Assert => "assert",
        End::Return => "return",
    }
}

/// Writes a step: its place, and a plus sign where the choice was taken.
fn push_step(alloc: Global, text: &mut String, step: &Step) -> Result<(), Fail> {
    let place = format!(in alloc; " {}", step.at)?;
    text.push_str(place.as_str())?;
    if step.taken {
        text.push('+')?;
    }
    Ok(())
}

/// Writes a walk: its routine; where it starts, and its end with the place of that; its steps.
fn push_walk(alloc: Global, text: &mut String, routine: usize, walk: &Walk) -> Result<(), Fail> {
    let end = word_of(walk.end);
    let start = match walk.from {
        None => format!(in alloc; "{routine} entry {end} {}:", walk.at)?,
        Some(place) => format!(in alloc; "{routine} {place} {end} {}:", walk.at)?,
    };
    text.push_str(start.as_str())?;
    for step in walk.steps.as_slice() {
        push_step(alloc, text, step)?;
    }
    text.push('\n')?;
    Ok(())
}

/// Writes the walks of a routine.
fn list(alloc: Global, unit: &Unit, routine: usize, text: &mut String) -> Result<(), Fail>
    requires structured { IsStructured unit.now }
    requires routine { routine < length unit.now.routines }
{
    let mut all = walks(alloc, unit, routine)?;
    for _ in 0..100u32 {
        match all.next()? {
            Some(walk) => push_walk(alloc, text, routine, &walk)?,
            None => return Ok(()),
        }
    }
    Ok(())
}

/// The walks of all routines of a source.
fn found_in(rt: &impl Abort, alloc: Global, source: &[u8]) -> Result<String, Fail> {
    let unit = unit_of(rt, alloc, source)?;
    let mut text = String::new(alloc);
    match check(alloc, &unit) {
        Ok(_) => {
            for routine in 0..unit.routines.as_slice().len() {
                list(alloc, &unit, routine, &mut text)?;
            }
        }
        Err(refused) => panic!(rt; "refused: {refused:?} at {source:?}"),
    }
    Ok(text)
}

/// Whether each source has these walks, in order.
fn expect_walks(rt: &impl Abort, alloc: Global, table: &[(&[u8], &[u8])]) -> Result<(), Fail> {
    for (source, walks) in table {
        let found = found_in(rt, alloc, source)?;
        assert_eq!(rt; found.as_bytes(), *walks, "at {source:?}");
    }
    Ok(())
}

static WALKS: [(&[u8], &[u8]); 49] = [
    (
        b";# stack 2300H, 23FFH\n;# routine DELAY\n;# pre B >= 1\n;# post B = 0 and C = 0\n;# reads B\n;# changes B, C, FLAGS\n;# assert B >= 1\nDELAY: MVI C,100\n;# assert B >= 1 and C >= 1\nL2: DCR C\n      JNZ L2\n      DCR B\n      JNZ DELAY\n      RET\n;# end\n",
        b"0 entry assert 0:\n0 0 assert 1: 0\n0 1 return 5: 1 2 3 4\n0 1 assert 0: 1 2 3 4+\n0 1 assert 1: 1 2+\n",
    ),
    (
        b";# stack 2300H, 23FFH\n;# routine POPC\n;# post B <= 8\n;# post A = 0\n;# reads A\n;# changes A, B, C, FLAGS\nPOPC: MVI B,0\n      MVI C,8\n;# assert B + C <= 8 and C >= 1\nLP: RRC\n      JNC SKIP\n      INR B\nSKIP: DCR C\n      JNZ LP\n      XRA A\n      RET\n;# end\n",
        b"0 entry assert 2: 0 1\n0 2 return 8: 2 3 4 5 6 7\n0 2 assert 2: 2 3 4 5 6+\n0 2 return 8: 2 3+ 5 6 7\n0 2 assert 2: 2 3+ 5 6+\n",
    ),
    (
        b";# stack 2300H, 23FFH\n;# routine MAX3\n;# post A >= B and A >= C and A >= D\n;# post A = B or A = C or A = D\n;# reads B, C, D\n;# changes A, FLAGS\nMAX3: MOV A,B\n      CMP C\n      JNC L1\n      MOV A,C\nL1: CMP D\n      RNC\n      MOV A,D\n      RET\n;# end\n",
        b"0 entry return 7: 0 1 2 3 4 5 6\n0 entry return 5: 0 1 2 3 4\n0 entry return 7: 0 1 2+ 4 5 6\n0 entry return 5: 0 1 2+ 4\n",
    ),
    (
        b";# stack 2300H, 23FFH\n;# routine CMP16\n;# post CY = 1 <-> HL < DE\n;# reads HL, DE\n;# changes A, FLAGS\nCMP16: MOV A,H\n      CMP D\n      RNZ\n      MOV A,L\n      CMP E\n      RET\n;# end\n",
        b"0 entry return 5: 0 1 2 3 4\n0 entry return 2: 0 1\n",
    ),
    (
        b";# stack 2300H, 23FFH\n;# routine POLL\n;# post band(A, 1) = 1\n;# changes A, B, FLAGS\n;# ins 10H, 11H\n;# assert true\nPOLL: IN 10H\n      ANI 1\n      JZ POLL\n      IN 11H\n      ORI 1\n      RET\n;# end\n",
        b"0 entry assert 0:\n0 0 return 5: 0 1 2 3 4\n0 0 assert 0: 0 1 2+\n",
    ),
    (
        b";# stack 2300H, 23FFH\n;# bytes BUF, 2000H, 8\n;# routine PUTS\n;# pre HL = addr(BUF)\n;# post B = 0\n;# reads HL, BUF\n;# changes A, B, HL, FLAGS\n;# outs 1\nPUTS: MVI B,8\n;# assert B >= 1 and B <= 8 and HL = addr(BUF) + 8 - B\nNEXT: MOV A,M\n      OUT 1\n      INX H\n      DCR B\n      JNZ NEXT\n      RET\n;# end\n",
        b"0 entry assert 1: 0\n0 1 access 1:\n0 1 return 6: 1 2 3 4 5\n0 1 assert 1: 1 2 3 4 5+\n",
    ),
    (
        b";# stack 2300H, 23FFH\n;# routine SAVE\n;# depth 8\n;# outs 3\nSAVE: PUSH PSW\n      PUSH B\n      PUSH D\n      PUSH H\n      MVI A,1\n      OUT 3\n      POP H\n      POP D\n      POP B\n      POP PSW\n      RET\n;# end\n",
        b"0 entry return 10: 0 1 2 3 4 5 6 7 8 9\n",
    ),
    (
        b";# stack 2300H, 23FFH\n;# routine TOP\n;# pre A <= 100\n;# post A = A~ + 3\n;# reads A\n;# changes A, FLAGS\n;# depth 4\nTOP: CALL MID\n      INR A\n      RET\n;# end\n;# routine MID\n;# pre A < 250\n;# post A = A~ + 2\n;# reads A\n;# changes A, FLAGS\n;# depth 2\nMID: CALL LOW1\n      CALL LOW1\n      RET\n;# end\n;# routine LOW1\n;# pre A < 255\n;# post A = A~ + 1\n;# reads A\n;# changes A, FLAGS\nLOW1: INR A\n      RET\n;# end\n",
        b"0 entry call 0:\n0 entry return 2: 0 1\n1 entry call 0:\n1 entry call 1: 0\n1 entry return 2: 0 1\n2 entry return 1: 0\n",
    ),
    (
        b";# stack 2300H, 23FFH\n;# routine MAIN\n;# start\n;# changes A, BC\n;# depth 2\nMAIN: LXI SP,2400H\n      MVI B,7\n      RST 2\n;# assert A = 7\nSTOP: JMP STOP\n;# end\nORG 10H\n;# routine GETB\n;# post A = B\n;# reads B\n;# changes A\nGETB: MOV A,B\n      RET\n;# end\n",
        b"0 entry assert 3: 0 1 2\n0 3 assert 3: 3\n1 entry return 1: 0\n",
    ),
    (
        b";# stack 2300H, 23FFH\n;# routine GCD\n;# pre A >= 1 and B >= 1\n;# post A = B\n;# reads A, B\n;# changes A, B, C, FLAGS\n;# assert A >= 1 and B >= 1\nGCD: CMP B\n      RZ\n      JC LESS\n      SUB B\n      JMP GCD\nLESS: MOV C,A\n      MOV A,B\n      SUB C\n      MOV B,A\n      MOV A,C\n      JMP GCD\n;# end\n",
        b"0 entry assert 0:\n0 0 assert 0: 0 1 2 3 4\n0 0 assert 0: 0 1 2+ 5 6 7 8 9 10\n0 0 return 1: 0\n",
    ),
    (
        b";# stack 2300H, 23FFH\n;# routine TRI\n;# pre B >= 1 and B <= 22\n;# post 2 * A = B~ * (B~ + 1)\n;# reads B\n;# changes A, B, FLAGS\nTRI: XRA A\n;# assert B >= 1 and B <= B~\n;# assert 2 * A = B~ * (B~ + 1) - B * (B + 1)\nADDB: ADD B\n      DCR B\n      JNZ ADDB\n      RET\n;# end\n",
        b"0 entry assert 1: 0\n0 1 return 4: 1 2 3\n0 1 assert 1: 1 2 3+\n",
    ),
    (
        b";# stack 2300H, 23FFH\n;# bytes BUF, 2000H, 8\n;# routine REV\n;# post BUF[0] = BUF~[7] and BUF[7] = BUF~[0]\n;# changes BUF, A, BC, DE, HL, FLAGS\nREV: LXI H,2000H\n      LXI D,2007H\n      MVI B,4\n;# assert HL = addr(BUF) + 4 - B and DE = addr(BUF) + 3 + B\n;# assert 1 <= B and B <= 4\nRL: LDAX D\n      MOV C,M\n      MOV M,A\n      MOV A,C\n      STAX D\n      INX H\n      DCX D\n      DCR B\n      JNZ RL\n      RET\n;# end\n",
        b"0 entry assert 3: 0 1 2\n0 3 access 3:\n0 3 access 4: 3\n0 3 access 5: 3 4\n0 3 access 7: 3 4 5 6\n0 3 return 12: 3 4 5 6 7 8 9 10 11\n0 3 assert 3: 3 4 5 6 7 8 9 10 11+\n",
    ),
    (
        b";# stack 2300H, 23FFH\n;# bytes SRC, 2000H, 16\n;# bytes DST, 2010H, 16\n;# routine ADDS\n;# reads SRC\n;# changes DST, A, B, DE, HL, FLAGS\nADDS: LXI H,2000H\n      LXI D,2010H\n      MVI B,16\n      XRA A\n;# assert B >= 1 and B <= 16\n;# assert HL = addr(SRC) + 16 - B and DE = addr(DST) + 16 - B\nAL: LDAX D\n      ADC M\n      STAX D\n      INX H\n      INX D\n      DCR B\n      JNZ AL\n      RET\n;# end\n",
        b"0 entry assert 4: 0 1 2 3\n0 4 access 4:\n0 4 access 5: 4\n0 4 access 6: 4 5\n0 4 return 11: 4 5 6 7 8 9 10\n0 4 assert 4: 4 5 6 7 8 9 10+\n",
    ),
    (
        b";# stack 2300H, 23FFH\n;# routine CLAMP\n;# pre B <= C\n;# post B <= A and A <= C\n;# post B <= A~ and A~ <= C -> A = A~\n;# reads A, B, C\n;# changes A, FLAGS\nCLAMP: CMP B\n      JNC OVER\n      MOV A,B\n      RET\nOVER: CMP C\n      RC\n      MOV A,C\n      RET\n;# end\n",
        b"0 entry return 3: 0 1 2\n0 entry return 7: 0 1+ 4 5 6\n0 entry return 5: 0 1+ 4\n",
    ),
    (
        b";# stack 2300H, 23FFH\n;# bytes TAB, TAB, 10\n;# routine SEG\n;# pre A <= 9\n;# post A = TAB[A~]\n;# reads A, TAB\n;# changes A, HL, FLAGS\n;# depth 2\nSEG: MVI H,0\n      MOV L,A\n      PUSH B\n      LXI B,TAB\n      DAD B\n      POP B\n      MOV A,M\n      RET\n;# end\nTAB: DB 3FH,6,5BH,4FH,66H,6DH,7DH,7,7FH,6FH\n",
        b"0 entry access 6: 0 1 2 3 4 5\n0 entry return 7: 0 1 2 3 4 5 6\n",
    ),
    (
        b";# stack 2300H, 23FFH\n;# routine SETC\n;# post CY = 1\n;# changes CY\nSETC: STC\n      RET\n;# end\n;# routine CLRC\n;# post CY = 0\n;# changes CY\n;# depth 2\nCLRC: CALL SETC\n      CMC\n      RET\n;# end\n",
        b"0 entry return 1: 0\n1 entry return 2: 0 1\n",
    ),
    (
        b";# stack 2300H, 23FFH\n;# routine CLASS\n;# post B <= 3\n;# reads A\n;# changes B, FLAGS\nCLASS: MVI B,0\n      CPI 0\n      RZ\n      INR B\n      CPI 10\n      RC\n      INR B\n      CPI 100\n      RC\n      INR B\n      RET\n;# end\n",
        b"0 entry return 10: 0 1 2 3 4 5 6 7 8 9\n0 entry return 8: 0 1 2 3 4 5 6 7\n0 entry return 5: 0 1 2 3 4\n0 entry return 2: 0 1\n",
    ),
    (
        b";# stack 2300H, 23FFH\n;# routine ORDER\n;# post B <= C and (B = B~ and C = C~ or B = C~ and C = B~)\n;# reads B, C\n;# changes A, B, C, FLAGS\nORDER: MOV A,B\n      CMP C\n      JC OK\n      JZ OK\n      MOV B,C\n      MOV C,A\n      JMP OK\nOK: RET\n;# end\n",
        b"0 entry return 7: 0 1 2 3 4 5 6\n0 entry return 7: 0 1 2 3+\n0 entry return 7: 0 1 2+\n",
    ),
    (
        b";# stack 2300H, 23FFH\n;# routine GRID\n;# post B = 0\n;# changes B, C, D, FLAGS\nGRID: MVI B,5\n      MVI D,0\n;# assert B >= 1 and B <= 5\n;# assert D = 0\nROW: MVI C,7\n;# assert B >= 1 and B <= 5 and C >= 1 and C <= 7\nCOL: DCR C\n      JNZ COL\n      DCR B\n      JNZ ROW\n      RET\n;# end\n",
        b"0 entry assert 2: 0 1\n0 2 assert 3: 2\n0 3 return 7: 3 4 5 6\n0 3 assert 2: 3 4 5 6+\n0 3 assert 3: 3 4+\n",
    ),
    (
        b";# stack 2300H, 23FFH\n;# byte CNT, 2020H\n;# word PTR, 2022H\n;# routine POKE\n;# pre BC = addr(CNT)\n;# post CNT = (CNT~ + D) mod 256\n;# reads BC, D, CNT\n;# changes CNT, A, FLAGS\nPOKE: LDAX B\n      ADD D\n      STAX B\n      RET\n;# end\n",
        b"0 entry access 0:\n0 entry access 2: 0 1\n0 entry return 3: 0 1 2\n",
    ),
    (
        b";# stack 2300H, 23FFH\n;# routine NULL\nNULL: RET\n;# end\n",
        b"0 entry return 0:\n",
    ),
    (
        b";# stack 2300H, 23FFH\n;# routine ECHO\n;# start\n;# changes A\n;# ins 0, 1\n;# outs 0FFH\nECHO: LXI SP,2400H\n;# assert true\nE1: IN 0\n      OUT 255\n      IN 1\n      OUT -1\n      JMP E1\n;# end\n",
        b"0 entry assert 1: 0\n0 1 assert 1: 1 2 3 4 5\n",
    ),
    (
        b";# stack 2300H, 23FFH\n;# routine STKS\n;# post B = C~ and C = B~\n;# reads BC\n;# changes A, BC, DE\n;# depth 4\nSTKS: PUSH B\n      MOV A,B\n      MOV B,C\n      MOV C,A\n      PUSH B\n;# assert STK1 = BC~ and STK2 = BC and B = C~ and C = B~\n      NOP\n      POP B\n      XTHL\n      XTHL\n      MOV A,C\n      POP D\n      RET\n;# end\n",
        b"0 entry assert 5: 0 1 2 3 4\n0 5 return 11: 5 6 7 8 9 10\n",
    ),
    (
        b";# stack 2300H, 23FFH\n;# routine TRAP\n;# pre A <= 3\n;# post A < 3\n;# reads A\n;# changes FLAGS\nTRAP: CPI 3\n      RNZ\n      HLT\n;# end\n",
        b"0 entry return 1: 0\n",
    ),
    (
        b";# stack 2300H, 23FFH\nORG 100H\n;# routine SECOND\n;# post A = 2\n;# changes A, FLAGS\n;# depth 2\nSECOND: CALL FIRST\n      INR A\n      RET\n;# end\nORG 40H\n;# routine FIRST\n;# post A = 1\n;# changes A\nFIRST: MVI A,1\n      RET\n;# end\n",
        b"0 entry return 1: 0\n1 entry return 2: 0 1\n",
    ),
    (
        b";# stack 2300H, 23FFH\n;# bytes BUF, 2000H, 8\n;# routine INCM\n;# pre HL >= addr(BUF) and HL < addr(BUF) + len(BUF)\n;# post mem[HL] = (mem~[HL] + 1) mod 256\n;# reads HL, BUF\n;# changes BUF, FLAGS\nINCM: INR M\n      RET\n;# end\n",
        b"0 entry access 0:\n0 entry return 1: 0\n",
    ),
    (
        b";# stack 2300H, 23FFH\n;# byte CNT, 2020H\n;# word PTR, 2022H\n;# routine DECM\n;# pre HL = addr(CNT)\n;# post CNT = (CNT~ - 1) mod 256\n;# post Z = 1 <-> CNT~ = 1\n;# reads HL, CNT\n;# changes CNT, FLAGS\nDECM: DCR M\n      RET\n;# end\n",
        b"0 entry access 0:\n0 entry return 1: 0\n",
    ),
    (
        b";# stack 2300H, 23FFH\n;# routine FIVE\n;# post A = 5\n;# changes A\n;# assert true\nFIVE: MVI A,5\n;# assert A = 5\n      RET\n;# end\n",
        b"0 entry assert 0:\n0 0 assert 1: 0\n0 1 return 1:\n",
    ),
    (
        b";# stack 2300H, 23FFH\n;# routine BACKJ\n;# post A = 0\n;# reads A\n;# changes A, FLAGS\nBACKJ: JMP TEST\n;# assert A >= 1\nBODY: DCR A\nTEST: ORA A\n      JNZ BODY\n      RET\n;# end\n",
        b"0 entry return 4: 0 2 3\n0 entry assert 1: 0 2 3+\n0 1 return 4: 1 2 3\n0 1 assert 1: 1 2 3+\n",
    ),
    (
        b";# stack 2300H, 23FFH\n;# byte CNT, 2020H\n;# word PTR, 2022H\n;# routine USER\n;# post CNT <= 9\n;# changes CNT, A\n;# depth 2\nUSER: CALL LIM\n      STA 2020H\n      RET\n;# end\n;# routine LIM\n;# post A <= 9\n;# changes A\nLIM: MVI A,9\n      RET\n;# end\n",
        b"0 entry return 2: 0 1\n1 entry return 1: 0\n",
    ),
    (
        b";# stack 2300H, 23FFH\n;# bytes BUF, 2000H, 8\n;# byte CNT, 2020H\n;# word PTR, 2022H\n;# routine OUTER\n;# post BUF[0] = 1 and CNT = 2\n;# changes BUF, CNT, A\n;# depth 2\nOUTER: MVI A,2\n      STA 2020H\n      CALL INNER\n      RET\n;# end\n;# routine INNER\n;# post BUF[0] = 1\n;# changes BUF, A\nINNER: MVI A,1\n      STA 2000H\n      RET\n;# end\n",
        b"0 entry return 3: 0 1 2\n1 entry return 2: 0 1\n",
    ),
    (
        b";# stack 2300H, 23FFH\n;# routine THREE\n;# post A = 3\n;# changes A, B, FLAGS\nTHREE: MVI A,0\n;# assert A = 0\n      NOP\n      INR A\n;# assert A = 1\n      INR A\n;# assert A = 2\n      INR A\n      RET\n;# end\n",
        b"0 entry assert 1: 0\n0 1 assert 3: 1 2\n0 3 assert 4: 3\n0 4 return 5: 4\n",
    ),
    (
        b";# stack 2300H, 23FFH\n;# routine FC\n;# post A <= 1\n;# reads CY, Z\n;# changes A\n;# depth 2\nFC: MVI A,0\n      CC SET1\n      CZ SET1\n      RET\n;# end\n;# routine SET1\n;# pre A <= 1\n;# post A = 1\n;# reads A\n;# changes A\nSET1: MVI A,1\n      RET\n;# end\n",
        b"0 entry return 3: 0 1 2\n0 entry call 2: 0 1\n0 entry return 3: 0 1 2+\n0 entry call 1: 0\n0 entry return 3: 0 1+ 2\n0 entry call 2: 0 1+\n0 entry return 3: 0 1+ 2+\n1 entry return 1: 0\n",
    ),
    (
        b";# stack 2300H, 23FFH\n;# routine SHIFT\n;# pre B >= 1 and B <= 8\n;# post B = 0\n;# reads B, HL\n;# changes B, HL, FLAGS\n;# assert B >= 1 and B <= 8\nSHIFT: DAD H\n      DCR B\n      JNZ SHIFT\n      RET\n;# end\n",
        b"0 entry assert 0:\n0 0 return 3: 0 1 2\n0 0 assert 0: 0 1 2+\n",
    ),
    (
        b";# stack 2300H, 23FFH\n;# routine NEXTJ\n;# reads CY\nNEXTJ: JC L1\nL1: NOP\n      RET\n;# end\n",
        b"0 entry return 2: 0 1\n0 entry return 2: 0+ 1\n",
    ),
    (
        b";# stack 2300H, 23FFH\n;# routine SELF\n;# reads Z\n;# assert true\nSELF: JZ SELF\n      RET\n;# end\n",
        b"0 entry assert 0:\n0 0 return 1: 0\n0 0 assert 0: 0+\n",
    ),
    (
        b";# stack 2300H, 23FFH\n;# routine INTO\n;# reads Z, CY\n;# changes A\nINTO: JZ L2\n      MVI A,1\n;# assert true\nL2: MVI A,2\n      JC L2\n      RET\n;# end\n",
        b"0 entry assert 2: 0 1\n0 entry assert 2: 0+\n0 2 return 4: 2 3\n0 2 assert 2: 2 3+\n",
    ),
    (
        b";# stack 2300H, 23FFH\n;# routine HALTS\n;# reads Z, CY, P\nHALTS: JZ L1\n      JC L1\n      RPE\n      RET\nL1: HLT\n;# end\n",
        b"0 entry return 3: 0 1 2\n0 entry return 2: 0 1\n",
    ),
    (
        b";# stack 2300H, 23FFH\n;# routine CHAIN\n;# reads CY\nCHAIN: JMP L3\nL1: RET\nL2: JC L1\n      JMP L1\nL3: JMP L2\n;# end\n",
        b"0 entry return 1: 0 4 2 3\n0 entry return 1: 0 4 2+\n",
    ),
    (
        b";# stack 2300H, 23FFH\n;# bytes BUF, 2000H, 8\n;# routine ACC\n;# reads HL, BC, DE, BUF\n;# changes A, BUF, FLAGS\nACC: MOV A,M\n      MOV M,A\n      LDAX B\n      STAX D\n      INR M\n      ADD M\n      CMP M\n      MVI M,1\n      LDA 2000H\n      STA 2001H\n      RET\n;# end\n",
        b"0 entry access 0:\n0 entry access 1: 0\n0 entry access 2: 0 1\n0 entry access 3: 0 1 2\n0 entry access 4: 0 1 2 3\n0 entry access 5: 0 1 2 3 4\n0 entry access 6: 0 1 2 3 4 5\n0 entry access 7: 0 1 2 3 4 5 6\n0 entry return 10: 0 1 2 3 4 5 6 7 8 9\n",
    ),
    (
        b";# stack 2300H, 23FFH\n;# routine ALLR\n;# reads FLAGS\nALLR: RNZ\n      RZ\n      RNC\n      RC\n      RPO\n      RPE\n      RP\n      RM\n      RET\n;# end\n",
        b"0 entry return 8: 0 1 2 3 4 5 6 7\n0 entry return 7: 0 1 2 3 4 5 6\n0 entry return 6: 0 1 2 3 4 5\n0 entry return 5: 0 1 2 3 4\n0 entry return 4: 0 1 2 3\n0 entry return 3: 0 1 2\n0 entry return 2: 0 1\n0 entry return 1: 0\n0 entry return 0:\n",
    ),
    (
        b";# stack 2300H, 23FFH\n;# routine ALLJ\n;# reads FLAGS\nALLJ: JNZ L9\n      JZ L9\n      JNC L9\n      JC L9\n      JPO L9\n      JPE L9\n      JP L9\n      JM L9\nL9: RET\n;# end\n",
        b"0 entry return 8: 0 1 2 3 4 5 6 7\n0 entry return 8: 0 1 2 3 4 5 6 7+\n0 entry return 8: 0 1 2 3 4 5 6+\n0 entry return 8: 0 1 2 3 4 5+\n0 entry return 8: 0 1 2 3 4+\n0 entry return 8: 0 1 2 3+\n0 entry return 8: 0 1 2+\n0 entry return 8: 0 1+\n0 entry return 8: 0+\n",
    ),
    (
        b";# stack 2300H, 23FFH\n;# routine ROWS\n;# changes A\n;# assert true\nROWS: NOP\n;# assert true\n;# assert true\n      NOP\n;# assert true\n      MVI A,1\n      RET\n;# end\n",
        b"0 entry assert 0:\n0 0 assert 1: 0\n0 1 assert 2: 1\n0 2 return 3: 2\n",
    ),
    (
        b";# stack 2300H, 23FFH\n;# routine LOOPS\n;# reads FLAGS\n;# assert true\nLOOPS: JZ L1\n;# assert true\nL1: JC LOOPS\n      JM L1\n      JPE L2\n      RET\nL2: JMP LOOPS\n;# end\n",
        b"0 entry assert 0:\n0 0 assert 1: 0\n0 0 assert 1: 0+\n0 1 return 4: 1 2 3\n0 1 assert 0: 1 2 3+ 5\n0 1 assert 1: 1 2+\n0 1 assert 0: 1+\n",
    ),
    (
        b";# stack 2300H, 23FFH\n;# routine BEGIN\n;# start\n;# changes A\n;# reads Z\nBEGIN: LXI SP,2400H\n      MVI A,1\n;# assert true\nTOP: JZ DOWN\n      JMP TOP\nDOWN: HLT\n;# end\n",
        b"0 entry assert 2: 0 1\n0 2 assert 2: 2 3\n",
    ),
    (
        b";# stack 2300H, 23FFH\n;# routine MAINR\n;# reads CY\n;# depth 2\n;# changes A\nMAINR: JC L1\n      RST 1\nL1: RST 2\n      RET\n;# end\nORG 8\n;# routine R1\n;# pre true\n;# changes A\nR1: MVI A,1\n      RET\n;# end\nORG 10H\n;# routine R2\nR2: RET\n;# end\n",
        b"0 entry call 1: 0\n0 entry return 3: 0 1 2\n0 entry return 3: 0+ 2\n1 entry return 1: 0\n2 entry return 0:\n",
    ),
    (
        b";# stack 2300H, 23FFH\n;# routine X1\n;# reads CY\nX1: JC X2\nX2: JC X3\nX3: JC X4\nX4: RET\n;# end\n",
        b"0 entry return 3: 0 1 2\n0 entry return 3: 0 1 2+\n0 entry return 3: 0 1+ 2\n0 entry return 3: 0 1+ 2+\n0 entry return 3: 0+ 1 2\n0 entry return 3: 0+ 1 2+\n0 entry return 3: 0+ 1+ 2\n0 entry return 3: 0+ 1+ 2+\n",
    ),
    (
        b";# stack 2300H, 23FFH\n;# bytes BUF, 2000H, 8\n;# byte CNT, 2020H\n;# routine MAIN\n;# post Z <= 1\n;# post Z <= 1\n;# reads A, BC, DE, HL, FLAGS\n;# reads BUF, CNT\n;# changes A, BC, DE, HL, FLAGS, BUF, CNT\n;# ins 1, 2\n;# outs 3, 4\n;# depth 0\nMAIN: MOV E,B\n      CPI 1\n      RC\n      INR L\n      ORA A\n      JP T1\n      CPI 1\n      RM\n      MVI E,255\nT1: NOP\n      RET\n;# end\n",
        b"0 entry return 10: 0 1 2 3 4 5 6 7 8 9\n0 entry return 7: 0 1 2 3 4 5 6\n0 entry return 10: 0 1 2 3 4 5+ 9\n0 entry return 2: 0 1\n",
    ),
    (
        b";# stack 2300H, 23FFH\n;# bytes BUF, 2000H, 8\n;# byte CNT, 2020H\n;# routine MAIN\n;# pre B <= C\n;# post A = A~ or A <> A~\n;# reads A, BC, DE, HL, FLAGS\n;# reads BUF, CNT\n;# changes A, BC, DE, HL, FLAGS, BUF, CNT\n;# ins 1, 2\n;# outs 3, 4\n;# depth 4\nMAIN: ORA A\n      JC T1\n      OUT 4\nT1: NOP\n      CPI 100\n      RNZ\n      CPI 100\n      RM\n      CPI 9\n      RC\n      RET\n;# end\n",
        b"0 entry return 10: 0 1 2 3 4 5 6 7 8 9\n0 entry return 9: 0 1 2 3 4 5 6 7 8\n0 entry return 7: 0 1 2 3 4 5 6\n0 entry return 5: 0 1 2 3 4\n0 entry return 10: 0 1+ 3 4 5 6 7 8 9\n0 entry return 9: 0 1+ 3 4 5 6 7 8\n0 entry return 7: 0 1+ 3 4 5 6\n0 entry return 5: 0 1+ 3 4\n",
    ),
];

/// The walks of an independent implementation.
#[test]
fn walks_come_in_order(rt: HostRuntime) -> Result<(), Fail> {
    expect_walks(&rt, rt.alloc(), &WALKS)
}
