//! The rules on flow.
use crate::helpers::expect_refused;
use sp_base::Loc;
use sp_check::CheckKind;
use sp_flow::{FlowKind, Spot};
use std::alloc::Global;
use std::process::Abort;
use std::test::Fail;

fn expect_all(
    rt: &impl Abort,
    alloc: Global,
    table: &[(&[u8], u32, FlowKind)],
) -> Result<(), Fail> {
    for (source, line, kind) in table {
        expect_refused(rt, alloc, source, *line, CheckKind::Flow(*kind))?;
    }
    Ok(())
}

static FLOW_ONE: [(&[u8], u32, FlowKind); 64] = [
    (
        b";# stack 2300H, 23FFH\n;# routine R\nR: MOV B,A\n      RET\n;# end\n",
        3,
        FlowKind::Uses(Spot::Loc(Loc::A)),
    ),
    (
        b";# stack 2300H, 23FFH\n;# routine R\n;# reads C\nR: MOV A,B\n      ADD C\n      RET\n;# end\n",
        4,
        FlowKind::Uses(Spot::Loc(Loc::B)),
    ),
    (
        b";# stack 2300H, 23FFH\n;# routine R\nR: MOV A,B\n      ADD C\n      RET\n;# end\n",
        3,
        FlowKind::Uses(Spot::Loc(Loc::B)),
    ),
    (
        b";# stack 2300H, 23FFH\n;# routine R\nR: MOV A,M\n      RET\n;# end\n",
        3,
        FlowKind::Uses(Spot::Loc(Loc::H)),
    ),
    (
        b";# stack 2300H, 23FFH\n;# routine R\n;# reads H\nR: MOV A,M\n      RET\n;# end\n",
        4,
        FlowKind::Uses(Spot::Loc(Loc::L)),
    ),
    (
        b";# stack 2300H, 23FFH\n;# routine R\nR: MOV M,B\n      RET\n;# end\n",
        3,
        FlowKind::Uses(Spot::Loc(Loc::B)),
    ),
    (
        b";# stack 2300H, 23FFH\n;# routine R\n;# reads B\nR: MOV M,B\n      RET\n;# end\n",
        4,
        FlowKind::Uses(Spot::Loc(Loc::H)),
    ),
    (
        b";# stack 2300H, 23FFH\n;# routine R\nR: INR M\n      RET\n;# end\n",
        3,
        FlowKind::Uses(Spot::Loc(Loc::H)),
    ),
    (
        b";# stack 2300H, 23FFH\n;# routine R\nR: JZ L1\nL1: RET\n;# end\n",
        3,
        FlowKind::Uses(Spot::Loc(Loc::Z)),
    ),
    (
        b";# stack 2300H, 23FFH\n;# routine R\nR: RC\n      RET\n;# end\n",
        3,
        FlowKind::Uses(Spot::Loc(Loc::Cy)),
    ),
    (
        b";# stack 2300H, 23FFH\n;# routine R\nR: RM\n      RET\n;# end\n",
        3,
        FlowKind::Uses(Spot::Loc(Loc::S)),
    ),
    (
        b";# stack 2300H, 23FFH\n;# routine R\nR: RPO\n      RET\n;# end\n",
        3,
        FlowKind::Uses(Spot::Loc(Loc::P)),
    ),
    (
        b";# stack 2300H, 23FFH\n;# routine R\n;# reads A, CY\nR: DAA\n      RET\n;# end\n",
        4,
        FlowKind::Uses(Spot::Loc(Loc::Ac)),
    ),
    (
        b";# stack 2300H, 23FFH\n;# routine R\nR: DAA\n      RET\n;# end\n",
        3,
        FlowKind::Uses(Spot::Loc(Loc::A)),
    ),
    (
        b";# stack 2300H, 23FFH\n;# routine R\n;# reads A\nR: RAL\n      RET\n;# end\n",
        4,
        FlowKind::Uses(Spot::Loc(Loc::Cy)),
    ),
    (
        b";# stack 2300H, 23FFH\n;# routine R\n;# reads A\nR: ADC A\n      RET\n;# end\n",
        4,
        FlowKind::Uses(Spot::Loc(Loc::Cy)),
    ),
    (
        b";# stack 2300H, 23FFH\n;# routine R\nR: ORA A\n      RET\n;# end\n",
        3,
        FlowKind::Uses(Spot::Loc(Loc::A)),
    ),
    (
        b";# stack 2300H, 23FFH\n;# routine R\nR: ANA A\n      RET\n;# end\n",
        3,
        FlowKind::Uses(Spot::Loc(Loc::A)),
    ),
    (
        b";# stack 2300H, 23FFH\n;# routine R\nR: ADD A\n      RET\n;# end\n",
        3,
        FlowKind::Uses(Spot::Loc(Loc::A)),
    ),
    (
        b";# stack 2300H, 23FFH\n;# routine R\nR: SBB A\n      RET\n;# end\n",
        3,
        FlowKind::Uses(Spot::Loc(Loc::Cy)),
    ),
    (
        b";# stack 2300H, 23FFH\n;# routine R\nR: CMC\n      RET\n;# end\n",
        3,
        FlowKind::Uses(Spot::Loc(Loc::Cy)),
    ),
    (
        b";# stack 2300H, 23FFH\n;# routine R\n;# depth 2\nR: PUSH B\n      POP B\n      MOV A,D\n      RET\n;# end\n",
        6,
        FlowKind::Uses(Spot::Loc(Loc::D)),
    ),
    (
        b";# stack 2300H, 23FFH\n;# routine R\nR: XCHG\n      RET\n;# end\n",
        3,
        FlowKind::Uses(Spot::Loc(Loc::D)),
    ),
    (
        b";# stack 2300H, 23FFH\n;# routine R\n;# reads D, HL\nR: XCHG\n      RET\n;# end\n",
        4,
        FlowKind::Uses(Spot::Loc(Loc::E)),
    ),
    (
        b";# stack 2300H, 23FFH\n;# routine R\n;# reads HL\nR: DAD B\n      RET\n;# end\n",
        4,
        FlowKind::Uses(Spot::Loc(Loc::B)),
    ),
    (
        b";# stack 2300H, 23FFH\n;# routine R\n;# reads BC\nR: DAD B\n      RET\n;# end\n",
        4,
        FlowKind::Uses(Spot::Loc(Loc::H)),
    ),
    (
        b";# stack 2300H, 23FFH\n;# routine R\nR: INX D\n      RET\n;# end\n",
        3,
        FlowKind::Uses(Spot::Loc(Loc::D)),
    ),
    (
        b";# stack 2300H, 23FFH\n;# routine R\n;# reads D\nR: DCX D\n      RET\n;# end\n",
        4,
        FlowKind::Uses(Spot::Loc(Loc::E)),
    ),
    (
        b";# stack 2300H, 23FFH\n;# routine R\n;# reads BC\nR: STAX B\n      RET\n;# end\n",
        4,
        FlowKind::Uses(Spot::Loc(Loc::A)),
    ),
    (
        b";# stack 2300H, 23FFH\n;# routine R\n;# reads B\nR: LDAX B\n      RET\n;# end\n",
        4,
        FlowKind::Uses(Spot::Loc(Loc::C)),
    ),
    (
        b";# stack 2300H, 23FFH\n;# bytes P1, 2000H, 4\n;# bytes P2, 2004H, 4\n;# byte B1, 2010H\n;# word W1, 2012H\n;# routine R\nR: SHLD 2012H\n      RET\n;# end\n",
        7,
        FlowKind::Uses(Spot::Loc(Loc::H)),
    ),
    (
        b";# stack 2300H, 23FFH\n;# bytes P1, 2000H, 4\n;# bytes P2, 2004H, 4\n;# byte B1, 2010H\n;# word W1, 2012H\n;# routine R\n;# changes B1\nR: STA 2010H\n      RET\n;# end\n",
        8,
        FlowKind::Uses(Spot::Loc(Loc::A)),
    ),
    (
        b";# stack 2300H, 23FFH\n;# routine R\n;# outs 1\nR: OUT 1\n      RET\n;# end\n",
        4,
        FlowKind::Uses(Spot::Loc(Loc::A)),
    ),
    (
        b";# stack 2300H, 23FFH\n;# routine R\n;# reads Z\nR: JZ L1\n      MVI B,1\nL1: MOV A,B\n      RET\n;# end\n",
        6,
        FlowKind::Uses(Spot::Loc(Loc::B)),
    ),
    (
        b";# stack 2300H, 23FFH\n;# routine L0\n;# assert true\nL0: MOV A,B\n      MVI B,1\n      JMP L0\n;# end\n",
        4,
        FlowKind::Uses(Spot::Loc(Loc::B)),
    ),
    (
        b";# stack 2300H, 23FFH\n;# routine R\n;# reads Z, CY\nR: JMP L3\nL1: MOV A,C\n      RET\nL3: JZ L1\n      MVI C,1\n      JMP L1\n;# end\n",
        5,
        FlowKind::Uses(Spot::Loc(Loc::C)),
    ),
    (
        b";# stack 2300H, 23FFH\n;# routine R\n;# reads Z\nR: MVI A,5\n      CPI 3\n      RZ\n      MOV A,B\n      RET\n;# end\n",
        7,
        FlowKind::Uses(Spot::Loc(Loc::B)),
    ),
    (
        b";# stack 2300H, 23FFH\n;# routine R\n;# reads A\nR: RLC\n      JZ L1\nL1: RET\n;# end\n",
        5,
        FlowKind::Uses(Spot::Loc(Loc::Z)),
    ),
    (
        b";# stack 2300H, 23FFH\n;# routine R\n;# reads HL\n;# changes HL\nR: DAD H\n      RPE\n      RET\n;# end\n",
        6,
        FlowKind::Uses(Spot::Loc(Loc::P)),
    ),
    (
        b";# stack 2300H, 23FFH\n;# routine R\n;# reads BC\n;# changes BC\nR: INX B\n      RZ\n      RET\n;# end\n",
        6,
        FlowKind::Uses(Spot::Loc(Loc::Z)),
    ),
    (
        b";# stack 2300H, 23FFH\n;# routine R\n;# reads B\nR: INR B\n      RC\n      RET\n;# end\n",
        5,
        FlowKind::Uses(Spot::Loc(Loc::Cy)),
    ),
    (
        b";# stack 2300H, 23FFH\n;# routine R\nR: CMA\n      RET\n;# end\n",
        3,
        FlowKind::Uses(Spot::Loc(Loc::A)),
    ),
    (
        b";# stack 2300H, 23FFH\n;# routine R\n;# depth 2\nR: CALL Q\n      MOV B,A\n      RET\n;# end\n;# routine Q\nQ: RET\n;# end\n",
        5,
        FlowKind::Uses(Spot::Loc(Loc::A)),
    ),
    (
        b";# stack 2300H, 23FFH\n;# routine R\n;# depth 2\n;# reads Z\nR: CZ Q\n      MOV B,A\n      RET\n;# end\n;# routine Q\n;# changes A\nQ: MVI A,1\n      RET\n;# end\n",
        6,
        FlowKind::Uses(Spot::Loc(Loc::A)),
    ),
    (
        b";# stack 2300H, 23FFH\n;# routine R\n;# depth 2\nR: CZ Q\n      RET\n;# end\n;# routine Q\nQ: RET\n;# end\n",
        4,
        FlowKind::Uses(Spot::Loc(Loc::Z)),
    ),
    (
        b";# stack 2300H, 23FFH\n;# routine R\n;# depth 2\n;# reads Z\nR: CZ Q\n      CNZ Q\n      MOV B,A\n      RET\n;# end\n;# routine Q\n;# changes A\nQ: MVI A,1\n      RET\n;# end\n",
        7,
        FlowKind::Uses(Spot::Loc(Loc::A)),
    ),
    (
        b";# stack 2300H, 23FFH\n;# routine R\n;# depth 2\nR: RST 2\n      MOV A,B\n      RET\n;# end\nORG 16\n;# routine Q\n;# changes A\nQ: MVI A,1\n      RET\n;# end\n",
        5,
        FlowKind::Uses(Spot::Loc(Loc::B)),
    ),
    (
        b";# stack 2300H, 23FFH\n;# routine R\n;# depth 2\n;# reads A\nR: CALL Q\n      DAA\n      RET\n;# end\n;# routine Q\n;# changes CY\nQ: STC\n      RET\n;# end\n",
        6,
        FlowKind::Uses(Spot::Loc(Loc::Ac)),
    ),
    (
        b";# stack 2300H, 23FFH\n;# bytes P1, 2000H, 4\n;# bytes P2, 2004H, 4\n;# byte B1, 2010H\n;# word W1, 2012H\n;# routine R\nR: LDA 2000H\n      RET\n;# end\n",
        7,
        FlowKind::Uses(Spot::Cell(0x2000)),
    ),
    (
        b";# stack 2300H, 23FFH\n;# bytes P1, 2000H, 4\n;# bytes P2, 2004H, 4\n;# byte B1, 2010H\n;# word W1, 2012H\n;# routine R\n;# reads P1\nR: LDA 2004H\n      RET\n;# end\n",
        8,
        FlowKind::Uses(Spot::Cell(0x2004)),
    ),
    (
        b";# stack 2300H, 23FFH\n;# bytes P1, 2000H, 4\n;# bytes P2, 2004H, 4\n;# byte B1, 2010H\n;# word W1, 2012H\n;# routine R\n;# reads P1\nR: LHLD 2003H\n      RET\n;# end\n",
        8,
        FlowKind::Uses(Spot::Cell(0x2004)),
    ),
    (
        b";# stack 2300H, 23FFH\n;# bytes P1, 2000H, 4\n;# bytes P2, 2004H, 4\n;# byte B1, 2010H\n;# word W1, 2012H\n;# routine R\n;# reads P1\nR: LHLD 1FFFH\n      RET\n;# end\n",
        8,
        FlowKind::Uses(Spot::Cell(0x1FFF)),
    ),
    (
        b";# stack 2300H, 23FFH\n;# byte P9, 0FFFFH\n;# routine R\n;# reads P9\nR: LHLD 0FFFFH\n      RET\n;# end\n",
        5,
        FlowKind::Uses(Spot::Cell(0x0000)),
    ),
    (
        b";# stack 2300H, 23FFH\n;# routine R\nR: LHLD 0FFFFH\n      RET\n;# end\n",
        3,
        FlowKind::Uses(Spot::Cell(0x0000)),
    ),
    (
        b";# stack 2300H, 23FFH\n;# routine R\nR: LDA 2300H\n      RET\n;# end\n",
        3,
        FlowKind::Uses(Spot::Cell(0x2300)),
    ),
    (
        b";# stack 2300H, 23FFH\n;# routine R\nR: LDA R\n      RET\n;# end\n",
        3,
        FlowKind::Uses(Spot::Cell(0x0000)),
    ),
    (
        b";# stack 2300H, 23FFH\n;# bytes P1, 2000H, 4\n;# bytes P2, 2004H, 4\n;# byte B1, 2010H\n;# word W1, 2012H\n;# routine R\nR: SHLD 2000H\n      RET\n;# end\n",
        7,
        FlowKind::Uses(Spot::Loc(Loc::H)),
    ),
    (
        b";# stack 2300H, 23FFH\n;# bytes P1, 2000H, 4\n;# bytes P2, 2004H, 4\n;# byte B1, 2010H\n;# word W1, 2012H\n;# routine R\n;# reads A\nR: STA 2000H\n      RET\n;# end\n",
        8,
        FlowKind::Writes(0x2000),
    ),
    (
        b";# stack 2300H, 23FFH\n;# bytes P1, 2000H, 4\n;# bytes P2, 2004H, 4\n;# byte B1, 2010H\n;# word W1, 2012H\n;# routine R\n;# reads A, P1\nR: STA 2000H\n      RET\n;# end\n",
        8,
        FlowKind::Writes(0x2000),
    ),
    (
        b";# stack 2300H, 23FFH\n;# bytes P1, 2000H, 4\n;# bytes P2, 2004H, 4\n;# byte B1, 2010H\n;# word W1, 2012H\n;# routine R\n;# reads HL\n;# changes P1\nR: SHLD 2003H\n      RET\n;# end\n",
        9,
        FlowKind::Writes(0x2004),
    ),
    (
        b";# stack 2300H, 23FFH\n;# bytes P1, 2000H, 4\n;# bytes P2, 2004H, 4\n;# byte B1, 2010H\n;# word W1, 2012H\n;# routine R\n;# reads HL\n;# changes P1\nR: SHLD 1FFFH\n      RET\n;# end\n",
        9,
        FlowKind::Writes(0x1FFF),
    ),
    (
        b";# stack 2300H, 23FFH\n;# bytes P1, 2000H, 4\n;# bytes P2, 2004H, 4\n;# byte B1, 2010H\n;# word W1, 2012H\n;# routine R\n;# depth 2\nR: CALL Q\n      RET\n;# end\n;# routine Q\n;# changes P1\nQ: RET\n;# end\n",
        8,
        FlowKind::Writes(0x2000),
    ),
    (
        b";# stack 2300H, 23FFH\n;# bytes P1, 2000H, 4\n;# bytes P2, 2004H, 4\n;# byte B1, 2010H\n;# word W1, 2012H\n;# routine R\n;# depth 2\n;# changes P1\nR: CALL Q\n      RET\n;# end\n;# routine Q\n;# changes P1, B1\nQ: RET\n;# end\n",
        9,
        FlowKind::Writes(0x2010),
    ),
    (
        b";# stack 2300H, 23FFH\n;# bytes P1, 2000H, 4\n;# bytes P2, 2004H, 4\n;# byte B1, 2010H\n;# word W1, 2012H\n;# bytes X2, 2000H, 2\n;# routine R\n;# depth 2\n;# changes X2\nR: CALL Q\n      RET\n;# end\n;# routine Q\n;# changes P1\nQ: RET\n;# end\n",
        10,
        FlowKind::Writes(0x2002),
    ),
];

static FLOW_TWO: [(&[u8], u32, FlowKind); 34] = [
    (
        b";# stack 2300H, 23FFH\n;# bytes P1, 2000H, 4\n;# bytes P2, 2004H, 4\n;# byte B1, 2010H\n;# word W1, 2012H\n;# routine R\n;# depth 2\n;# reads Z\nR: CZ Q\n      RET\n;# end\n;# routine Q\n;# changes P1\nQ: RET\n;# end\n",
        9,
        FlowKind::Writes(0x2000),
    ),
    (
        b";# stack 2300H, 23FFH\n;# routine R\n;# reads A\nR: STA 2300H\n      RET\n;# end\n",
        4,
        FlowKind::Writes(0x2300),
    ),
    (
        b";# stack 2300H, 23FFH\n;# bytes P1, 2000H, 4\n;# bytes P2, 2004H, 4\n;# byte B1, 2010H\n;# word W1, 2012H\n;# routine R\n;# depth 2\n;# reads HL\nR: CALL Q\n      RET\n;# end\n;# routine Q\n;# reads HL\n;# changes W1\nQ: SHLD 2012H\n      RET\n;# end\n",
        9,
        FlowKind::Writes(0x2012),
    ),
    (
        b";# stack 2300H, 23FFH\n;# byte X2, 2012H\n;# routine R\n;# reads HL\n;# changes X2\nR: SHLD 2012H\n      RET\n;# end\n",
        6,
        FlowKind::Writes(0x2013),
    ),
    (
        b";# stack 2300H, 23FFH\n;# routine R\nR: IN 5\n      RET\n;# end\n",
        3,
        FlowKind::Port(0x05),
    ),
    (
        b";# stack 2300H, 23FFH\n;# routine R\n;# ins 4\n;# outs 5\nR: IN 5\n      RET\n;# end\n",
        5,
        FlowKind::Port(0x05),
    ),
    (
        b";# stack 2300H, 23FFH\n;# routine R\n;# reads A\nR: OUT 255\n      RET\n;# end\n",
        4,
        FlowKind::Port(0xFF),
    ),
    (
        b";# stack 2300H, 23FFH\n;# routine R\n;# reads A\n;# ins 5\nR: OUT 5\n      RET\n;# end\n",
        5,
        FlowKind::Port(0x05),
    ),
    (
        b";# stack 2300H, 23FFH\n;# routine R\n;# depth 2\nR: CALL Q\n      RET\n;# end\n;# routine Q\n;# ins 9, 7\nQ: RET\n;# end\n",
        4,
        FlowKind::Port(0x07),
    ),
    (
        b";# stack 2300H, 23FFH\n;# routine R\n;# depth 2\n;# ins 7\nR: CALL Q\n      RET\n;# end\n;# routine Q\n;# ins 9, 7\n;# outs 3\nQ: RET\n;# end\n",
        5,
        FlowKind::Port(0x03),
    ),
    (
        b";# stack 2300H, 23FFH\n;# routine R\n;# depth 2\n;# ins 7\nR: CALL Q\n      RET\n;# end\n;# routine Q\n;# ins 9, 7\n;# outs 8\nQ: RET\n;# end\n",
        5,
        FlowKind::Port(0x08),
    ),
    (
        b";# stack 2300H, 23FFH\n;# routine R\n;# depth 2\n;# ins 7\n;# outs 9\nR: CALL Q\n      RET\n;# end\n;# routine Q\n;# ins 9\nQ: RET\n;# end\n",
        6,
        FlowKind::Port(0x09),
    ),
    (
        b";# stack 2300H, 23FFH\n;# routine R\n;# depth 2\n;# reads Z\nR: CZ Q\n      RET\n;# end\n;# routine Q\n;# outs 10\nQ: RET\n;# end\n",
        5,
        FlowKind::Port(0x0A),
    ),
    (
        b";# stack 2300H, 23FFH\n;# routine R\n;# depth 2\nR: CALL Q\n      RET\n;# end\n;# routine Q\n;# reads A\nQ: RET\n;# end\n",
        4,
        FlowKind::CallsReads(Spot::Loc(Loc::A)),
    ),
    (
        b";# stack 2300H, 23FFH\n;# routine R\n;# depth 2\nR: MVI C,1\n      CALL Q\n      RET\n;# end\n;# routine Q\n;# reads BC\nQ: RET\n;# end\n",
        5,
        FlowKind::CallsReads(Spot::Loc(Loc::B)),
    ),
    (
        b";# stack 2300H, 23FFH\n;# routine R\n;# depth 2\nR: CALL Q\n      RET\n;# end\n;# routine Q\n;# reads L, E\nQ: RET\n;# end\n",
        4,
        FlowKind::CallsReads(Spot::Loc(Loc::E)),
    ),
    (
        b";# stack 2300H, 23FFH\n;# bytes P1, 2000H, 4\n;# bytes P2, 2004H, 4\n;# byte B1, 2010H\n;# word W1, 2012H\n;# routine R\n;# depth 2\nR: CALL Q\n      RET\n;# end\n;# routine Q\n;# reads P1\nQ: RET\n;# end\n",
        8,
        FlowKind::CallsReads(Spot::Cell(0x2000)),
    ),
    (
        b";# stack 2300H, 23FFH\n;# bytes P1, 2000H, 4\n;# bytes P2, 2004H, 4\n;# byte B1, 2010H\n;# word W1, 2012H\n;# routine R\n;# depth 2\nR: CALL Q\n      RET\n;# end\n;# routine Q\n;# reads P1, L\nQ: RET\n;# end\n",
        8,
        FlowKind::CallsReads(Spot::Loc(Loc::L)),
    ),
    (
        b";# stack 2300H, 23FFH\n;# bytes P1, 2000H, 4\n;# bytes P2, 2004H, 4\n;# byte B1, 2010H\n;# word W1, 2012H\n;# routine R\n;# depth 2\n;# reads P1\nR: CALL Q\n      RET\n;# end\n;# routine Q\n;# reads P1, P2\nQ: RET\n;# end\n",
        9,
        FlowKind::CallsReads(Spot::Cell(0x2004)),
    ),
    (
        b";# stack 2300H, 23FFH\n;# routine R\n;# depth 2\n;# reads Z\nR: CZ P0\n      CALL Q\n      RET\n;# end\n;# routine P0\n;# changes A\nP0: MVI A,1\n      RET\n;# end\n;# routine Q\n;# reads A\nQ: RET\n;# end\n",
        6,
        FlowKind::CallsReads(Spot::Loc(Loc::A)),
    ),
    (
        b";# stack 2300H, 23FFH\n;# routine R\n;# depth 2\nR: CALL Q\n      RET\n;# end\n;# routine Q\n;# reads CY\nQ: RET\n;# end\n",
        4,
        FlowKind::CallsReads(Spot::Loc(Loc::Cy)),
    ),
    (
        b";# stack 2300H, 23FFH\n;# routine R\n;# depth 2\nR: RST 1\n      RET\n;# end\nORG 8\n;# routine Q\n;# reads FLAGS\nQ: RET\n;# end\n",
        4,
        FlowKind::CallsReads(Spot::Loc(Loc::S)),
    ),
    (
        b";# stack 2300H, 23FFH\n;# routine R\n;# depth 2\nR: CALL Q\n      NOP\n      MOV B,A\n      RET\n;# end\n;# routine Q\nQ: RET\n;# end\n",
        6,
        FlowKind::Uses(Spot::Loc(Loc::A)),
    ),
    (
        b";# stack 2300H, 23FFH\n;# routine R\nR: IN 5\n      STA 2000H\n      MOV A,B\n      RET\n;# end\n",
        5,
        FlowKind::Uses(Spot::Loc(Loc::B)),
    ),
    (
        b";# stack 2300H, 23FFH\n;# routine R\nR: IN 5\n      STA 2000H\n      RET\n;# end\n",
        4,
        FlowKind::Writes(0x2000),
    ),
    (
        b";# stack 2300H, 23FFH\n;# routine R\n;# depth 2\nR: CALL Q\n      IN 5\n      RET\n;# end\n;# routine Q\n;# reads A\nQ: RET\n;# end\n",
        5,
        FlowKind::Port(0x05),
    ),
    (
        b";# stack 2300H, 23FFH\n;# routine R\nR: STA 2000H\n      RET\n;# end\n",
        3,
        FlowKind::Uses(Spot::Loc(Loc::A)),
    ),
    (
        b";# stack 2300H, 23FFH\n;# routine R\nR: SHLD 2000H\n      RET\n;# end\n",
        3,
        FlowKind::Uses(Spot::Loc(Loc::H)),
    ),
    (
        b";# stack 2300H, 23FFH\n;# routine R\n;# reads H\nR: SHLD 2000H\n      RET\n;# end\n",
        4,
        FlowKind::Uses(Spot::Loc(Loc::L)),
    ),
    (
        b";# stack 2300H, 23FFH\n;# bytes P1, 2000H, 4\n;# bytes P2, 2004H, 4\n;# byte B1, 2010H\n;# word W1, 2012H\n;# routine R\n;# depth 2\nR: CALL Q\n      RET\n;# end\n;# routine Q\n;# reads A\n;# changes P1\n;# ins 5\nQ: RET\n;# end\n",
        8,
        FlowKind::Writes(0x2000),
    ),
    (
        b";# stack 2300H, 23FFH\n;# bytes P1, 2000H, 4\n;# bytes P2, 2004H, 4\n;# byte B1, 2010H\n;# word W1, 2012H\n;# routine R\n;# depth 2\nR: CALL Q\n      RET\n;# end\n;# routine Q\n;# reads A\n;# ins 5\nQ: RET\n;# end\n",
        8,
        FlowKind::Port(0x05),
    ),
    (
        b";# stack 2300H, 23FFH\n;# bytes P1, 2000H, 4\n;# bytes P2, 2004H, 4\n;# byte B1, 2010H\n;# word W1, 2012H\n;# routine R\n;# depth 2\nR: CZ Q\n      RET\n;# end\n;# routine Q\n;# reads A\n;# changes P1\n;# ins 5\nQ: RET\n;# end\n",
        8,
        FlowKind::Uses(Spot::Loc(Loc::Z)),
    ),
    (
        b";# stack 2300H, 23FFH\n;# routine R\nR: RET\n;# end\n;# routine S1\nS1: MOV A,B\n      RET\n;# end\n",
        6,
        FlowKind::Uses(Spot::Loc(Loc::B)),
    ),
    (
        b";# stack 2300H, 23FFH\n;# routine R\nR: MOV A,B\n      RET\n;# end\n;# routine S1\nS1: MOV A,C\n      RET\n;# end\n",
        3,
        FlowKind::Uses(Spot::Loc(Loc::B)),
    ),
];

#[test]
fn flow_one(rt: HostRuntime) -> Result<(), Fail> {
    expect_all(&rt, rt.alloc(), &FLOW_ONE)
}

#[test]
fn flow_two(rt: HostRuntime) -> Result<(), Fail> {
    expect_all(&rt, rt.alloc(), &FLOW_TWO)
}
