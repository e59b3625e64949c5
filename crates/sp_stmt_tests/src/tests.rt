use sp_base::{Line, Name, Refused};
use sp_isa::{Instr, encode, valid};
use sp_lex::lines;
use sp_stmt::{Code, Operand, Statement, StatementKind, statements};
use std::alloc::Global;
use std::process::Abort;
use std::test::Fail;

fn push_name(text: &mut String, name: Name) -> Result<(), Fail> {
    for byte in name.as_slice() {
        text.push(char::from(*byte))?;
    }
    Ok(())
}

/// The first byte of an instruction's code, 0 where the table hasn't the instruction.
fn opcode(alloc: Global, instr: Instr) -> u8 {
    if !valid(&instr) {
        return 0;
    }
    match encode(alloc, &instr).as_slice() {
        [first, ..] => *first,
        [] => 0,
    }
}

fn push_code(alloc: Global, text: &mut String, code: Code) -> Result<(), Fail> {
    match code {
        Code::Nothing => text.push_str("nothing")?,
        Code::Instr(instr) => {
            let byte = opcode(alloc, instr);
            text.push_str(format!(in alloc; "{byte:02X}")?.as_str())?;
        }
        Code::Data => text.push_str("data")?,
        Code::Space => text.push_str("space")?,
        Code::Org => text.push_str("org")?,
        Code::Equ(name) => {
            text.push_str("equ ")?;
            push_name(text, name)?;
        }
        Code::Set(name) => {
            text.push_str("set ")?;
            push_name(text, name)?;
        }
        Code::End => text.push_str("end")?,
    }
    Ok(())
}

/// An operand's kind, with how many characters or words it has.
fn push_operand(alloc: Global, text: &mut String, operand: &Operand) -> Result<(), Fail> {
    let (kind, len) = match operand {
        Operand::Text(characters) => ('t', characters.as_slice().len()),
        Operand::Byte(expression) => ('b', expression.as_slice().len()),
        Operand::Word(expression) => ('w', expression.as_slice().len()),
        Operand::Restart(expression) => ('r', expression.as_slice().len()),
    };
    text.push_str(format!(in alloc; " {kind}{len}")?.as_str())?;
    Ok(())
}

fn push_statement(alloc: Global, text: &mut String, statement: &Statement) -> Result<(), Fail> {
    let Line(line) = statement.line;
    text.push_str(format!(in alloc; "{line} ")?.as_str())?;
    if let Some(label) = statement.label {
        push_name(text, label)?;
        text.push_str(": ")?;
    }
    push_code(alloc, text, statement.code)?;
    for operand in statement.operands.as_slice() {
        push_operand(alloc, text, operand)?;
    }
    text.push(';')?;
    Ok(())
}

/// The statements of a source, or its refusal.
fn shown(rt: &impl Abort, alloc: Global, source: &[u8]) -> Result<String, Fail> {
    assert!(rt; source.len() < 10_000);
    let lines = lines(alloc, source)?;
    let mut text = String::new(alloc);
    match statements(alloc, source, &lines) {
        Ok(found) => {
            for statement in found.as_slice() {
                push_statement(alloc, &mut text, statement)?;
            }
        }
        Err(Refused::At(Line(n), StatementKind::Syntax)) => {
            text.push_str(format!(in alloc; "syntax {n}")?.as_str())?
        }
        Err(Refused::At(Line(n), StatementKind::TooDeep)) => {
            text.push_str(format!(in alloc; "deep {n}")?.as_str())?
        }
        Err(Refused::Memory) => text.push_str("memory")?,
    }
    Ok(text)
}

/// Whether each source has its statements.
fn expect(rt: &impl Abort, alloc: Global, table: &[(&[u8], &str)]) -> Result<(), Fail> {
    for (source, want) in table {
        let found = shown(rt, alloc, source)?;
        assert_eq!(rt; found.as_str(), *want, "at {source:?}");
    }
    Ok(())
}

/// Instructions of registers alone, with the bytes of the manual.
static REGISTER_CODES: [(&[u8], &str); 63] = [
    (b"CMC", "1 3F;"),
    (b"STC", "1 37;"),
    (b"INR C", "1 0C;"),
    (b"DCR M", "1 35;"),
    (b"CMA", "1 2F;"),
    (b"DAA", "1 27;"),
    (b"NOP", "1 00;"),
    (b"MOV B,C", "1 41;"),
    (b"MOV M,A", "1 77;"),
    (b"MOV L,M", "1 6E;"),
    (b"STAX B", "1 02;"),
    (b"STAX D", "1 12;"),
    (b"LDAX B", "1 0A;"),
    (b"LDAX D", "1 1A;"),
    (b"ADD B", "1 80;"),
    (b"ADD C", "1 81;"),
    (b"ADD D", "1 82;"),
    (b"ADD E", "1 83;"),
    (b"ADD H", "1 84;"),
    (b"ADD L", "1 85;"),
    (b"ADD M", "1 86;"),
    (b"ADD A", "1 87;"),
    (b"ADC D", "1 8A;"),
    (b"SUB D", "1 92;"),
    (b"SBB D", "1 9A;"),
    (b"ANA D", "1 A2;"),
    (b"XRA D", "1 AA;"),
    (b"ORA D", "1 B2;"),
    (b"CMP D", "1 BA;"),
    (b"RLC", "1 07;"),
    (b"RRC", "1 0F;"),
    (b"RAL", "1 17;"),
    (b"RAR", "1 1F;"),
    (b"PUSH B", "1 C5;"),
    (b"PUSH D", "1 D5;"),
    (b"PUSH H", "1 E5;"),
    (b"PUSH PSW", "1 F5;"),
    (b"POP B", "1 C1;"),
    (b"POP PSW", "1 F1;"),
    (b"DAD B", "1 09;"),
    (b"DAD D", "1 19;"),
    (b"DAD H", "1 29;"),
    (b"DAD SP", "1 39;"),
    (b"INX H", "1 23;"),
    (b"INX SP", "1 33;"),
    (b"DCX D", "1 1B;"),
    (b"DCX SP", "1 3B;"),
    (b"XCHG", "1 EB;"),
    (b"XTHL", "1 E3;"),
    (b"SPHL", "1 F9;"),
    (b"PCHL", "1 E9;"),
    (b"RET", "1 C9;"),
    (b"RC", "1 D8;"),
    (b"RNC", "1 D0;"),
    (b"RZ", "1 C8;"),
    (b"RNZ", "1 C0;"),
    (b"RM", "1 F8;"),
    (b"RP", "1 F0;"),
    (b"RPE", "1 E8;"),
    (b"RPO", "1 E0;"),
    (b"EI", "1 FB;"),
    (b"DI", "1 F3;"),
    (b"HLT", "1 76;"),
];

/// Instructions and directives with an expression.
static EXPRESSION_CODES: [(&[u8], &str); 48] = [
    (b"LXI B,5", "1 01 w1;"),
    (b"LXI D,5", "1 11 w1;"),
    (b"LXI H,5", "1 21 w1;"),
    (b"LXI SP,1+2", "1 31 w3;"),
    (b"MVI B,5", "1 06 b1;"),
    (b"MVI M,5", "1 36 b1;"),
    (b"mvi a,'x'", "1 3E b1;"),
    (b"ADI 1", "1 C6 b1;"),
    (b"ACI 1", "1 CE b1;"),
    (b"SUI 1", "1 D6 b1;"),
    (b"SBI 1", "1 DE b1;"),
    (b"ANI 1", "1 E6 b1;"),
    (b"XRI 1", "1 EE b1;"),
    (b"ORI 1", "1 F6 b1;"),
    (b"CPI 1", "1 FE b1;"),
    (b"STA 1", "1 32 w1;"),
    (b"LDA 1", "1 3A w1;"),
    (b"SHLD 1", "1 22 w1;"),
    (b"LHLD 1", "1 2A w1;"),
    (b"JMP X", "1 C3 w1;"),
    (b"JC X", "1 DA w1;"),
    (b"JNC X", "1 D2 w1;"),
    (b"JZ X", "1 CA w1;"),
    (b"JNZ X", "1 C2 w1;"),
    (b"JM X", "1 FA w1;"),
    (b"JP X", "1 F2 w1;"),
    (b"JPE X", "1 EA w1;"),
    (b"JPO X", "1 E2 w1;"),
    (b"CALL X", "1 CD w1;"),
    (b"CC X", "1 DC w1;"),
    (b"CNC X", "1 D4 w1;"),
    (b"CZ X", "1 CC w1;"),
    (b"CNZ X", "1 C4 w1;"),
    (b"CM X", "1 FC w1;"),
    (b"CP X", "1 F4 w1;"),
    (b"CPE X", "1 EC w1;"),
    (b"CPO X", "1 E4 w1;"),
    (b"RST 7", "1 C7 r1;"),
    (b"IN 1", "1 DB b1;"),
    (b"OUT 1", "1 D3 b1;"),
    (b"DB 1", "1 data b1;"),
    (b"DW 1", "1 data w1;"),
    (b"DS 1", "1 space w1;"),
    (b"ORG 1", "1 org w1;"),
    (b"X EQU 1", "1 equ X w1;"),
    (b"X SET 1", "1 set X w1;"),
    (b"END", "1 end;"),
    (b"END 1", "1 end w1;"),
];

#[test]
fn instructions_have_their_codes(rt: HostRuntime) -> Result<(), Fail> {
    expect(&rt, rt.alloc(), &REGISTER_CODES)?;
    expect(&rt, rt.alloc(), &EXPRESSION_CODES)
}

/// Mnemonics and directives with operands of another form, divided by `|`.
static WRONG_OPERANDS: [(&[u8], &[u8]); 14] = [
    (b"NOP", b"A|1|,"),
    (b"INR", b"|SP|PSW|BC|1|A,B|A B|'A'"),
    (b"DAD", b"|A|C|PSW|BC|1|B,D|B D"),
    (b"STAX", b"|A|H|SP|1"),
    (b"PUSH", b"|A|C|SP|1|B,D"),
    (b"MOV", b"|A|A,|A,1|M,M|A B|A,B,C|SP,A|A:B"),
    (b"MVI", b"|A|A,|SP,1|1,A|A,1,2|A 1"),
    (b"LXI", b"|B|B,|A,1|PSW,1|B,1,2|B 1"),
    (b"JMP", b"|A|1,2|'AB'|1 2|1:"),
    (b"DB", b"|,|1,|,1|1,,2|A|''|1,''"),
    (b"DW", b"|,|1,|,1|1,,2|A|'AB'"),
    (b"ORG", b"|A|1,2|'AB'|1 2"),
    (b"EQU", b"|5|A|X,5"),
    (b"END", b"A|1,2|'AB'|1 2"),
];

/// Whether each of these names refuses each of its operands.
fn expect_syntax(rt: &impl Abort, alloc: Global, table: &[(&[u8], &[u8])]) -> Result<(), Fail> {
    for (name, all) in table {
        for operands in all.split(|byte| *byte == b'|') {
            let mut source = Vec::from_slice(alloc, b"\n ")?;
            source.extend_from_slice(name)?;
            source.push(b' ')?;
            source.extend_from_slice(operands)?;
            let found = shown(rt, alloc, source.as_slice())?;
            assert_eq!(rt; found.as_str(), "syntax 2", "at {name:?} {operands:?}");
        }
    }
    Ok(())
}

#[test]
fn mnemonics_refuse_wrong_operands(rt: HostRuntime) -> Result<(), Fail> {
    expect_syntax(&rt, rt.alloc(), &WRONG_OPERANDS)
}

/// Sources with their statements, or the line of their refusal.
static FORMS: [(&[u8], &str); 66] = [
    (b"", ""),
    (b"; only a comment\n\n;# stack 1, 2\n", ""),
    (b"x:", "1 X: nothing;"),
    (b"x :", "1 X: nothing;"),
    (
        b"x:\n\n;# start\nx?@1: nop ; a\n",
        "1 X: nothing;4 X?@1: 00;",
    ),
    (b"L1: MoV a , M", "1 L1: 7E;"),
    (b"BC: HL: NOP", "syntax 1"),
    (b"BC: PUSH B", "1 BC: C5;"),
    (b"S: DS 5", "1 S: space w1;"),
    (b"X", "syntax 1"),
    (b"X Y", "syntax 1"),
    (b"X NOP", "syntax 1"),
    (b":", "syntax 1"),
    (b": NOP", "syntax 1"),
    (b"1: NOP", "syntax 1"),
    (b"'A': NOP", "syntax 1"),
    (b"L: NOP", "syntax 1"),
    (b"M: NOP", "syntax 1"),
    (b"sp: NOP", "syntax 1"),
    (b"PSW: NOP", "syntax 1"),
    (b"not: NOP", "syntax 1"),
    (b"END:", "syntax 1"),
    (b"END: NOP", "syntax 1"),
    (b"X: END", "syntax 1"),
    (b"X: ORG 5", "syntax 1"),
    (b"X:\n ORG 5\n", "1 X: nothing;2 org w1;"),
    (b"X: DB 5", "1 X: data b1;"),
    (b"X: EQU 5", "syntax 1"),
    (b"X1: X EQU 5", "syntax 1"),
    (b"X: SET 5", "syntax 1"),
    (b"EQU 5", "syntax 1"),
    (b"SET 5", "syntax 1"),
    (b"EQU EQU 5", "syntax 1"),
    (b"MOV SET A", "syntax 1"),
    (b"A EQU 5", "syntax 1"),
    (b"5 EQU 5", "syntax 1"),
    (b"'X' SET 5", "syntax 1"),
    (b"X EQU", "syntax 1"),
    (b"X EQU 5,6", "syntax 1"),
    (b"X equ 5+Y", "1 equ X w3;"),
    (b"x Set $", "1 set X w1;"),
    (b"X EQU 1\nX SET 2", "1 equ X w1;2 set X w1;"),
    (b"DB 'A'", "1 data t1;"),
    (
        b"DB 'AB','it''s',1,'A'+1, 'A' , ('A')",
        "1 data t2 t4 b1 b3 t1 b3;",
    ),
    (b"DB ';,:'", "1 data t3;"),
    (b"DB '''' ; '", "1 data t1;"),
    (b"DB 'A' 'B'", "syntax 1"),
    (b"DB ''", "syntax 1"),
    (b"DW 'A', 1, X+2", "1 data w1 w1 w3;"),
    (b"DW ''", "syntax 1"),
    (b"MVI A, ''", "syntax 1"),
    (b"DS 'A'", "1 space w1;"),
    (b"END X+1\nthis is no statement", "1 end w3;"),
    (b"end\n'", "1 end;"),
    (b"NOP\nX\nL:\n", "syntax 2"),
    (b"NOP\r\nNOP\r\n\r\nNOP", "1 00;2 00;4 00;"),
    (b"JMP $-1", "1 C3 w3;"),
    (b"RST 9", "1 C7 r1;"),
    (b"RST 1,2", "syntax 1"),
    (b"IN A", "syntax 1"),
    (b"LXI H,H", "syntax 1"),
    (b"MOV 7,0", "syntax 1"),
    (b"CALL CALL", "syntax 1"),
    (b"RIM", "syntax 1"),
    (b"NOP:", "syntax 1"),
    (b"NOP NOP", "syntax 1"),
];

#[test]
fn statements_have_their_forms(rt: HostRuntime) -> Result<(), Fail> {
    expect(&rt, rt.alloc(), &FORMS)
}

/// A source with this many parentheses between a front and a back.
fn nested(alloc: Global, front: &[u8], depth: usize, back: &[u8]) -> Result<Vec<u8>, Fail> {
    let mut text = Vec::from_slice(alloc, front)?;
    for _ in 0..depth {
        text.push(b'(')?;
    }
    text.push(b'1')?;
    for _ in 0..depth {
        text.push(b')')?;
    }
    text.extend_from_slice(back)?;
    Ok(text)
}

/// Parentheses nested so deep between a front and a back.
static DEPTHS: [(&[u8], usize, &[u8], &str); 22] = [
    (b"DB ", 64, b"", "1 data b129;"),
    (b"DB ", 65, b"", "deep 1"),
    (b"DB 1,", 65, b",2", "deep 1"),
    (b"DB ", 65, b",A", "syntax 1"),
    (b"DB A,", 65, b"", "syntax 1"),
    (b"DB ", 65, b",''", "syntax 1"),
    (b"DB ", 65, b",", "syntax 1"),
    (b"DB ", 65, b" 2", "syntax 1"),
    (b"DW ", 64, b",1", "1 data w129 w1;"),
    (b"DW ", 65, b",1", "deep 1"),
    (b"DW ", 65, b",1,", "syntax 1"),
    (b"MVI A,", 64, b"", "1 3E b129;"),
    (b"MVI A,", 65, b"", "deep 1"),
    (b"MVI SP,", 65, b"", "syntax 1"),
    (b"LXI SP,", 65, b"", "deep 1"),
    (b"X: ORG ", 65, b"", "syntax 1"),
    (b"ORG ", 65, b"", "deep 1"),
    (b"X EQU ", 65, b"", "deep 1"),
    (b"A EQU ", 65, b"", "syntax 1"),
    (b"END ", 65, b"", "deep 1"),
    (b"NOP\nDB ", 65, b"\nX", "deep 2"),
    (b"X\nDB ", 65, b"", "syntax 1"),
];

#[test]
fn syntax_comes_before_depth_on_a_line(rt: HostRuntime) -> Result<(), Fail> {
    for (front, depth, back, want) in &DEPTHS {
        let source = nested(rt.alloc(), front, *depth, back)?;
        let found = shown(&rt, rt.alloc(), source.as_slice())?;
        assert_eq!(rt; found.as_str(), *want, "at {front:?} {depth} {back:?}");
    }
    Ok(())
}

#[test]
fn long_lines_have_all_their_items(rt: HostRuntime) -> Result<(), Fail> {
    let mut source = Vec::from_slice(rt.alloc(), b"DB 1")?;
    for _ in 0..2000 {
        source.extend_from_slice(b",1")?;
    }
    assert!(rt; source.len() < 10_000);
    let lines = lines(rt.alloc(), source.as_slice())?;
    let found = statements(rt.alloc(), source.as_slice(), &lines)?;
    for statement in found.as_slice() {
        assert_eq!(rt; statement.operands.as_slice().len(), 2001);
    }
    Ok(())
}
