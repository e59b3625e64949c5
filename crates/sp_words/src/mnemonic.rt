ghost use Rattle.std.specs.Prelude.{◌≡◌, ◌↔◌, Some};
ghost use Rattle.sp_words.specs.code.Tables.{mnemonic_named};
ghost use Rattle.sp_words.specs.Manual.{IsCalled};

use crate::table::look_up;
use sp_isa::{Cond, Instr, Op};

/// An instruction with one register or M.
#[derive(Clone, Copy, Debug, PartialEq, Eq)]
pub enum RegisterForm {
    Inr,
    Dcr,
    /// ADD, ADC, SUB, SBB, ANA, XRA, ORA and CMP.
    Alu(Op),
}

/// An instruction with one register pair. STAX and LDAX have B and D alone, the others B, D, H and SP.
#[derive(Clone, Copy, Debug, PartialEq, Eq)]
pub enum PairForm {
    Dad,
    Inx,
    Dcx,
    Stax,
    Ldax,
}

/// An instruction with one of B, D, H and PSW.
#[derive(Clone, Copy, Debug, PartialEq, Eq)]
pub enum StackForm {
    Push,
    Pop,
}

/// An instruction that loads what its second operand, an expression, says.
#[derive(Clone, Copy, Debug, PartialEq, Eq)]
pub enum Load {
    /// MVI: a register or M, and a byte.
    Byte,
    /// LXI: a register pair, and a word.
    Word,
}

/// What the value of an expression is used as.
#[derive(Clone, Copy, Debug, PartialEq, Eq)]
pub enum ExpressionKind {
    /// A byte: an immediate one, a port or an item of DB.
    Byte,
    /// A word: an immediate one, an address or an item of DW.
    Word,
    /// The number of RST.
    Restart,
}

/// A directive that gives data, its items divided by commas.
#[derive(Clone, Copy, Debug, PartialEq, Eq)]
pub enum DataKind {
    /// DB: texts and bytes.
    Bytes,
    /// DW: words.
    Words,
}

/// A directive after a name without colon.
#[derive(Clone, Copy, Debug, PartialEq, Eq)]
pub enum Assignment {
    Equ,
    Set,
}

/// A mnemonic or directive, by the form of its operands.
#[derive(Clone, Copy, Debug)]
pub enum Mnemonic {
    /// No operand.
    Alone(Instr),
    Register(RegisterForm),
    Pair(PairForm),
    Stack(StackForm),
    /// MOV: two registers, or a register and M.
    Move,
    Load(Load),
    /// One expression.
    Expression(ExpressionKind, Instr),
    Data(DataKind),
    /// DS: one expression.
    Space,
    /// ORG: one expression.
    Org,
    Assignment(Assignment),
    /// END: nothing, or one expression.
    End,
}

/// The mnemonics and directives, sorted.
pub const MNEMONICS: [(&[u8], Mnemonic); 85] = [
    (
        b"ACI",
        Mnemonic::Expression(ExpressionKind::Byte, Instr::AluImmediate(Op::Adc, 0)),
    ),
    (b"ADC", Mnemonic::Register(RegisterForm::Alu(Op::Adc))),
    (b"ADD", Mnemonic::Register(RegisterForm::Alu(Op::Add))),
    (
        b"ADI",
        Mnemonic::Expression(ExpressionKind::Byte, Instr::AluImmediate(Op::Add, 0)),
    ),
    (b"ANA", Mnemonic::Register(RegisterForm::Alu(Op::Ana))),
    (
        b"ANI",
        Mnemonic::Expression(ExpressionKind::Byte, Instr::AluImmediate(Op::Ana, 0)),
    ),
    (
        b"CALL",
        Mnemonic::Expression(ExpressionKind::Word, Instr::Call(0)),
    ),
    (
        b"CC",
        Mnemonic::Expression(ExpressionKind::Word, Instr::Ccc(Cond::C, 0)),
    ),
    (
        b"CM",
        Mnemonic::Expression(ExpressionKind::Word, Instr::Ccc(Cond::M, 0)),
    ),
    (b"CMA", Mnemonic::Alone(Instr::Cma)),
    (b"CMC", Mnemonic::Alone(Instr::Cmc)),
    (b"CMP", Mnemonic::Register(RegisterForm::Alu(Op::Cmp))),
    (
        b"CNC",
        Mnemonic::Expression(ExpressionKind::Word, Instr::Ccc(Cond::Nc, 0)),
    ),
    (
        b"CNZ",
        Mnemonic::Expression(ExpressionKind::Word, Instr::Ccc(Cond::Nz, 0)),
    ),
    (
        b"CP",
        Mnemonic::Expression(ExpressionKind::Word, Instr::Ccc(Cond::P, 0)),
    ),
    (
        b"CPE",
        Mnemonic::Expression(ExpressionKind::Word, Instr::Ccc(Cond::Pe, 0)),
    ),
    (
        b"CPI",
        Mnemonic::Expression(ExpressionKind::Byte, Instr::AluImmediate(Op::Cmp, 0)),
    ),
    (
        b"CPO",
        Mnemonic::Expression(ExpressionKind::Word, Instr::Ccc(Cond::Po, 0)),
    ),
    (
        b"CZ",
        Mnemonic::Expression(ExpressionKind::Word, Instr::Ccc(Cond::Z, 0)),
    ),
    (b"DAA", Mnemonic::Alone(Instr::Daa)),
    (b"DAD", Mnemonic::Pair(PairForm::Dad)),
    (b"DB", Mnemonic::Data(DataKind::Bytes)),
    (b"DCR", Mnemonic::Register(RegisterForm::Dcr)),
    (b"DCX", Mnemonic::Pair(PairForm::Dcx)),
    (b"DI", Mnemonic::Alone(Instr::Di)),
    (b"DS", Mnemonic::Space),
    (b"DW", Mnemonic::Data(DataKind::Words)),
    (b"EI", Mnemonic::Alone(Instr::Ei)),
    (b"END", Mnemonic::End),
    (b"EQU", Mnemonic::Assignment(Assignment::Equ)),
    (b"HLT", Mnemonic::Alone(Instr::Hlt)),
    (
        b"IN",
        Mnemonic::Expression(ExpressionKind::Byte, Instr::In(0)),
    ),
    (b"INR", Mnemonic::Register(RegisterForm::Inr)),
    (b"INX", Mnemonic::Pair(PairForm::Inx)),
    (
        b"JC",
        Mnemonic::Expression(ExpressionKind::Word, Instr::Jcc(Cond::C, 0)),
    ),
    (
        b"JM",
        Mnemonic::Expression(ExpressionKind::Word, Instr::Jcc(Cond::M, 0)),
    ),
    (
        b"JMP",
        Mnemonic::Expression(ExpressionKind::Word, Instr::Jmp(0)),
    ),
    (
        b"JNC",
        Mnemonic::Expression(ExpressionKind::Word, Instr::Jcc(Cond::Nc, 0)),
    ),
    (
        b"JNZ",
        Mnemonic::Expression(ExpressionKind::Word, Instr::Jcc(Cond::Nz, 0)),
    ),
    (
        b"JP",
        Mnemonic::Expression(ExpressionKind::Word, Instr::Jcc(Cond::P, 0)),
    ),
    (
        b"JPE",
        Mnemonic::Expression(ExpressionKind::Word, Instr::Jcc(Cond::Pe, 0)),
    ),
    (
        b"JPO",
        Mnemonic::Expression(ExpressionKind::Word, Instr::Jcc(Cond::Po, 0)),
    ),
    (
        b"JZ",
        Mnemonic::Expression(ExpressionKind::Word, Instr::Jcc(Cond::Z, 0)),
    ),
    (
        b"LDA",
        Mnemonic::Expression(ExpressionKind::Word, Instr::Lda(0)),
    ),
    (b"LDAX", Mnemonic::Pair(PairForm::Ldax)),
    (
        b"LHLD",
        Mnemonic::Expression(ExpressionKind::Word, Instr::Lhld(0)),
    ),
    (b"LXI", Mnemonic::Load(Load::Word)),
    (b"MOV", Mnemonic::Move),
    (b"MVI", Mnemonic::Load(Load::Byte)),
    (b"NOP", Mnemonic::Alone(Instr::Nop)),
    (b"ORA", Mnemonic::Register(RegisterForm::Alu(Op::Ora))),
    (b"ORG", Mnemonic::Org),
    (
        b"ORI",
        Mnemonic::Expression(ExpressionKind::Byte, Instr::AluImmediate(Op::Ora, 0)),
    ),
    (
        b"OUT",
        Mnemonic::Expression(ExpressionKind::Byte, Instr::Out(0)),
    ),
    (b"PCHL", Mnemonic::Alone(Instr::Pchl)),
    (b"POP", Mnemonic::Stack(StackForm::Pop)),
    (b"PUSH", Mnemonic::Stack(StackForm::Push)),
    (b"RAL", Mnemonic::Alone(Instr::Ral)),
    (b"RAR", Mnemonic::Alone(Instr::Rar)),
    (b"RC", Mnemonic::Alone(Instr::Rcc(Cond::C))),
    (b"RET", Mnemonic::Alone(Instr::Ret)),
    (b"RLC", Mnemonic::Alone(Instr::Rlc)),
    (b"RM", Mnemonic::Alone(Instr::Rcc(Cond::M))),
    (b"RNC", Mnemonic::Alone(Instr::Rcc(Cond::Nc))),
    (b"RNZ", Mnemonic::Alone(Instr::Rcc(Cond::Nz))),
    (b"RP", Mnemonic::Alone(Instr::Rcc(Cond::P))),
    (b"RPE", Mnemonic::Alone(Instr::Rcc(Cond::Pe))),
    (b"RPO", Mnemonic::Alone(Instr::Rcc(Cond::Po))),
    (b"RRC", Mnemonic::Alone(Instr::Rrc)),
    (
        b"RST",
        Mnemonic::Expression(ExpressionKind::Restart, Instr::Rst(0)),
    ),
    (b"RZ", Mnemonic::Alone(Instr::Rcc(Cond::Z))),
    (b"SBB", Mnemonic::Register(RegisterForm::Alu(Op::Sbb))),
    (
        b"SBI",
        Mnemonic::Expression(ExpressionKind::Byte, Instr::AluImmediate(Op::Sbb, 0)),
    ),
    (b"SET", Mnemonic::Assignment(Assignment::Set)),
    (
        b"SHLD",
        Mnemonic::Expression(ExpressionKind::Word, Instr::Shld(0)),
    ),
    (b"SPHL", Mnemonic::Alone(Instr::Sphl)),
    (
        b"STA",
        Mnemonic::Expression(ExpressionKind::Word, Instr::Sta(0)),
    ),
    (b"STAX", Mnemonic::Pair(PairForm::Stax)),
    (b"STC", Mnemonic::Alone(Instr::Stc)),
    (b"SUB", Mnemonic::Register(RegisterForm::Alu(Op::Sub))),
    (
        b"SUI",
        Mnemonic::Expression(ExpressionKind::Byte, Instr::AluImmediate(Op::Sub, 0)),
    ),
    (b"XCHG", Mnemonic::Alone(Instr::Xchg)),
    (b"XRA", Mnemonic::Register(RegisterForm::Alu(Op::Xra))),
    (
        b"XRI",
        Mnemonic::Expression(ExpressionKind::Byte, Instr::AluImmediate(Op::Xra, 0)),
    ),
    (b"XTHL", Mnemonic::Alone(Instr::Xthl)),
];

/// The mnemonic or directive of a word in upper case, if it is one: `JNZ` is the jump where Z is 0.
pub fn mnemonic_named(word: &[u8]) -> Option<Mnemonic>
    ensures table { result ≡ mnemonic_named word.now }
    ensures manual { (m : Mnemonic) → (result ≡ Some m) ↔ IsCalled word.now m }
{
    look_up(&MNEMONICS, word)
}
