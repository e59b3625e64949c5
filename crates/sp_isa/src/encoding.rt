ghost use Rattle.std.specs.Prelude.{◌≡◌, IsTrue, length};
ghost use Rattle.sp_isa.specs.Code.{valid, opcode, operand, code};
ghost use Rattle.sp_isa.specs.Encoding.{operand_bytes};

use crate::Instr;
use crate::fields::{arg_code, cond_code, op_code, pair_code, stack_code};
use smallvec::SmallVec;
use std::alloc::Global;

/// What comes after the first byte of a code.
#[derive(Clone, Copy)]
enum Operand {
    Nothing,
    Byte(u8),
    Word(u16),
}

/// The first byte and the operand of an instruction.
fn parts(i: Instr) -> (u8, Operand)
    requires { IsTrue (valid i) }
    ensures first { result.0 ≡ opcode i }
    ensures operand { operand_bytes result.1 ≡ operand i }
{
    match i {
        Instr::Mov(to, from) => (
            0b01_000_000 + 8 * arg_code(to) + arg_code(from),
            Operand::Nothing,
        ),
        Instr::Mvi(y, n) => (0b00_000_110 + 8 * arg_code(y), Operand::Byte(n)),
        Instr::Inr(y) => (0b00_000_100 + 8 * arg_code(y), Operand::Nothing),
        Instr::Dcr(y) => (0b00_000_101 + 8 * arg_code(y), Operand::Nothing),
        Instr::Alu(o, y) => (
            0b10_000_000 + 8 * op_code(o) + arg_code(y),
            Operand::Nothing,
        ),
        Instr::AluImmediate(o, n) => (0b11_000_110 + 8 * op_code(o), Operand::Byte(n)),
        Instr::Lxi(p, w) => (0b00_00_0001 + 16 * pair_code(p), Operand::Word(w)),
        Instr::Dad(p) => (0b00_00_1001 + 16 * pair_code(p), Operand::Nothing),
        Instr::Inx(p) => (0b00_00_0011 + 16 * pair_code(p), Operand::Nothing),
        Instr::Dcx(p) => (0b00_00_1011 + 16 * pair_code(p), Operand::Nothing),
        Instr::Stax(p) => (0b00_00_0010 + 16 * pair_code(p), Operand::Nothing),
        Instr::Ldax(p) => (0b00_00_1010 + 16 * pair_code(p), Operand::Nothing),
        Instr::Shld(w) => (0b00_100_010, Operand::Word(w)),
        Instr::Lhld(w) => (0b00_101_010, Operand::Word(w)),
        Instr::Sta(w) => (0b00_110_010, Operand::Word(w)),
        Instr::Lda(w) => (0b00_111_010, Operand::Word(w)),
        Instr::Rlc => (0b00_000_111, Operand::Nothing),
        Instr::Rrc => (0b00_001_111, Operand::Nothing),
        Instr::Ral => (0b00_010_111, Operand::Nothing),
        Instr::Rar => (0b00_011_111, Operand::Nothing),
        Instr::Daa => (0b00_100_111, Operand::Nothing),
        Instr::Cma => (0b00_101_111, Operand::Nothing),
        Instr::Stc => (0b00_110_111, Operand::Nothing),
        Instr::Cmc => (0b00_111_111, Operand::Nothing),
        Instr::Push(p) => (0b11_00_0101 + 16 * stack_code(p), Operand::Nothing),
        Instr::Pop(p) => (0b11_00_0001 + 16 * stack_code(p), Operand::Nothing),
        Instr::Jmp(w) => (0b11_000_011, Operand::Word(w)),
        Instr::Jcc(when, w) => (0b11_000_010 + 8 * cond_code(when), Operand::Word(w)),
        Instr::Call(w) => (0b11_001_101, Operand::Word(w)),
        Instr::Ccc(when, w) => (0b11_000_100 + 8 * cond_code(when), Operand::Word(w)),
        Instr::Ret => (0b11_001_001, Operand::Nothing),
        Instr::Rcc(when) => (0b11_000_000 + 8 * cond_code(when), Operand::Nothing),
        Instr::Rst(n) => (0b11_000_111 + 8 * n, Operand::Nothing),
        Instr::Pchl => (0b11_101_001, Operand::Nothing),
        Instr::Sphl => (0b11_111_001, Operand::Nothing),
        Instr::Xthl => (0b11_100_011, Operand::Nothing),
        Instr::Xchg => (0b11_101_011, Operand::Nothing),
        Instr::In(n) => (0b11_011_011, Operand::Byte(n)),
        Instr::Out(n) => (0b11_010_011, Operand::Byte(n)),
        Instr::Nop => (0b00_000_000, Operand::Nothing),
        Instr::Ei => (0b11_111_011, Operand::Nothing),
        Instr::Di => (0b11_110_011, Operand::Nothing),
        Instr::Hlt => (0b01_110_110, Operand::Nothing),
    }
}

/// The bytes of an instruction. It takes no memory.
pub fn encode(alloc: Global, i: &Instr) -> SmallVec<u8, 3, Global>
    requires { IsTrue (valid i.now) }
    ensures { result.items ≡ code i.now }
{
    let (first, operand) = parts(*i);
    let mut bytes = SmallVec::new(alloc);
    bytes.push_reserved(first);
    match operand {
        Operand::Nothing => {}
        Operand::Byte(n) => bytes.push_reserved(n),
        Operand::Word(w) => {
            bytes.push_reserved((w % 256) as u8);
            bytes.push_reserved((w / 256) as u8);
        }
    }
    bytes
}

/// The length of an instruction.
impl Instr {
    /// How many bytes the instruction's code has: 1, 2 or 3.
    pub fn len(&self) -> u8
        ensures { result ≡ length (code self.now) }
    {
        match *self {
            Instr::Mvi(_, _) | Instr::AluImmediate(_, _) | Instr::In(_) | Instr::Out(_) => 2,
            Instr::Lxi(_, _) | Instr::Shld(_) | Instr::Lhld(_) | Instr::Sta(_) | Instr::Lda(_) => 3,
            Instr::Jmp(_) | Instr::Jcc(_, _) | Instr::Call(_) | Instr::Ccc(_, _) => 3,
            _ => 1,
        }
    }
}
