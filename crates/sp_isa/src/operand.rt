ghost use Rattle.std.specs.Prelude.{◌≡◌};
ghost use Rattle.sp_isa.specs.Decode.{with_operand};

use crate::Instr;

/// An instruction with its operand from the next byte, or from the word of the next two, and its length in bytes.
pub fn with_operand(form: Instr, byte: u8, word: u16) -> (Instr, u8)
    ensures { result ≡ with_operand byte word form }
{
    match form {
        Instr::Mvi(y, _) => (Instr::Mvi(y, byte), 2),
        Instr::AluImmediate(o, _) => (Instr::AluImmediate(o, byte), 2),
        Instr::In(_) => (Instr::In(byte), 2),
        Instr::Out(_) => (Instr::Out(byte), 2),
        Instr::Lxi(p, _) => (Instr::Lxi(p, word), 3),
        Instr::Shld(_) => (Instr::Shld(word), 3),
        Instr::Lhld(_) => (Instr::Lhld(word), 3),
        Instr::Sta(_) => (Instr::Sta(word), 3),
        Instr::Lda(_) => (Instr::Lda(word), 3),
        Instr::Jmp(_) => (Instr::Jmp(word), 3),
        Instr::Call(_) => (Instr::Call(word), 3),
        Instr::Jcc(when, _) => (Instr::Jcc(when, word), 3),
        Instr::Ccc(when, _) => (Instr::Ccc(when, word), 3),
        Instr::Mov(to, from) => (Instr::Mov(to, from), 1),
        Instr::Inr(y) => (Instr::Inr(y), 1),
        Instr::Dcr(y) => (Instr::Dcr(y), 1),
        Instr::Alu(o, y) => (Instr::Alu(o, y), 1),
        Instr::Dad(p) => (Instr::Dad(p), 1),
        Instr::Inx(p) => (Instr::Inx(p), 1),
        Instr::Dcx(p) => (Instr::Dcx(p), 1),
        Instr::Stax(p) => (Instr::Stax(p), 1),
        Instr::Ldax(p) => (Instr::Ldax(p), 1),
        Instr::Rlc => (Instr::Rlc, 1),
        Instr::Rrc => (Instr::Rrc, 1),
        Instr::Ral => (Instr::Ral, 1),
        Instr::Rar => (Instr::Rar, 1),
        Instr::Daa => (Instr::Daa, 1),
        Instr::Cma => (Instr::Cma, 1),
        Instr::Stc => (Instr::Stc, 1),
        Instr::Cmc => (Instr::Cmc, 1),
        Instr::Push(p) => (Instr::Push(p), 1),
        Instr::Pop(p) => (Instr::Pop(p), 1),
        Instr::Ret => (Instr::Ret, 1),
        Instr::Rcc(when) => (Instr::Rcc(when), 1),
        Instr::Rst(n) => (Instr::Rst(n), 1),
        Instr::Pchl => (Instr::Pchl, 1),
        Instr::Sphl => (Instr::Sphl, 1),
        Instr::Xthl => (Instr::Xthl, 1),
        Instr::Xchg => (Instr::Xchg, 1),
        Instr::Nop => (Instr::Nop, 1),
        Instr::Ei => (Instr::Ei, 1),
        Instr::Di => (Instr::Di, 1),
        Instr::Hlt => (Instr::Hlt, 1),
    }
}
