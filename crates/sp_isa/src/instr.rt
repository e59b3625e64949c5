use sp_base::{Pair, Reg};

/// An operand of eight bits: a register, or M, the cell at the address in HL.
#[derive(Clone, Copy, Debug, PartialEq, Eq)]
pub enum Arg {
    Reg(Reg),
    M,
}

/// An operand of PUSH and POP: a register pair, or the program status word, which is A and the flags.
#[derive(Clone, Copy, Debug, PartialEq, Eq)]
pub enum StackPair {
    B,
    D,
    H,
    Psw,
}

/// A condition of a jump, call or return.
#[derive(Clone, Copy, Debug, PartialEq, Eq)]
pub enum Cond {
    /// Z is 0.
    Nz,
    /// Z is 1.
    Z,
    /// CY is 0.
    Nc,
    /// CY is 1.
    C,
    /// P is 0: parity odd.
    Po,
    /// P is 1: parity even.
    Pe,
    /// S is 0: plus.
    P,
    /// S is 1: minus.
    M,
}

/// An operation between the accumulator and an operand.
#[derive(Clone, Copy, Debug, PartialEq, Eq)]
pub enum Op {
    Add,
    Adc,
    Sub,
    Sbb,
    Ana,
    Xra,
    Ora,
    Cmp,
}

/// An instruction (8080 manual, chapter "8080 instruction set"), with its operands.
#[derive(Clone, Copy, Debug, PartialEq, Eq)]
pub enum Instr {
    /// MOV: the first operand takes the second.
    Mov(Arg, Arg),
    /// MVI: the operand takes the byte.
    Mvi(Arg, u8),
    /// INR: one more.
    Inr(Arg),
    /// DCR: one less.
    Dcr(Arg),
    /// ADD, ADC, SUB, SBB, ANA, XRA, ORA and CMP: the accumulator and an operand.
    Alu(Op, Arg),
    /// ADI, ACI, SUI, SBI, ANI, XRI, ORI and CPI: the accumulator and a byte.
    AluImmediate(Op, u8),
    /// LXI: the pair takes the word.
    Lxi(Pair, u16),
    /// DAD: HL plus the pair.
    Dad(Pair),
    /// INX: one more.
    Inx(Pair),
    /// DCX: one less.
    Dcx(Pair),
    /// STAX: the cell at the pair, B or D, takes A.
    Stax(Pair),
    /// LDAX: A takes the cell at the pair, B or D.
    Ldax(Pair),
    /// SHLD: two cells take L and H.
    Shld(u16),
    /// LHLD: L and H take two cells.
    Lhld(u16),
    /// STA: the cell takes A.
    Sta(u16),
    /// LDA: A takes the cell.
    Lda(u16),
    /// RLC: A turned left.
    Rlc,
    /// RRC: A turned right.
    Rrc,
    /// RAL: A turned left through CY.
    Ral,
    /// RAR: A turned right through CY.
    Rar,
    /// DAA: A made decimal after an addition.
    Daa,
    /// CMA: A complemented.
    Cma,
    /// STC: CY set.
    Stc,
    /// CMC: CY turned over.
    Cmc,
    /// PUSH: the pair goes onto the stack.
    Push(StackPair),
    /// POP: the pair comes off the stack.
    Pop(StackPair),
    /// JMP: a jump.
    Jmp(u16),
    /// JNZ, JZ, JNC, JC, JPO, JPE, JP and JM: a jump where the condition holds.
    Jcc(Cond, u16),
    /// CALL: a call.
    Call(u16),
    /// CNZ, CZ, CNC, CC, CPO, CPE, CP and CM: a call where the condition holds.
    Ccc(Cond, u16),
    /// RET: a return.
    Ret,
    /// RNZ, RZ, RNC, RC, RPO, RPE, RP and RM: a return where the condition holds.
    Rcc(Cond),
    /// RST: a call of the address eight times the number, which is 0 to 7.
    Rst(u8),
    /// PCHL: a jump to the address in HL.
    Pchl,
    /// SPHL: the stack pointer takes HL.
    Sphl,
    /// XTHL: HL and the word on top of the stack change places.
    Xthl,
    /// XCHG: HL and DE change places.
    Xchg,
    /// IN: A takes a byte from the port.
    In(u8),
    /// OUT: the port takes A.
    Out(u8),
    /// NOP: nothing.
    Nop,
    /// EI: interrupts on.
    Ei,
    /// DI: interrupts off.
    Di,
    /// HLT: the processor halts.
    Hlt,
}
