ghost use Rattle.std.specs.Prelude.{◌≡◌};
ghost use Rattle.sp_graph.specs.Control.{control_of, is_cell, accesses};

use sp_isa::{Arg, Instr};

/// How control leaves an instruction. An address is that of a jump or of a call.
#[derive(Clone, Copy, Debug, PartialEq, Eq)]
pub enum Control {
    /// At the next instruction.
    Next,
    /// At the address.
    Jump(u16),
    /// At the address where the condition holds, else at the next instruction.
    JumpIf(u16),
    /// At the next instruction, after a call of the address.
    Call(u16),
    /// At the next instruction, after a call of the address where the condition holds.
    CallIf(u16),
    /// It returns.
    Return,
    /// It returns where the condition holds, else control is at the next instruction.
    ReturnIf,
    /// The processor halts.
    Halt,
}

/// How control leaves an instruction.
pub fn control_of(instr: &Instr) -> Control
    ensures { result ≡ control_of instr.now }
{
    match *instr {
        Instr::Jmp(address) => Control::Jump(address),
        Instr::Jcc(_, address) => Control::JumpIf(address),
        Instr::Call(address) => Control::Call(address),
        Instr::Ccc(_, address) => Control::CallIf(address),
        Instr::Rst(number) => Control::Call(8 * u16::from(number)),
        Instr::Ret => Control::Return,
        Instr::Rcc(_) => Control::ReturnIf,
        Instr::Hlt => Control::Halt,
        _ => Control::Next,
    }
}

/// Whether an operand is the cell at HL.
fn is_cell(operand: Arg) -> bool
    ensures { result ≡ is_cell operand }
{
    match operand {
        Arg::Reg(_) => false,
        Arg::M => true,
    }
}

/// Whether an instruction reads or writes memory at an address in registers.
pub fn accesses(instr: &Instr) -> bool
    ensures { result ≡ accesses instr.now }
{
    match *instr {
        Instr::Mov(to, from) => is_cell(to) || is_cell(from),
        Instr::Mvi(operand, _) => is_cell(operand),
        Instr::Inr(operand) => is_cell(operand),
        Instr::Dcr(operand) => is_cell(operand),
        Instr::Alu(_, operand) => is_cell(operand),
        Instr::Stax(_) => true,
        Instr::Ldax(_) => true,
        _ => false,
    }
}
