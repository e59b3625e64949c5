ghost use Rattle.std.specs.Prelude.{◌≡◌};
ghost use Rattle.sp_first.specs.Program.{instr_of};

use sp_base::Reg;
use sp_isa::{Arg, Instr};

/// An instruction of the first form before RET: both are data transfers between registers.
#[derive(Clone, Copy, Debug)]
pub enum Transfer {
    /// MVI: the register takes the byte.
    Mvi(Reg, u8),
    /// MOV: the first register takes the second.
    Mov(Reg, Reg),
}

impl Transfer {
    /// The instruction of the 8080.
    pub fn instr(self) -> Instr
        ensures { result ≡ instr_of self }
    {
        match self {
            Transfer::Mvi(to, byte) => Instr::Mvi(Arg::Reg(to), byte),
            Transfer::Mov(to, from) => Instr::Mov(Arg::Reg(to), Arg::Reg(from)),
        }
    }
}
