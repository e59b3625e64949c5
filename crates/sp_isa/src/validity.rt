ghost use Rattle.std.specs.Prelude.{◌≡◌};
ghost use Rattle.sp_isa.specs.Code.{valid};

use crate::{Arg, Instr};
use sp_base::Pair;

/// Whether the table has an instruction with these operands: MOV M,M is none, STAX and LDAX have the pairs B and D
/// alone, and RST the numbers 0 to 7.
pub fn valid(i: &Instr) -> bool
    ensures { result ≡ valid i.now }
{
    match *i {
        Instr::Mov(Arg::M, Arg::M) => false,
        Instr::Stax(Pair::H) | Instr::Stax(Pair::Sp) => false,
        Instr::Ldax(Pair::H) | Instr::Ldax(Pair::Sp) => false,
        Instr::Rst(n) => n < 8,
        _ => true,
    }
}
