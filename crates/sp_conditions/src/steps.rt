//! The symbolic state after an instruction of a routine that calls nothing.
ghost use Rattle.std.specs.Prelude.{◌≡◌, ◌≤◌, IfOk, IsTrue, false, length};
ghost use Rattle.sp_graph.specs.Structure.{moves_pointer};
ghost use Rattle.sp_isa.specs.Code.{valid};
ghost use Rattle.sp_trans.specs.Meaning.{HasForm, words_taken};
ghost use Rattle.sp_trans.specs.Translation.{applied};
ghost use Rattle.sp_trans.specs.View.{symbolic_of};
ghost use Rattle.sp_conditions.specs.code.Moves.{is_moved};
ghost use Rattle.sp_cond.specs.Execution.{bytes_taken};
ghost use Rattle.sp_cond.specs.Start.{is_store};

use bumpalo::Bump;
use sp_base::Memory;
use sp_isa::{Arg, Instr};
use sp_trans::{Sym, apply};

/// Whether translation has an equation for an instruction that doesn't move SP.
fn is_moved(i: &Instr) -> bool
    requires { moves_pointer i.now ≡ false }
    ensures form { IsTrue result → HasForm i.now }
    ensures same { result ≡ is_moved i.now }
{
    match *i {
        Instr::Call(_)
        | Instr::Ccc(_, _)
        | Instr::Ret
        | Instr::Rcc(_)
        | Instr::Rst(_)
        | Instr::Pchl
        | Instr::Sphl => false,
        _ => true,
    }
}

/// How many words an instruction takes from the stack.
fn words_taken(i: &Instr) -> usize
    ensures { result ≡ words_taken i.now }
{
    match *i {
        Instr::Pop(_) | Instr::Xthl => 1,
        _ => 0,
    }
}

/// How many bytes an instruction takes from a port.
pub fn bytes_taken(i: &Instr) -> u32
    ensures { result ≡ bytes_taken i.now }
{
    match *i {
        Instr::In(_) => 1,
        _ => 0,
    }
}

/// Whether an instruction writes M, or is STAX, STA or SHLD.
pub fn is_store(i: &Instr) -> bool
    ensures { result ≡ is_store i.now }
{
    match *i {
        Instr::Mov(Arg::M, _)
        | Instr::Mvi(Arg::M, _)
        | Instr::Inr(Arg::M)
        | Instr::Dcr(Arg::M)
        | Instr::Stax(_)
        | Instr::Sta(_)
        | Instr::Shld(_) => true,
        _ => false,
    }
}
