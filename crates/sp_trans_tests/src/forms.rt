//! What `apply` asks of an instruction.
ghost use Rattle.std.specs.Prelude.{◌≡◌, IsTrue};
ghost use Rattle.sp_trans.specs.Meaning.{HasForm, words_taken};

use sp_base::Pair;
use sp_isa::Instr;

/// Whether translation has this form.
pub fn has_form(i: &Instr) -> bool
    ensures { IsTrue result → HasForm i.now }
{
    match *i {
        Instr::Call(_)
        | Instr::Ccc(_, _)
        | Instr::Ret
        | Instr::Rcc(_)
        | Instr::Rst(_)
        | Instr::Pchl
        | Instr::Sphl
        | Instr::Dad(Pair::Sp)
        | Instr::Inx(Pair::Sp)
        | Instr::Dcx(Pair::Sp) => false,
        _ => true,
    }
}

/// How many words an instruction takes from the stack.
pub fn words_taken(i: &Instr) -> usize
    ensures { result ≡ words_taken i.now }
{
    match *i {
        Instr::Pop(_) | Instr::Xthl => 1,
        _ => 0,
    }
}
