ghost use Rattle.std.specs.Prelude.{◌≡◌, ◌+◌, ◌*◌};
ghost use Rattle.sp_isa.specs.Core.{word, advance, with_reg};
ghost use Rattle.sp_isa.specs.Operands.{pair_of, with_pair, arg_of, with_arg};

use crate::Machine;
use sp_base::{Pair, Reg};
use sp_isa::Arg;

/// What the operands of instructions name.
impl Machine {
    /// The word at an address, its low byte first.
    pub(crate) fn word(&self, a: u16) -> u16
        ensures { result ≡ word a self.now }
    {
        let low = self.cell(a);
        let high = self.cell(a.wrapping_add(1));
        u16::from(low) + 256 * u16::from(high)
    }

    #[tactic(auto, unfolding(sp_isa::specs::Core::advance))]
    pub(crate) fn advance(&mut self, length: u16)
        ensures { self.new ≡ advance length self.old }
    {
        let pc = self.pc();
        self.set_pc(pc.wrapping_add(length));
    }

    pub(crate) fn pair(&self, p: Pair) -> u16
        ensures { result ≡ pair_of p self.now }
    {
        match p {
            Pair::B => joined(self.reg(Reg::B), self.reg(Reg::C)),
            Pair::D => joined(self.reg(Reg::D), self.reg(Reg::E)),
            Pair::H => joined(self.reg(Reg::H), self.reg(Reg::L)),
            Pair::Sp => self.sp(),
        }
    }

    #[tactic(auto, unfolding(sp_isa::specs::Operands::with_pair))]
    pub(crate) fn set_pair(&mut self, p: Pair, w: u16)
        ensures { self.new ≡ with_pair p w self.old }
    {
        let high = (w / 256) as u8;
        let low = (w % 256) as u8;
        match p {
            Pair::B => self.set_two(Reg::B, high, Reg::C, low),
            Pair::D => self.set_two(Reg::D, high, Reg::E, low),
            Pair::H => self.set_two(Reg::H, high, Reg::L, low),
            Pair::Sp => self.set_sp(w),
        }
    }

    fn set_two(&mut self, high: Reg, high_byte: u8, low: Reg, low_byte: u8)
        ensures { self.new ≡ with_reg high high_byte (with_reg low low_byte self.old) }
    {
        self.set_reg(low, low_byte);
        self.set_reg(high, high_byte);
    }

    pub(crate) fn arg(&self, y: Arg) -> u8
        ensures { result ≡ arg_of y self.now }
    {
        match y {
            Arg::Reg(r) => self.reg(r),
            Arg::M => self.cell(self.pair(Pair::H)),
        }
    }

    #[tactic(auto, unfolding(sp_isa::specs::Operands::with_arg))]
    pub(crate) fn set_arg(&mut self, y: Arg, v: u8)
        ensures { self.new ≡ with_arg y v self.old }
    {
        match y {
            Arg::Reg(r) => self.set_reg(r, v),
            Arg::M => {
                let a = self.pair(Pair::H);
                self.set_cell(a, v);
            }
        }
    }
}

/// The word of a high and a low byte.
fn joined(high: u8, low: u8) -> u16
    ensures { result ≡ 256 * high + low }
{
    256 * u16::from(high) + u16::from(low)
}
