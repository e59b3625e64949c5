ghost use Rattle.std.specs.Prelude.{◌≡◌, ◌+◌, ◌≤◌};
ghost use Rattle.sp_isa.specs.Core.{advance};
ghost use Rattle.sp_isa.specs.Operands.{arg_of};
ghost use Rattle.sp_isa.specs.Arithmetic.{with_szp, add, difference, compare, subtract, logic, alu, increase, decrease, add_pair};

use crate::Machine;
use sp_base::{Loc, Pair, Reg};
use sp_isa::{Arg, Op};

/// Arithmetic and logic.
impl Machine {
    #[tactic(auto, unfolding(sp_isa::specs::Arithmetic::with_szp))]
    pub(crate) fn set_szp(&mut self, r: u8)
        ensures { self.new ≡ with_szp r self.old }
    {
        self.set_flag(Loc::P, u8::from(r.count_ones() % 2 == 0));
        self.set_flag(Loc::Z, u8::from(r == 0));
        self.set_flag(Loc::S, u8::from(r >= 128));
    }

    #[tactic(auto, unfolding(sp_isa::specs::Arithmetic::add))]
    fn add(&mut self, y: u8, carry: u8)
        requires { carry ≤ 1 }
        ensures { self.new ≡ add y carry self.old }
    {
        let a = self.reg(Reg::A);
        let sum = u16::from(a) + u16::from(y) + u16::from(carry);
        let r = (sum % 256) as u8;
        self.set_flag(Loc::Ac, u8::from(a % 16 + y % 16 + carry >= 16));
        self.set_flag(Loc::Cy, u8::from(sum >= 256));
        self.set_szp(r);
        self.set_reg(Reg::A, r);
    }

    fn difference(&self, y: u8, borrow: u8) -> u8
        requires { borrow ≤ 1 }
        ensures { result ≡ difference y borrow self.now }
    {
        let a = self.reg(Reg::A);
        let taken = u16::from(y) + u16::from(borrow);
        ((u16::from(a) + 256 - taken) % 256) as u8
    }

    #[tactic(auto, unfolding(sp_isa::specs::Arithmetic::compare))]
    fn compare(&mut self, y: u8, borrow: u8)
        requires { borrow ≤ 1 }
        ensures { self.new ≡ compare y borrow self.old }
    {
        let a = self.reg(Reg::A);
        let r = self.difference(y, borrow);
        self.set_flag(Loc::Ac, u8::from(a % 16 >= y % 16 + borrow));
        self.set_flag(
            Loc::Cy,
            u8::from(u16::from(a) < u16::from(y) + u16::from(borrow)),
        );
        self.set_szp(r);
    }

    #[tactic(auto, unfolding(sp_isa::specs::Arithmetic::subtract))]
    fn subtract(&mut self, y: u8, borrow: u8)
        requires { borrow ≤ 1 }
        ensures { self.new ≡ subtract y borrow self.old }
    {
        let r = self.difference(y, borrow);
        self.compare(y, borrow);
        self.set_reg(Reg::A, r);
    }

    #[tactic(auto, unfolding(sp_isa::specs::Arithmetic::logic))]
    fn logic(&mut self, r: u8, ac: u8)
        requires { ac ≤ 1 }
        ensures { self.new ≡ logic r ac self.old }
    {
        self.set_flag(Loc::Ac, ac);
        self.set_flag(Loc::Cy, 0);
        self.set_szp(r);
        self.set_reg(Reg::A, r);
    }

    #[tactic(auto, unfolding(sp_isa::specs::Arithmetic::alu))]
    fn alu(&mut self, o: Op, y: u8)
        ensures { self.new ≡ alu o y self.old }
    {
        let a = self.reg(Reg::A);
        let carry = self.flag(Loc::Cy);
        match o {
            Op::Add => self.add(y, 0),
            Op::Adc => self.add(y, carry),
            Op::Sub => self.subtract(y, 0),
            Op::Sbb => self.subtract(y, carry),
            Op::Ana => self.logic(a & y, u8::from(a / 8 % 2 == 1 || y / 8 % 2 == 1)),
            Op::Xra => self.logic(a ^ y, 0),
            Op::Ora => self.logic(a | y, 0),
            Op::Cmp => self.compare(y, 0),
        }
    }

    pub(crate) fn operate(&mut self, o: Op, y: Arg)
        ensures { self.new ≡ advance 1 (alu o (arg_of y self.old) self.old) }
    {
        let v = self.arg(y);
        self.alu(o, v);
        self.advance(1);
    }

    pub(crate) fn operate_immediate(&mut self, o: Op, n: u8)
        ensures { self.new ≡ advance 2 (alu o n self.old) }
    {
        self.alu(o, n);
        self.advance(2);
    }

    #[tactic(auto, unfolding(sp_isa::specs::Arithmetic::increase))]
    pub(crate) fn increase(&mut self, y: Arg)
        ensures { self.new ≡ advance 1 (increase y self.old) }
    {
        let r = self.arg(y).wrapping_add(1);
        self.set_flag(Loc::Ac, u8::from(r % 16 == 0));
        self.set_szp(r);
        self.set_arg(y, r);
        self.advance(1);
    }

    #[tactic(auto, unfolding(sp_isa::specs::Arithmetic::decrease))]
    pub(crate) fn decrease(&mut self, y: Arg)
        ensures { self.new ≡ advance 1 (decrease y self.old) }
    {
        let v = self.arg(y);
        let r = v.wrapping_add(255);
        self.set_flag(Loc::Ac, u8::from(v % 16 != 0));
        self.set_szp(r);
        self.set_arg(y, r);
        self.advance(1);
    }

    #[tactic(auto, unfolding(sp_isa::specs::Arithmetic::add_pair))]
    pub(crate) fn add_pair(&mut self, p: Pair)
        ensures { self.new ≡ advance 1 (add_pair p self.old) }
    {
        let sum = u32::from(self.pair(Pair::H)) + u32::from(self.pair(p));
        self.set_flag(Loc::Cy, u8::from(sum >= 65_536));
        self.set_pair(Pair::H, (sum % 65_536) as u16);
        self.advance(1);
    }
}
