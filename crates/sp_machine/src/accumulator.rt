ghost use Rattle.std.specs.Prelude.{◌≡◌, ◌+◌, ◌-◌, ◌*◌, ◌/◌, ◌%◌, ◌≤◌};
ghost use Rattle.sp_base.specs.declared.location.Reg.TheVariants as reg;
ghost use Rattle.sp_base.specs.declared.location.Loc.TheVariants as loc;
ghost use Rattle.sp_isa.specs.Core.{advance, with_reg, with_flag};
ghost use Rattle.sp_isa.specs.Arithmetic.{adjust, rotate};

use crate::Machine;
use sp_base::{Loc, Reg};

/// Rotates of the accumulator, its decimal adjustment and complement, and the carry.
impl Machine {
    #[tactic(auto, unfolding(sp_isa::specs::Arithmetic::rotate))]
    fn rotate(&mut self, r: u8, cy: u8)
        requires { cy ≤ 1 }
        ensures { self.new ≡ advance 1 (rotate r cy self.old) }
    {
        self.set_flag(Loc::Cy, cy);
        self.set_reg(Reg::A, r);
        self.advance(1);
    }

    pub(crate) fn rotate_left(&mut self)
        ensures { self.new ≡ advance 1 (rotate (2 * self.old.a % 256 + self.old.a / 128) (self.old.a / 128) self.old) }
    {
        let a = self.reg(Reg::A);
        self.rotate(a % 128 * 2 + a / 128, a / 128);
    }

    pub(crate) fn rotate_right(&mut self)
        ensures { self.new ≡ advance 1 (rotate (self.old.a / 2 + 128 * (self.old.a % 2)) (self.old.a % 2) self.old) }
    {
        let a = self.reg(Reg::A);
        self.rotate(a / 2 + 128 * (a % 2), a % 2);
    }

    pub(crate) fn rotate_left_through_carry(&mut self)
        ensures { self.new ≡ advance 1 (rotate (2 * self.old.a % 256 + self.old.cy) (self.old.a / 128) self.old) }
    {
        let a = self.reg(Reg::A);
        let carry = self.flag(Loc::Cy);
        self.rotate(a % 128 * 2 + carry, a / 128);
    }

    pub(crate) fn rotate_right_through_carry(&mut self)
        ensures { self.new ≡ advance 1 (rotate (self.old.a / 2 + 128 * self.old.cy) (self.old.a % 2) self.old) }
    {
        let a = self.reg(Reg::A);
        let carry = self.flag(Loc::Cy);
        self.rotate(a / 2 + 128 * carry, a % 2);
    }

    #[tactic(auto, unfolding(sp_isa::specs::Arithmetic::adjust))]
    pub(crate) fn adjust(&mut self)
        ensures { self.new ≡ advance 1 (adjust self.old) }
    {
        let a = self.reg(Reg::A);
        let low = a % 16 > 9 || self.flag(Loc::Ac) == 1;
        let high = a > 0x99 || self.flag(Loc::Cy) == 1;
        let six = 6 * u8::from(low);
        let sum = u16::from(a) + u16::from(six) + 0x60 * u16::from(high);
        let r = (sum % 256) as u8;
        self.set_flag(Loc::Ac, u8::from(a % 16 + six >= 16));
        self.set_flag(Loc::Cy, u8::from(high));
        self.set_szp(r);
        self.set_reg(Reg::A, r);
        self.advance(1);
    }

    pub(crate) fn complement(&mut self)
        ensures { self.new ≡ advance 1 (with_reg reg.A (255 - self.old.a) self.old) }
    {
        let a = self.reg(Reg::A);
        self.set_reg(Reg::A, 255 - a);
        self.advance(1);
    }

    pub(crate) fn set_carry(&mut self)
        ensures { self.new ≡ advance 1 (with_flag loc.Cy 1 self.old) }
    {
        self.set_flag(Loc::Cy, 1);
        self.advance(1);
    }

    pub(crate) fn complement_carry(&mut self)
        ensures { self.new ≡ advance 1 (with_flag loc.Cy (1 - self.old.cy) self.old) }
    {
        let carry = self.flag(Loc::Cy);
        self.set_flag(Loc::Cy, 1 - carry);
        self.advance(1);
    }
}
