ghost use Rattle.std.specs.Prelude.{◌≡◌, ◌+◌, ◌*◌, if◌then◌else◌};
ghost use Rattle.sp_base.specs.declared.pair.Pair.TheVariants as pair;
ghost use Rattle.sp_isa.specs.Core.{cell, word, advance, with_cell, with_sp, with_pc};
ghost use Rattle.sp_isa.specs.Operands.{pair_of};
ghost use Rattle.sp_isa.specs.Stack.{push, flag_byte, with_flag_byte, push_pair, top_to, pop_pair, holds, call, ret, exchange_top};

use crate::Machine;
use sp_base::{Loc, Pair, Reg};
use sp_isa::{Cond, StackPair};

/// The stack, jumps, calls and returns.
impl Machine {
    #[tactic(auto, unfolding(sp_isa::specs::Stack::push, sp_isa::specs::Core::with_cell, sp_isa::specs::Core::with_sp))]
    fn push(&mut self, high: u8, low: u8)
        ensures { self.new ≡ push high low self.old }
    {
        let sp = self.sp();
        self.set_cell(sp.wrapping_add(65_535), high);
        self.set_cell(sp.wrapping_add(65_534), low);
        self.set_sp(sp.wrapping_add(65_534));
    }

    /// The flags as a byte.
    fn flag_byte(&self) -> u8
        ensures { result ≡ flag_byte self.now }
    {
        let high = 128 * self.flag(Loc::S) + 64 * self.flag(Loc::Z) + 16 * self.flag(Loc::Ac);
        high + 4 * self.flag(Loc::P) + 2 + self.flag(Loc::Cy)
    }

    #[tactic(auto, unfolding(sp_isa::specs::Stack::with_flag_byte))]
    fn set_flag_byte(&mut self, y: u8)
        ensures { self.new ≡ with_flag_byte y self.old }
    {
        self.set_flag(Loc::Cy, y % 2);
        self.set_flag(Loc::P, y / 4 % 2);
        self.set_flag(Loc::Ac, y / 16 % 2);
        self.set_flag(Loc::Z, y / 64 % 2);
        self.set_flag(Loc::S, y / 128 % 2);
    }

    #[tactic(auto, unfolding(sp_isa::specs::Stack::push_pair))]
    pub(crate) fn push_pair(&mut self, p: StackPair)
        ensures { self.new ≡ advance 1 (push_pair p self.old) }
    {
        match p {
            StackPair::B => self.push(self.reg(Reg::B), self.reg(Reg::C)),
            StackPair::D => self.push(self.reg(Reg::D), self.reg(Reg::E)),
            StackPair::H => self.push(self.reg(Reg::H), self.reg(Reg::L)),
            StackPair::Psw => self.push(self.reg(Reg::A), self.flag_byte()),
        }
        self.advance(1);
    }

    #[tactic(auto, unfolding(sp_isa::specs::Stack::top_to))]
    fn top_to(&mut self, p: StackPair)
        ensures { self.new ≡ top_to p self.old }
    {
        let sp = self.sp();
        let w = self.word(sp);
        match p {
            StackPair::B => self.set_pair(Pair::B, w),
            StackPair::D => self.set_pair(Pair::D, w),
            StackPair::H => self.set_pair(Pair::H, w),
            StackPair::Psw => {
                let low = self.cell(sp);
                let high = self.cell(sp.wrapping_add(1));
                self.set_flag_byte(low);
                self.set_reg(Reg::A, high);
            }
        }
    }

    #[tactic(auto, unfolding(sp_isa::specs::Stack::pop_pair, sp_isa::specs::Core::with_sp))]
    pub(crate) fn pop_pair(&mut self, p: StackPair)
        ensures { self.new ≡ advance 1 (pop_pair p self.old) }
    {
        let sp = self.sp();
        self.top_to(p);
        self.set_sp(sp.wrapping_add(2));
        self.advance(1);
    }

    fn holds(&self, when: Cond) -> bool
        ensures { result ≡ holds when self.now }
    {
        match when {
            Cond::Nz => self.flag(Loc::Z) == 0,
            Cond::Z => self.flag(Loc::Z) == 1,
            Cond::Nc => self.flag(Loc::Cy) == 0,
            Cond::C => self.flag(Loc::Cy) == 1,
            Cond::Po => self.flag(Loc::P) == 0,
            Cond::Pe => self.flag(Loc::P) == 1,
            Cond::P => self.flag(Loc::S) == 0,
            Cond::M => self.flag(Loc::S) == 1,
        }
    }

    pub(crate) fn jump_where(&mut self, when: Cond, w: u16)
        ensures { self.new ≡ (if holds when self.old then with_pc w self.old else advance 3 self.old) }
    {
        if self.holds(when) {
            self.set_pc(w);
        } else {
            self.advance(3);
        }
    }

    #[tactic(auto, unfolding(sp_isa::specs::Stack::call))]
    pub(crate) fn call(&mut self, length: u16, w: u16)
        ensures { self.new ≡ call length w self.old }
    {
        let after = self.pc().wrapping_add(length);
        self.push((after / 256) as u8, (after % 256) as u8);
        self.set_pc(w);
    }

    pub(crate) fn call_where(&mut self, when: Cond, w: u16)
        ensures { self.new ≡ (if holds when self.old then call 3 w self.old else advance 3 self.old) }
    {
        if self.holds(when) {
            self.call(3, w);
        } else {
            self.advance(3);
        }
    }

    #[tactic(auto, unfolding(sp_isa::specs::Stack::ret, sp_isa::specs::Core::with_sp))]
    pub(crate) fn ret(&mut self)
        ensures { self.new ≡ ret self.old }
    {
        let sp = self.sp();
        let w = self.word(sp);
        self.set_pc(w);
        self.set_sp(sp.wrapping_add(2));
    }

    pub(crate) fn return_where(&mut self, when: Cond)
        ensures { self.new ≡ (if holds when self.old then ret self.old else advance 1 self.old) }
    {
        if self.holds(when) {
            self.ret();
        } else {
            self.advance(1);
        }
    }

    pub(crate) fn pchl(&mut self)
        ensures { self.new ≡ with_pc (pair_of pair.H self.old) self.old }
    {
        let w = self.pair(Pair::H);
        self.set_pc(w);
    }

    #[tactic(auto, unfolding(sp_isa::specs::Stack::exchange_top, sp_isa::specs::Core::with_cell))]
    pub(crate) fn xthl(&mut self)
        ensures { self.new ≡ advance 1 (exchange_top self.old) }
    {
        let sp = self.sp();
        let above = sp.wrapping_add(1);
        let low = self.cell(sp);
        let high = self.cell(above);
        let h = self.reg(Reg::H);
        let l = self.reg(Reg::L);
        self.set_cell(sp, l);
        self.set_cell(above, h);
        self.set_reg(Reg::L, low);
        self.set_reg(Reg::H, high);
        self.advance(1);
    }
}
