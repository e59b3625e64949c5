ghost use Rattle.std.specs.Prelude.{◌≡◌, ◌+◌};
ghost use Rattle.sp_base.specs.declared.location.Reg.TheVariants as reg;
ghost use Rattle.sp_base.specs.declared.pair.Pair.TheVariants as pair;
ghost use Rattle.sp_isa.specs.Core.{cell, advance, with_reg, with_cell, with_sp};
ghost use Rattle.sp_isa.specs.Operands.{pair_of, with_pair, arg_of, with_arg};
ghost use Rattle.sp_isa.specs.Stack.{exchange_pairs};

use crate::Machine;
use sp_base::{Pair, Reg};
use sp_isa::Arg;

/// Moves between registers, pairs and memory.
impl Machine {
    pub(crate) fn mov(&mut self, to: Arg, from: Arg)
        ensures { self.new ≡ advance 1 (with_arg to (arg_of from self.old) self.old) }
    {
        let v = self.arg(from);
        self.set_arg(to, v);
        self.advance(1);
    }

    pub(crate) fn mvi(&mut self, to: Arg, n: u8)
        ensures { self.new ≡ advance 2 (with_arg to n self.old) }
    {
        self.set_arg(to, n);
        self.advance(2);
    }

    pub(crate) fn lxi(&mut self, p: Pair, w: u16)
        ensures { self.new ≡ advance 3 (with_pair p w self.old) }
    {
        self.set_pair(p, w);
        self.advance(3);
    }

    /// A pair plus a word, modulo 65,536: INX adds 1, and DCX 65,535.
    #[tactic(auto, unfolding(sp_isa::specs::Operands::with_pair, sp_isa::specs::Core::with_sp))]
    fn add_to_pair(&mut self, p: Pair, w: u16)
        ensures { self.new ≡ with_pair p (pair_of p self.old + w) self.old }
    {
        let v = self.pair(p);
        self.set_pair(p, v.wrapping_add(w));
    }

    pub(crate) fn inx(&mut self, p: Pair)
        ensures { self.new ≡ advance 1 (with_pair p (pair_of p self.old + 1) self.old) }
    {
        self.add_to_pair(p, 1);
        self.advance(1);
    }

    pub(crate) fn dcx(&mut self, p: Pair)
        ensures { self.new ≡ advance 1 (with_pair p (pair_of p self.old + 65535) self.old) }
    {
        self.add_to_pair(p, 65_535);
        self.advance(1);
    }

    pub(crate) fn stax(&mut self, p: Pair)
        ensures { self.new ≡ advance 1 (with_cell (pair_of p self.old) self.old.a self.old) }
    {
        let a = self.pair(p);
        let v = self.reg(Reg::A);
        self.set_cell(a, v);
        self.advance(1);
    }

    pub(crate) fn ldax(&mut self, p: Pair)
        ensures { self.new ≡ advance 1 (with_reg reg.A (cell (pair_of p self.old) self.old) self.old) }
    {
        let v = self.cell(self.pair(p));
        self.set_reg(Reg::A, v);
        self.advance(1);
    }

    #[tactic(auto, unfolding(sp_isa::specs::Core::with_cell))]
    pub(crate) fn shld(&mut self, w: u16)
        ensures { self.new ≡ advance 3 (with_cell (w + 1) self.old.h (with_cell w self.old.l self.old)) }
    {
        let low = self.reg(Reg::L);
        let high = self.reg(Reg::H);
        self.set_cell(w, low);
        self.set_cell(w.wrapping_add(1), high);
        self.advance(3);
    }

    pub(crate) fn lhld(&mut self, w: u16)
        ensures { self.new ≡ advance 3 (with_reg reg.H (cell (w + 1) self.old) (with_reg reg.L (cell w self.old) self.old)) }
    {
        let low = self.cell(w);
        let high = self.cell(w.wrapping_add(1));
        self.set_reg(Reg::L, low);
        self.set_reg(Reg::H, high);
        self.advance(3);
    }

    pub(crate) fn sta(&mut self, w: u16)
        ensures { self.new ≡ advance 3 (with_cell w self.old.a self.old) }
    {
        let v = self.reg(Reg::A);
        self.set_cell(w, v);
        self.advance(3);
    }

    pub(crate) fn lda(&mut self, w: u16)
        ensures { self.new ≡ advance 3 (with_reg reg.A (cell w self.old) self.old) }
    {
        let v = self.cell(w);
        self.set_reg(Reg::A, v);
        self.advance(3);
    }

    pub(crate) fn sphl(&mut self)
        ensures { self.new ≡ advance 1 (with_sp (pair_of pair.H self.old) self.old) }
    {
        let w = self.pair(Pair::H);
        self.set_sp(w);
        self.advance(1);
    }

    #[tactic(auto, unfolding(sp_isa::specs::Stack::exchange_pairs))]
    pub(crate) fn xchg(&mut self)
        ensures { self.new ≡ advance 1 (exchange_pairs self.old) }
    {
        let d = self.reg(Reg::D);
        let e = self.reg(Reg::E);
        let h = self.reg(Reg::H);
        let l = self.reg(Reg::L);
        self.set_reg(Reg::E, l);
        self.set_reg(Reg::D, h);
        self.set_reg(Reg::L, e);
        self.set_reg(Reg::H, d);
        self.advance(1);
    }

    pub(crate) fn input(&mut self, input: u8)
        ensures { self.new ≡ advance 2 (with_reg reg.A input self.old) }
    {
        self.set_reg(Reg::A, input);
        self.advance(2);
    }
}
