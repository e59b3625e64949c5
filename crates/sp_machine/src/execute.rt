ghost use Rattle.std.specs.Prelude.{◌≡◌};
ghost use Rattle.sp_isa.specs.Effect.{effect};

use crate::Machine;
use sp_isa::Instr;

/// Every row of the instruction table.
impl Machine {
    /// Runs an instruction, `input` being the byte that an IN takes.
    #[tactic(auto, unfolding(sp_isa::specs::Effect::effect))]
    pub(crate) fn execute(&mut self, input: u8, i: Instr)
        ensures { self.new ≡ effect input i self.old }
    {
        match i {
            Instr::Mov(to, from) => self.mov(to, from),
            Instr::Mvi(to, n) => self.mvi(to, n),
            Instr::Inr(y) => self.increase(y),
            Instr::Dcr(y) => self.decrease(y),
            Instr::Alu(o, y) => self.operate(o, y),
            Instr::AluImmediate(o, n) => self.operate_immediate(o, n),
            Instr::Lxi(p, w) => self.lxi(p, w),
            Instr::Dad(p) => self.add_pair(p),
            Instr::Inx(p) => self.inx(p),
            Instr::Dcx(p) => self.dcx(p),
            Instr::Stax(p) => self.stax(p),
            Instr::Ldax(p) => self.ldax(p),
            Instr::Shld(w) => self.shld(w),
            Instr::Lhld(w) => self.lhld(w),
            Instr::Sta(w) => self.sta(w),
            Instr::Lda(w) => self.lda(w),
            Instr::Rlc => self.rotate_left(),
            Instr::Rrc => self.rotate_right(),
            Instr::Ral => self.rotate_left_through_carry(),
            Instr::Rar => self.rotate_right_through_carry(),
            Instr::Daa => self.adjust(),
            Instr::Cma => self.complement(),
            Instr::Stc => self.set_carry(),
            Instr::Cmc => self.complement_carry(),
            Instr::Push(p) => self.push_pair(p),
            Instr::Pop(p) => self.pop_pair(p),
            Instr::Jmp(w) => self.set_pc(w),
            Instr::Jcc(when, w) => self.jump_where(when, w),
            Instr::Call(w) => self.call(3, w),
            Instr::Ccc(when, w) => self.call_where(when, w),
            Instr::Ret => self.ret(),
            Instr::Rcc(when) => self.return_where(when),
            Instr::Rst(n) => self.call(1, 8 * u16::from(n)),
            Instr::Pchl => self.pchl(),
            Instr::Sphl => self.sphl(),
            Instr::Xthl => self.xthl(),
            Instr::Xchg => self.xchg(),
            Instr::In(_) => self.input(input),
            Instr::Out(_) => self.advance(2),
            Instr::Nop => self.advance(1),
            Instr::Ei => self.advance(1),
            Instr::Di => self.advance(1),
            Instr::Hlt => self.halt(),
        }
    }
}
