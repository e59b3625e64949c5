ghost use Rattle.std.specs.Prelude.{◌≡◌, IsTrue};
ghost use Rattle.sp_base.specs.declared.location.Loc.TheVariants as loc;
ghost use Rattle.sp_base.specs.Locs.{only, both};
ghost use Rattle.sp_isa.specs.Code.{valid};
ghost use Rattle.sp_isa.specs.Locations.{pair_locs, flags_but_carry, all_flags, arg_reads, address_reads, arg_writes, cond_reads, op_reads, alu_reads, op_writes, stack_writes, reads, writes};

use crate::{Arg, Cond, Instr, Op, StackPair};
use sp_base::{Loc, Locs, Pair, Reg};

/// The registers and flags that an instruction reads. It takes no memory.
pub fn reads(i: &Instr) -> Locs
    requires { IsTrue (valid i.now) }
    ensures { result ≡ reads i.now }
{
    match *i {
        Instr::Mov(to, from) => arg_reads(from).union(address_reads(to)),
        Instr::Mvi(to, _) => address_reads(to),
        Instr::Inr(y) => arg_reads(y),
        Instr::Dcr(y) => arg_reads(y),
        Instr::Alu(o, y) => alu_reads(o, y),
        Instr::AluImmediate(o, _) => op_reads(o),
        Instr::Dad(p) => pair_locs(Pair::H).union(pair_locs(p)),
        Instr::Inx(p) => pair_locs(p),
        Instr::Dcx(p) => pair_locs(p),
        Instr::Stax(p) => Locs::single(Loc::A).union(pair_locs(p)),
        Instr::Ldax(p) => pair_locs(p),
        Instr::Shld(_) => pair_locs(Pair::H),
        Instr::Sta(_) => Locs::single(Loc::A),
        Instr::Rlc => Locs::single(Loc::A),
        Instr::Rrc => Locs::single(Loc::A),
        Instr::Ral => a_and_carry(),
        Instr::Rar => a_and_carry(),
        Instr::Daa => a_and_carries(),
        Instr::Cma => Locs::single(Loc::A),
        Instr::Cmc => Locs::single(Loc::Cy),
        Instr::Jcc(when, _) => cond_reads(when),
        Instr::Ccc(when, _) => cond_reads(when),
        Instr::Rcc(when) => cond_reads(when),
        Instr::Pchl => pair_locs(Pair::H),
        Instr::Sphl => pair_locs(Pair::H),
        Instr::Xchg => pair_locs(Pair::H).union(pair_locs(Pair::D)),
        Instr::Out(_) => Locs::single(Loc::A),
        _ => Locs::empty(),
    }
}

/// The registers and flags that an instruction writes. It takes no memory.
pub fn writes(i: &Instr) -> Locs
    requires { IsTrue (valid i.now) }
    ensures { result ≡ writes i.now }
{
    match *i {
        Instr::Mov(to, _) => arg_writes(to),
        Instr::Mvi(to, _) => arg_writes(to),
        Instr::Inr(y) => arg_writes(y).union(flags_but_carry()),
        Instr::Dcr(y) => arg_writes(y).union(flags_but_carry()),
        Instr::Alu(o, _) => op_writes(o),
        Instr::AluImmediate(o, _) => op_writes(o),
        Instr::Lxi(p, _) => pair_locs(p),
        Instr::Dad(_) => pair_locs(Pair::H).union(Locs::single(Loc::Cy)),
        Instr::Inx(p) => pair_locs(p),
        Instr::Dcx(p) => pair_locs(p),
        Instr::Ldax(_) => Locs::single(Loc::A),
        Instr::Lhld(_) => pair_locs(Pair::H),
        Instr::Lda(_) => Locs::single(Loc::A),
        Instr::Rlc => a_and_carry(),
        Instr::Rrc => a_and_carry(),
        Instr::Ral => a_and_carry(),
        Instr::Rar => a_and_carry(),
        Instr::Daa => a_and_flags(),
        Instr::Cma => Locs::single(Loc::A),
        Instr::Stc => Locs::single(Loc::Cy),
        Instr::Cmc => Locs::single(Loc::Cy),
        Instr::Pop(p) => stack_writes(p),
        Instr::Xthl => pair_locs(Pair::H),
        Instr::Xchg => pair_locs(Pair::H).union(pair_locs(Pair::D)),
        Instr::In(_) => Locs::single(Loc::A),
        _ => Locs::empty(),
    }
}

/// Two locations.
fn two(x: Loc, y: Loc) -> Locs
    ensures { result ≡ both (only x) (only y) }
{
    Locs::single(x).union(Locs::single(y))
}

/// The registers of a pair; the stack pointer is no location.
fn pair_locs(p: Pair) -> Locs
    ensures { result ≡ pair_locs p }
{
    match p {
        Pair::B => two(Loc::B, Loc::C),
        Pair::D => two(Loc::D, Loc::E),
        Pair::H => two(Loc::H, Loc::L),
        Pair::Sp => Locs::empty(),
    }
}

/// S, Z, P and AC.
fn flags_but_carry() -> Locs
    ensures { result ≡ flags_but_carry }
{
    Locs::single(Loc::S).union(Locs::single(Loc::Z).union(two(Loc::P, Loc::Ac)))
}

fn all_flags() -> Locs
    ensures { result ≡ all_flags }
{
    flags_but_carry().union(Locs::single(Loc::Cy))
}

fn a_and_flags() -> Locs
    ensures { result ≡ both (only loc.A) all_flags }
{
    Locs::single(Loc::A).union(all_flags())
}

fn a_and_carry() -> Locs
    ensures { result ≡ both (only loc.A) (only loc.Cy) }
{
    two(Loc::A, Loc::Cy)
}

fn a_and_carries() -> Locs
    ensures { result ≡ both (only loc.A) (both (only loc.Ac) (only loc.Cy)) }
{
    Locs::single(Loc::A).union(two(Loc::Ac, Loc::Cy))
}

/// What reading an operand reads: of M the address in HL.
fn arg_reads(y: Arg) -> Locs
    ensures { result ≡ arg_reads y }
{
    match y {
        Arg::Reg(r) => Locs::single(Loc::from(r)),
        Arg::M => pair_locs(Pair::H),
    }
}

/// What writing an operand reads: of M the address in HL.
fn address_reads(y: Arg) -> Locs
    ensures { result ≡ address_reads y }
{
    match y {
        Arg::Reg(_) => Locs::empty(),
        Arg::M => pair_locs(Pair::H),
    }
}

/// What writing an operand writes: a cell is no location.
fn arg_writes(y: Arg) -> Locs
    ensures { result ≡ arg_writes y }
{
    match y {
        Arg::Reg(r) => Locs::single(Loc::from(r)),
        Arg::M => Locs::empty(),
    }
}

/// The flag of a condition.
fn cond_reads(when: Cond) -> Locs
    ensures { result ≡ cond_reads when }
{
    match when {
        Cond::Nz | Cond::Z => Locs::single(Loc::Z),
        Cond::Nc | Cond::C => Locs::single(Loc::Cy),
        Cond::Po | Cond::Pe => Locs::single(Loc::P),
        Cond::P | Cond::M => Locs::single(Loc::S),
    }
}

/// What an operation reads besides its byte.
fn op_reads(o: Op) -> Locs
    ensures { result ≡ op_reads o }
{
    match o {
        Op::Adc | Op::Sbb => a_and_carry(),
        _ => Locs::single(Loc::A),
    }
}

/// What an operation with an operand reads.
fn alu_reads(o: Op, y: Arg) -> Locs
    ensures { result ≡ alu_reads o y }
{
    match (o, y) {
        (Op::Sub, Arg::Reg(Reg::A)) => Locs::empty(),
        (Op::Xra, Arg::Reg(Reg::A)) => Locs::empty(),
        (Op::Cmp, Arg::Reg(Reg::A)) => Locs::empty(),
        (Op::Sbb, Arg::Reg(Reg::A)) => Locs::single(Loc::Cy),
        _ => op_reads(o).union(arg_reads(y)),
    }
}

/// What an operation writes.
fn op_writes(o: Op) -> Locs
    ensures { result ≡ op_writes o }
{
    match o {
        Op::Cmp => all_flags(),
        _ => a_and_flags(),
    }
}

/// What a POP writes.
fn stack_writes(p: StackPair) -> Locs
    ensures { result ≡ stack_writes p }
{
    match p {
        StackPair::B => pair_locs(Pair::B),
        StackPair::D => pair_locs(Pair::D),
        StackPair::H => pair_locs(Pair::H),
        StackPair::Psw => a_and_flags(),
    }
}
