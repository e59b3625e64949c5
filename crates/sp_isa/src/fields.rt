ghost use Rattle.std.specs.Prelude.{◌≡◌, ◌<◌};
ghost use Rattle.sp_isa.specs.Code.{arg_code, pair_code, stack_code, cond_code, op_code};
ghost use Rattle.sp_isa.specs.Decode.{coded_arg, coded_pair, coded_stack, coded_cond, coded_op};

use crate::{Arg, Cond, Op, StackPair};
use sp_base::{Pair, Reg};

/// The code of an operand, below 8.
pub fn arg_code(y: Arg) -> u8
    ensures value { result ≡ arg_code y }
    ensures within { result < 8 }
{
    match y {
        Arg::Reg(Reg::B) => 0,
        Arg::Reg(Reg::C) => 1,
        Arg::Reg(Reg::D) => 2,
        Arg::Reg(Reg::E) => 3,
        Arg::Reg(Reg::H) => 4,
        Arg::Reg(Reg::L) => 5,
        Arg::M => 6,
        Arg::Reg(Reg::A) => 7,
    }
}

/// The operand of a code below 8.
pub fn arg_of_code(code: u8) -> Arg
    ensures { result ≡ coded_arg code }
{
    match code {
        0 => Arg::Reg(Reg::B),
        1 => Arg::Reg(Reg::C),
        2 => Arg::Reg(Reg::D),
        3 => Arg::Reg(Reg::E),
        4 => Arg::Reg(Reg::H),
        5 => Arg::Reg(Reg::L),
        6 => Arg::M,
        _ => Arg::Reg(Reg::A),
    }
}

/// The code of a register pair, below 4.
pub fn pair_code(p: Pair) -> u8
    ensures value { result ≡ pair_code p }
    ensures within { result < 4 }
{
    match p {
        Pair::B => 0,
        Pair::D => 1,
        Pair::H => 2,
        Pair::Sp => 3,
    }
}

/// The register pair of a code below 4.
pub fn pair_of_code(code: u8) -> Pair
    ensures { result ≡ coded_pair code }
{
    match code {
        0 => Pair::B,
        1 => Pair::D,
        2 => Pair::H,
        _ => Pair::Sp,
    }
}

/// The code of a pair that is pushed or popped, below 4.
pub fn stack_code(p: StackPair) -> u8
    ensures value { result ≡ stack_code p }
    ensures within { result < 4 }
{
    match p {
        StackPair::B => 0,
        StackPair::D => 1,
        StackPair::H => 2,
        StackPair::Psw => 3,
    }
}

/// The pair that is pushed or popped of a code below 4.
pub fn stack_of_code(code: u8) -> StackPair
    ensures { result ≡ coded_stack code }
{
    match code {
        0 => StackPair::B,
        1 => StackPair::D,
        2 => StackPair::H,
        _ => StackPair::Psw,
    }
}

/// The code of a condition, below 8.
pub fn cond_code(when: Cond) -> u8
    ensures value { result ≡ cond_code when }
    ensures within { result < 8 }
{
    match when {
        Cond::Nz => 0,
        Cond::Z => 1,
        Cond::Nc => 2,
        Cond::C => 3,
        Cond::Po => 4,
        Cond::Pe => 5,
        Cond::P => 6,
        Cond::M => 7,
    }
}

/// The condition of a code below 8.
pub fn cond_of_code(code: u8) -> Cond
    ensures { result ≡ coded_cond code }
{
    match code {
        0 => Cond::Nz,
        1 => Cond::Z,
        2 => Cond::Nc,
        3 => Cond::C,
        4 => Cond::Po,
        5 => Cond::Pe,
        6 => Cond::P,
        _ => Cond::M,
    }
}

/// The code of an operation, below 8.
pub fn op_code(o: Op) -> u8
    ensures value { result ≡ op_code o }
    ensures within { result < 8 }
{
    match o {
        Op::Add => 0,
        Op::Adc => 1,
        Op::Sub => 2,
        Op::Sbb => 3,
        Op::Ana => 4,
        Op::Xra => 5,
        Op::Ora => 6,
        Op::Cmp => 7,
    }
}

/// The operation of a code below 8.
pub fn op_of_code(code: u8) -> Op
    ensures { result ≡ coded_op code }
{
    match code {
        0 => Op::Add,
        1 => Op::Adc,
        2 => Op::Sub,
        3 => Op::Sbb,
        4 => Op::Ana,
        5 => Op::Xra,
        6 => Op::Ora,
        _ => Op::Cmp,
    }
}
