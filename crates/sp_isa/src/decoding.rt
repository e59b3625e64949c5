ghost use Rattle.std.specs.Prelude.{◌≡◌, ◌<◌, slice_index};
ghost use Rattle.sp_isa.specs.Decode.{coded_load, coded_accumulator, coded_low, coded_pop, coded_jump, coded_push, coded_high, coded_move, form, decode as decoded};

use crate::Instr;
use crate::fields::{arg_of_code, cond_of_code, op_of_code, pair_of_code, stack_of_code};
use crate::operand::with_operand;
use sp_base::Pair;

/// The first bytes 00yyy010.
fn load_of(y: u8) -> Instr
    ensures { result ≡ coded_load y }
{
    match y {
        0 => Instr::Stax(Pair::B),
        1 => Instr::Ldax(Pair::B),
        2 => Instr::Stax(Pair::D),
        3 => Instr::Ldax(Pair::D),
        4 => Instr::Shld(0),
        5 => Instr::Lhld(0),
        6 => Instr::Sta(0),
        _ => Instr::Lda(0),
    }
}

/// The first bytes 00yyy111.
fn accumulator_of(y: u8) -> Instr
    ensures { result ≡ coded_accumulator y }
{
    match y {
        0 => Instr::Rlc,
        1 => Instr::Rrc,
        2 => Instr::Ral,
        3 => Instr::Rar,
        4 => Instr::Daa,
        5 => Instr::Cma,
        6 => Instr::Stc,
        _ => Instr::Cmc,
    }
}

/// The first bytes 00yyyzzz.
fn low_of(y: u8, z: u8) -> Option<Instr>
    requires { z < 8 }
    ensures { result ≡ coded_low y z }
{
    let pair = pair_of_code(y / 2);
    let even = y % 2 == 0;
    match z {
        0 if y == 0 => Some(Instr::Nop),
        0 => None,
        1 if even => Some(Instr::Lxi(pair, 0)),
        1 => Some(Instr::Dad(pair)),
        2 => Some(load_of(y)),
        3 if even => Some(Instr::Inx(pair)),
        3 => Some(Instr::Dcx(pair)),
        4 => Some(Instr::Inr(arg_of_code(y))),
        5 => Some(Instr::Dcr(arg_of_code(y))),
        6 => Some(Instr::Mvi(arg_of_code(y), 0)),
        _ => Some(accumulator_of(y)),
    }
}

/// The first bytes 11yyy001.
fn pop_of(y: u8) -> Option<Instr>
    ensures { result ≡ coded_pop y }
{
    if y % 2 == 0 {
        return Some(Instr::Pop(stack_of_code(y / 2)));
    }
    match y / 2 {
        0 => Some(Instr::Ret),
        1 => None,
        2 => Some(Instr::Pchl),
        _ => Some(Instr::Sphl),
    }
}

/// The first bytes 11yyy011.
fn jump_of(y: u8) -> Option<Instr>
    ensures { result ≡ coded_jump y }
{
    match y {
        0 => Some(Instr::Jmp(0)),
        1 => None,
        2 => Some(Instr::Out(0)),
        3 => Some(Instr::In(0)),
        4 => Some(Instr::Xthl),
        5 => Some(Instr::Xchg),
        6 => Some(Instr::Di),
        _ => Some(Instr::Ei),
    }
}

/// The first bytes 11yyy101.
fn push_of(y: u8) -> Option<Instr>
    ensures { result ≡ coded_push y }
{
    if y % 2 == 0 {
        return Some(Instr::Push(stack_of_code(y / 2)));
    }
    if y == 1 { Some(Instr::Call(0)) } else { None }
}

/// The first bytes 11yyyzzz.
fn high_of(y: u8, z: u8) -> Option<Instr>
    ensures { result ≡ coded_high y z }
{
    match z {
        0 => Some(Instr::Rcc(cond_of_code(y))),
        1 => pop_of(y),
        2 => Some(Instr::Jcc(cond_of_code(y), 0)),
        3 => jump_of(y),
        4 => Some(Instr::Ccc(cond_of_code(y), 0)),
        5 => push_of(y),
        6 => Some(Instr::AluImmediate(op_of_code(y), 0)),
        _ => Some(Instr::Rst(y)),
    }
}

/// The first bytes 01yyyzzz.
fn move_of(y: u8, z: u8) -> Instr
    ensures { result ≡ coded_move y z }
{
    if y == 6 && z == 6 {
        return Instr::Hlt;
    }
    Instr::Mov(arg_of_code(y), arg_of_code(z))
}

/// The instruction of a first byte, its operand bytes 0.
#[tactic(auto, unfolding(crate::specs::Decode::form))]
fn form_of(first: u8) -> Option<Instr>
    ensures { result ≡ form first }
{
    let y = first / 8 % 8;
    let z = first % 8;
    match first / 64 {
        0 => low_of(y, z),
        1 => Some(move_of(y, z)),
        2 => Some(Instr::Alu(op_of_code(y), arg_of_code(z))),
        _ => high_of(y, z),
    }
}

/// The instruction that three bytes begin with, and its length in bytes. It takes no memory.
#[tactic(auto, unfolding(crate::specs::Decode::decode))]
pub fn decode(bytes: [u8; 3]) -> Option<(Instr, u8)>
    ensures { result ≡ decoded (slice_index bytes 0) (slice_index bytes 1) (slice_index bytes 2) }
{
    let word = u16::from(bytes[1]) + 256 * u16::from(bytes[2]);
    let form = form_of(bytes[0])?;
    Some(with_operand(form, bytes[1], word))
}
