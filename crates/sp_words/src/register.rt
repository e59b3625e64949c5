ghost use Rattle.std.specs.Prelude.{◌≡◌, ◌↔◌, Some};
ghost use Rattle.sp_words.specs.code.Tables.{arg_named, pair_named, stack_pair_named};
ghost use Rattle.sp_words.specs.Registers.{arg_name, pair_name, stack_pair_name};

use crate::table::look_up;
use sp_base::{Pair, Reg};
use sp_isa::{Arg, StackPair};

/// The registers and M, the cell at the address in HL, sorted.
pub const REGISTERS: [(&[u8], Arg); 8] = [
    (b"A", Arg::Reg(Reg::A)),
    (b"B", Arg::Reg(Reg::B)),
    (b"C", Arg::Reg(Reg::C)),
    (b"D", Arg::Reg(Reg::D)),
    (b"E", Arg::Reg(Reg::E)),
    (b"H", Arg::Reg(Reg::H)),
    (b"L", Arg::Reg(Reg::L)),
    (b"M", Arg::M),
];

/// The register pairs, by their first registers, and the stack pointer, sorted.
pub const PAIRS: [(&[u8], Pair); 4] = [
    (b"B", Pair::B),
    (b"D", Pair::D),
    (b"H", Pair::H),
    (b"SP", Pair::Sp),
];

/// The operands of PUSH and POP, PSW being A and the flags, sorted.
pub const STACK_PAIRS: [(&[u8], StackPair); 4] = [
    (b"B", StackPair::B),
    (b"D", StackPair::D),
    (b"H", StackPair::H),
    (b"PSW", StackPair::Psw),
];

/// The register of a word in upper case, or M, if it is one: `A` is the accumulator.
pub fn arg_named(word: &[u8]) -> Option<Arg>
    ensures table { result ≡ arg_named word.now }
    ensures manual { (y : Arg) → (result ≡ Some y) ↔ (word.now ≡ arg_name y) }
{
    look_up(&REGISTERS, word)
}

/// The register pair of a word in upper case, or the stack pointer, if it is one: `H` is H and L.
pub fn pair_named(word: &[u8]) -> Option<Pair>
    ensures table { result ≡ pair_named word.now }
    ensures manual { (p : Pair) → (result ≡ Some p) ↔ (word.now ≡ pair_name p) }
{
    look_up(&PAIRS, word)
}

/// The operand of PUSH and POP of a word in upper case, if it is one: `PSW` is A and the flags.
pub fn stack_pair_named(word: &[u8]) -> Option<StackPair>
    ensures table { result ≡ stack_pair_named word.now }
    ensures manual { (p : StackPair) → (result ≡ Some p) ↔ (word.now ≡ stack_pair_name p) }
{
    look_up(&STACK_PAIRS, word)
}
