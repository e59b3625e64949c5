ghost use Rattle.std.specs.Prelude.{◌≡◌, map};
ghost use Rattle.std.specs.List.Sorted.{IsStrictlyIncreasing};
ghost use Rattle.sp_graph.specs.Structure.{jump_target, call_target, ends, returns, is_computed, moves_pointer, loaded_pointer, takes_word, is_push};
ghost use Rattle.sp_prog.specs.Rules.{AreLaidOut, address_of, first_address};
ghost use Rattle.sp_struct.specs.code.Rules.{is_pointer, jump_misses, call_misses, loads_elsewhere, loads_other, jumps_to_entry, writes_code, call_bytes, bytes_taken, passes};

use sp_base::{Image, Pair};
use sp_graph::{Control, control_of, place_of, routine_at};
use sp_isa::Instr;
use sp_prog::{Routine, Stmt};

/// The rules that look at one instruction alone.
#[derive(Clone, Copy, Debug, PartialEq, Eq)]
pub enum Rule {
    /// A jump leads to an instruction of the routine.
    JumpOut,
    /// The last instruction doesn't go on.
    FallsOff,
    /// A call calls a routine that isn't a start routine.
    CallOut,
    /// No jump has its address in HL.
    Computed,
    /// SP is loaded first in a start routine, with the end of the stack region, and never else.
    StackPointer,
    /// A walk from the entry reaches each instruction.
    Unreached,
    /// POP and XTHL take no return address.
    PopsReturn,
    /// PUSH and calls take no more bytes of stack than the routine's depth.
    OverDepth,
    /// A start routine doesn't return.
    ReturnInStart,
    /// No byte of the image is stored to.
    CodeWritten,
}

/// The address to which a jump leads.
pub fn jump_target(control: Control) -> Option<u16>
    ensures { result ≡ jump_target control }
{
    match control {
        Control::Jump(address) | Control::JumpIf(address) => Some(address),
        _ => None,
    }
}

/// The address that a call calls.
pub fn call_target(control: Control) -> Option<u16>
    ensures { result ≡ call_target control }
{
    match control {
        Control::Call(address) | Control::CallIf(address) => Some(address),
        _ => None,
    }
}

/// Whether control never goes on at the next instruction.
pub fn ends(control: Control) -> bool
    ensures { result ≡ ends control }
{
    match control {
        Control::Jump(_) | Control::Return | Control::Halt => true,
        _ => false,
    }
}

/// Whether an instruction returns, always or where a condition holds.
pub fn returns(control: Control) -> bool
    ensures { result ≡ returns control }
{
    match control {
        Control::Return | Control::ReturnIf => true,
        _ => false,
    }
}

/// Whether a jump misses the routine.
pub fn jump_misses(code: &[Stmt], target: Option<u16>) -> bool
    requires { AreLaidOut (first_address code.now) code.now }
    ensures { result ≡ jump_misses code.now target }
{
    match target {
        Some(address) => place_of(code, address).is_none(),
        None => false,
    }
}

/// Whether a call calls no routine, or a start routine.
pub fn call_misses(routines: &[Routine], target: Option<u16>) -> bool
    requires { IsStrictlyIncreasing (map address_of routines.now) }
    ensures { result ≡ call_misses routines.now target }
{
    match target {
        Some(address) => match routine_at(routines, address) {
            Some(callee) => routines[callee].start,
            None => true,
        },
        None => false,
    }
}

/// Whether a jump leads to the first instruction.
pub fn jumps_to_entry(code: &[Stmt], target: Option<u16>) -> bool
    requires { AreLaidOut (first_address code.now) code.now }
    ensures { result ≡ jumps_to_entry code.now target }
{
    match target {
        Some(address) => match place_of(code, address) {
            Some(place) => place == 0,
            None => false,
        },
        None => false,
    }
}

/// Whether an instruction takes a word from the stack.
pub fn takes_word(instr: &Instr) -> bool
    ensures { result ≡ takes_word instr.now }
{
    match *instr {
        Instr::Pop(_) | Instr::Xthl => true,
        _ => false,
    }
}

/// Whether an instruction is PUSH.
fn is_push(instr: &Instr) -> bool
    ensures { result ≡ is_push instr.now }
{
    match *instr {
        Instr::Push(_) => true,
        _ => false,
    }
}

/// How many bytes of stack a call takes, if it calls a routine.
fn call_bytes(routines: &[Routine], target: Option<u16>) -> Option<u32>
    requires { IsStrictlyIncreasing (map address_of routines.now) }
    ensures { result ≡ call_bytes routines.now target }
{
    match target {
        Some(address) => match routine_at(routines, address) {
            Some(callee) => Some(2 + u32::from(routines[callee].depth)),
            None => None,
        },
        None => None,
    }
}

/// How many bytes of stack an instruction takes, if it is PUSH or a call of a routine.
pub fn bytes_taken(routines: &[Routine], instr: &Instr) -> Option<u32>
    requires { IsStrictlyIncreasing (map address_of routines.now) }
    ensures { result ≡ bytes_taken routines.now instr.now }
{
    if is_push(instr) {
        Some(2)
    } else {
        call_bytes(routines, call_target(control_of(instr)))
    }
}

/// Whether so many bytes more than a depth pass a limit.
pub fn passes(taken: Option<u32>, limit: u16, depth: i64) -> bool
    ensures { result ≡ passes taken limit depth }
{
    match taken {
        Some(n) => i64::from(limit) - i64::from(n) < depth,
        None => false,
    }
}

/// Whether an instruction is PCHL.
pub fn is_computed(instr: &Instr) -> bool
    ensures { result ≡ is_computed instr.now }
{
    match *instr {
        Instr::Pchl => true,
        _ => false,
    }
}

/// Whether a pair is SP.
fn is_pointer(pair: Pair) -> bool
    ensures { result ≡ is_pointer pair }
{
    match pair {
        Pair::Sp => true,
        _ => false,
    }
}

/// Whether an instruction moves SP, other than by loading a word.
pub fn moves_pointer(instr: &Instr) -> bool
    ensures { result ≡ moves_pointer instr.now }
{
    match *instr {
        Instr::Sphl => true,
        Instr::Dad(pair) | Instr::Inx(pair) | Instr::Dcx(pair) => is_pointer(pair),
        _ => false,
    }
}

/// The word with which an instruction loads SP.
pub fn loaded_pointer(instr: &Instr) -> Option<u16>
    ensures { result ≡ loaded_pointer instr.now }
{
    match *instr {
        Instr::Lxi(Pair::Sp, word) => Some(word),
        _ => None,
    }
}

/// Whether SP is loaded, other than first in a start routine.
pub fn loads_elsewhere(first: bool, loaded: Option<u16>) -> bool
    ensures { result ≡ loads_elsewhere first loaded }
{
    match loaded {
        Some(_) => !first,
        None => false,
    }
}

/// Whether SP isn't loaded with a word.
pub fn loads_other(base: u16, loaded: Option<u16>) -> bool
    ensures { result ≡ loads_other base loaded }
{
    match loaded {
        Some(word) => word != base,
        None => true,
    }
}

/// Whether an instruction stores to a byte of the image.
pub fn writes_code(image: &Image, instr: &Instr) -> bool
    ensures { result ≡ writes_code image.now instr.now }
{
    match *instr {
        Instr::Sta(cell) => image.get(cell).is_some(),
        Instr::Shld(cell) => image.get(cell).is_some() || image.get(cell.wrapping_add(1)).is_some(),
        _ => false,
    }
}
