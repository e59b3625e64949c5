ghost use Rattle.std.specs.Prelude.{◌≡◌, ◌≤◌, [], length};
ghost use Rattle.std.specs.List.{prefix_len};
ghost use Rattle.std.specs.Char.{is_ascii_alphabetic};
ghost use Rattle.sp_fdl.specs.Printed.{location_name};
ghost use Rattle.sp_fdl.specs.code.Names.{location_named, location_variable, after_underline, memory_variable, slot_half, slot_variable, marked_variable, variable_of, variable_sort, bound_number, bit_digit, bit_number};

use crate::numbers::name_number;
use crate::sort::Sort;
use sp_base::Loc;
use sp_term::Var;

/// The name of a register or a flag.
pub(crate) fn location_name(location: Loc) -> &'static str
    ensures { result.now ≡ location_name location }
{
    match location {
        Loc::A => "a",
        Loc::B => "b",
        Loc::C => "c",
        Loc::D => "d",
        Loc::E => "e",
        Loc::H => "h",
        Loc::L => "l",
        Loc::S => "s",
        Loc::Z => "z",
        Loc::Ac => "ac",
        Loc::P => "p",
        Loc::Cy => "cy",
    }
}

/// The register or flag with this name.
#[tactic(auto, unfolding(crate::specs::code::Names::location_named))]
fn location_named(name: &[u8]) -> Option<Loc>
    ensures { result ≡ location_named name.now }
{
    if name == b"a".as_slice() {
        Some(Loc::A)
    } else if name == b"b".as_slice() {
        Some(Loc::B)
    } else if name == b"c".as_slice() {
        Some(Loc::C)
    } else if name == b"d".as_slice() {
        Some(Loc::D)
    } else if name == b"e".as_slice() {
        Some(Loc::E)
    } else if name == b"h".as_slice() {
        Some(Loc::H)
    } else if name == b"l".as_slice() {
        Some(Loc::L)
    } else if name == b"s".as_slice() {
        Some(Loc::S)
    } else if name == b"z".as_slice() {
        Some(Loc::Z)
    } else if name == b"ac".as_slice() {
        Some(Loc::Ac)
    } else if name == b"p".as_slice() {
        Some(Loc::P)
    } else if name == b"cy".as_slice() {
        Some(Loc::Cy)
    } else {
        None
    }
}

/// The number after an underline.
#[tactic(auto, unfolding(crate::specs::code::Names::after_underline))]
fn after_underline(mark: &[u8]) -> Option<u32>
    ensures { result ≡ after_underline mark.now }
{
    match mark {
        [first, digits @ ..] if *first == b'_' => name_number(digits),
        _ => None,
    }
}

/// A register or flag with this name, now, at the entry or after a call.
#[tactic(auto, unfolding(crate::specs::code::Names::location_variable))]
fn location_variable(name: &[u8], mark: &[u8]) -> Option<Var>
    ensures { result ≡ location_variable name.now mark.now }
{
    let location = location_named(name)?;
    if mark.is_empty() {
        Some(Var::Now(location))
    } else if mark == b"~".as_slice() {
        Some(Var::Entry(location))
    } else {
        let j = after_underline(mark)?;
        Some(Var::After(location, j))
    }
}

/// Memory now, at the entry or after a call.
#[tactic(auto, unfolding(crate::specs::code::Names::memory_variable))]
fn memory_variable(mark: &[u8]) -> Option<Var>
    ensures { result ≡ memory_variable mark.now }
{
    if mark.is_empty() {
        Some(Var::Mem)
    } else if mark == b"~".as_slice() {
        Some(Var::MemEntry)
    } else {
        let j = after_underline(mark)?;
        Some(Var::MemAfter(j))
    }
}

fn slot_half(letter: u8, j: u32) -> Option<Var>
    ensures { result ≡ slot_half letter j }
{
    if letter == b'h' {
        Some(Var::SlotHigh(j))
    } else if letter == b'l' {
        Some(Var::SlotLow(j))
    } else {
        None
    }
}

/// A byte of a word on the stack.
#[tactic(auto, unfolding(crate::specs::code::Names::slot_variable))]
fn slot_variable(mark: &[u8]) -> Option<Var>
    ensures { result ≡ slot_variable mark.now }
{
    if mark.is_empty() {
        return None;
    }
    let end = mark.len() - 1;
    let j = name_number(&mark[..end])?;
    slot_half(mark[end], j)
}

/// The variable that a name of letters with this mark after it is.
#[tactic(auto, unfolding(crate::specs::code::Names::marked_variable))]
fn marked_variable(name: &[u8], mark: &[u8]) -> Option<Var>
    ensures { result ≡ marked_variable name.now mark.now }
{
    if name == b"mem".as_slice() {
        memory_variable(mark)
    } else if name == b"stk".as_slice() {
        slot_variable(mark)
    } else if name == b"in".as_slice() {
        let j = after_underline(mark)?;
        Some(Var::In(j))
    } else if name == b"k".as_slice() {
        let j = after_underline(mark)?;
        Some(Var::Any(j))
    } else if name == b"i".as_slice() {
        let j = name_number(mark)?;
        Some(Var::Bound(j))
    } else {
        location_variable(name, mark)
    }
}

fn letters_len(run: &[u8]) -> usize
    ensures value { result ≡ prefix_len is_ascii_alphabetic run.now }
    ensures within { result ≤ length run.now }
{
    run.iter()
        .take_while(|byte| byte.is_ascii_alphabetic())
        .count()
}

/// The variable that a run is the name of.
#[tactic(auto, unfolding(crate::specs::code::Names::variable_of), using(crate::proofs::TakenLemmas::letters_is, crate::proofs::TakenLemmas::after_letters_is))]
pub(crate) fn variable_of(run: &[u8]) -> Option<Var>
    ensures { result ≡ variable_of run.now }
{
    let (name, mark) = run.split_at(letters_len(run));
    marked_variable(name, mark)
}

/// The number of a bound variable.
#[tactic(auto, unfolding(crate::specs::code::Names::bound_number))]
pub(crate) fn bound_number(run: &[u8]) -> Option<u32>
    ensures { result ≡ bound_number run.now }
{
    match run {
        [first, digits @ ..] if *first == b'i' => name_number(digits),
        _ => None,
    }
}

fn bit_digit(digit: u8) -> Option<u8>
    ensures { result ≡ bit_digit digit [] }
{
    if digit == b'0' {
        Some(0)
    } else if digit == b'1' {
        Some(1)
    } else if digit == b'2' {
        Some(2)
    } else if digit == b'3' {
        Some(3)
    } else if digit == b'4' {
        Some(4)
    } else if digit == b'5' {
        Some(5)
    } else if digit == b'6' {
        Some(6)
    } else if digit == b'7' {
        Some(7)
    } else {
        None
    }
}

/// The number of a bit: a digit from 0 to 7.
#[tactic(auto, unfolding(crate::specs::code::Names::bit_number))]
pub(crate) fn bit_number(run: &[u8]) -> Option<u8>
    ensures { result ≡ bit_number run.now }
{
    match run {
        [digit] => bit_digit(*digit),
        _ => None,
    }
}

/// The sort of a variable.
pub(crate) fn variable_sort(variable: Var) -> Sort
    ensures { result ≡ variable_sort variable }
{
    match variable {
        Var::MemEntry | Var::Mem | Var::MemAfter(_) => Sort::Memory,
        Var::Entry(_)
        | Var::Now(_)
        | Var::After(_, _)
        | Var::In(_)
        | Var::SlotHigh(_)
        | Var::SlotLow(_)
        | Var::Any(_)
        | Var::Bound(_) => Sort::Int,
    }
}
