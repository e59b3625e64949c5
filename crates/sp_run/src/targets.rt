ghost use Rattle.std.specs.Prelude.{◌≡◌, ◌==◌, find, map, option_map, position};
ghost use Rattle.sp_run.specs.Settings.{is_named, target_in, named, target_of, setting_with, setting_of};

use crate::settings::{Flag, Setting};
use crate::values::{bit_value, byte_value, word_value};
use sp_base::{Pair, Reg};

/// What a setting sets.
#[derive(Clone, Copy, Debug, PartialEq, Eq)]
pub enum Target {
    Register(Reg),
    /// A register pair, or the stack pointer.
    Pair(Pair),
    Flag(Flag),
    /// The next of the inputs.
    Input,
    /// The cell at an address.
    Cell(u16),
}

/// The targets with a name, their names in upper case.
const TARGETS: [(&[u8], Target); 17] = [
    (b"A", Target::Register(Reg::A)),
    (b"B", Target::Register(Reg::B)),
    (b"C", Target::Register(Reg::C)),
    (b"D", Target::Register(Reg::D)),
    (b"E", Target::Register(Reg::E)),
    (b"H", Target::Register(Reg::H)),
    (b"L", Target::Register(Reg::L)),
    (b"BC", Target::Pair(Pair::B)),
    (b"DE", Target::Pair(Pair::D)),
    (b"HL", Target::Pair(Pair::H)),
    (b"SP", Target::Pair(Pair::Sp)),
    (b"S", Target::Flag(Flag::S)),
    (b"Z", Target::Flag(Flag::Z)),
    (b"AC", Target::Flag(Flag::Ac)),
    (b"P", Target::Flag(Flag::P)),
    (b"CY", Target::Flag(Flag::Cy)),
    (b"IN", Target::Input),
];

/// Whether a text is a name but for case.
fn is_named(name: &[u8], text: &[u8]) -> bool
    ensures { result ≡ is_named name.now text.now }
{
    name.eq_ignore_ascii_case(text)
}

fn find_entry(targets: &[(&[u8], Target)], text: &[u8]) -> Option<Target>
    ensures { result ≡ option_map (λ entry. entry.1) (find (λ entry. is_named entry.0.now text.now) targets.now) }
{
    let found = targets.iter().find(|(name, _)| is_named(name, text));
    match found {
        Some((_, target)) => Some(*target),
        None => None,
    }
}

/// The target of a name in a table.
fn find_named(targets: &[(&[u8], Target)], text: &[u8]) -> Option<Target>
    ensures { result ≡ target_in (map (λ entry. (entry.0.now, entry.1)) targets.now) text.now }
{
    find_entry(targets, text)
}

/// The target of a name.
#[tactic(auto, unfolding(crate::specs::Settings::named))]
fn named(text: &[u8]) -> Option<Target>
    ensures { result ≡ named text.now }
{
    find_named(&TARGETS, text)
}

/// What a setting names before its `=`: a register, a pair, SP, a flag, IN, or a cell by its address.
fn target_of(text: &[u8]) -> Option<Target>
    ensures { result ≡ target_of text.now }
{
    match named(text) {
        Some(target) => Some(target),
        None => Some(Target::Cell(word_value(text)?)),
    }
}

impl Target {
    /// The setting that gives the target a value, if the value is in its range.
    fn setting(self, value: &[u8]) -> Option<Setting>
        ensures { result ≡ setting_with self value.now }
    {
        match self {
            Target::Register(register) => Some(Setting::Register(register, byte_value(value)?)),
            Target::Pair(pair) => Some(Setting::Pair(pair, word_value(value)?)),
            Target::Flag(flag) => Some(Setting::Flag(flag, bit_value(value)?)),
            Target::Input => Some(Setting::Input(byte_value(value)?)),
            Target::Cell(address) => Some(Setting::Cell(address, byte_value(value)?)),
        }
    }
}

/// Where the first `=` of a text stands.
fn equals_at(text: &[u8]) -> Option<usize>
    ensures { result ≡ position (λ byte. byte == 61) text.now }
{
    text.iter().position(|byte| *byte == b'=')
}

/// The setting that a text X=V stands for, if it stands for one.
pub fn setting_of(text: &[u8]) -> Option<Setting>
    ensures { result ≡ setting_of text.now }
{
    let end = equals_at(text)?;
    let target = target_of(&text[..end])?;
    target.setting(&text[end + 1..])
}
