//! How the kinds of refusals of a source with annotations are printed.
ghost use Rattle.std.specs.Prelude.{◌≡◌, ◌++◌, IfOk, OnOk, string_bytes};
ghost use Rattle.sp_cli.specs.Texts.{note_kind, unit_kind, struct_kind, flow_kind, spot_text};
ghost use Rattle.sp_hex.specs.Hex.{two_digits};
ghost use Rattle.sp_run.specs.Texts.{four_digits};
ghost use Rattle.sp_words.specs.Annotations.{location_name};

use sp_base::Loc;
use sp_flow::{FlowKind, Spot};
use sp_hex::two_digits;
use sp_note::NoteKind;
use sp_struct::StructKind;
use sp_unit::UnitKind;
use std::alloc::{AllocError, Global};

pub fn note_kind(kind: NoteKind) -> &'static str
    ensures { result.now ≡ note_kind kind }
{
    match kind {
        NoteKind::Syntax => "Syntax",
        NoteKind::TooDeep => "TooDeep",
        NoteKind::Sort => "Sort",
        NoteKind::Wide => "Wide",
    }
}

pub fn unit_kind(kind: UnitKind) -> &'static str
    ensures { result.now ≡ unit_kind kind }
{
    match kind {
        UnitKind::NoStack => "NoStack",
        UnitKind::Stray => "Stray",
        UnitKind::Unknown => "Unknown",
        UnitKind::Clash => "Clash",
        UnitKind::OutsideRoutine => "OutsideRoutine",
        UnitKind::NotHere => "NotHere",
        UnitKind::TooMany => "TooMany",
    }
}

/// The text of depths that differ.
fn depth_kind(alloc: Global, after: i64, other: i64) -> Result<String, AllocError>
    ensures { IfOk result (λ text. string_bytes text ≡ struct_kind (StructKind.Depth after other)) }
{
    let after = format!(in alloc; "{after}")?;
    let other = format!(in alloc; "{other}")?;
    let mut text = String::from_str(alloc, "Depth ")?;
    text.push_str(&after)?;
    text.push_str(" ")?;
    text.push_str(&other)?;
    Ok(text)
}

/// The text of a kind, with both depths where they differ.
pub fn struct_kind(alloc: Global, kind: StructKind) -> Result<String, AllocError>
    ensures { IfOk result (λ text. string_bytes text ≡ struct_kind kind) }
{
    match kind {
        StructKind::JumpOut => String::from_str(alloc, "JumpOut"),
        StructKind::FallsOff => String::from_str(alloc, "FallsOff"),
        StructKind::CallOut => String::from_str(alloc, "CallOut"),
        StructKind::Recursion => String::from_str(alloc, "Recursion"),
        StructKind::Computed => String::from_str(alloc, "Computed"),
        StructKind::StackPointer => String::from_str(alloc, "StackPointer"),
        StructKind::Unreached => String::from_str(alloc, "Unreached"),
        StructKind::Depth(after, other) => depth_kind(alloc, after, other),
        StructKind::PopsReturn => String::from_str(alloc, "PopsReturn"),
        StructKind::OverDepth => String::from_str(alloc, "OverDepth"),
        StructKind::NoSlot => String::from_str(alloc, "NoSlot"),
        StructKind::UncutLoop => String::from_str(alloc, "UncutLoop"),
        StructKind::ReturnInStart => String::from_str(alloc, "ReturnInStart"),
        StructKind::CodeWritten => String::from_str(alloc, "CodeWritten"),
    }
}

/// The name of a register or a flag.
fn location_name(x: Loc) -> &'static str
    ensures { result.now ≡ location_name x }
{
    match x {
        Loc::A => "A",
        Loc::B => "B",
        Loc::C => "C",
        Loc::D => "D",
        Loc::E => "E",
        Loc::H => "H",
        Loc::L => "L",
        Loc::S => "S",
        Loc::Z => "Z",
        Loc::Ac => "AC",
        Loc::P => "P",
        Loc::Cy => "CY",
    }
}

/// Adds a word in four hexadecimal digits.
fn push_word(text: &mut Vec<u8>, word: u16) -> Result<(), AllocError>
    ensures { OnOk result (text.new.items ≡ text.old.items ++ four_digits word) }
{
    text.extend_from_slice(&two_digits((word / 256) as u8))?;
    text.extend_from_slice(&two_digits((word % 256) as u8))
}

/// Adds a location or a cell.
fn push_spot(text: &mut Vec<u8>, spot: Spot) -> Result<(), AllocError>
    ensures { OnOk result (text.new.items ≡ text.old.items ++ spot_text spot) }
{
    match spot {
        Spot::Loc(x) => text.extend_from_slice(location_name(x).as_bytes()),
        Spot::Cell(cell) => push_word(text, cell),
    }
}

/// Adds a kind, with its location, cell or port.
pub fn push_flow_kind(text: &mut Vec<u8>, kind: FlowKind) -> Result<(), AllocError>
    ensures { OnOk result (text.new.items ≡ text.old.items ++ flow_kind kind) }
{
    match kind {
        FlowKind::Uses(spot) => {
            text.extend_from_slice(b"Uses ")?;
            push_spot(text, spot)
        }
        FlowKind::Writes(cell) => {
            text.extend_from_slice(b"Writes ")?;
            push_word(text, cell)
        }
        FlowKind::Port(port) => {
            text.extend_from_slice(b"Port ")?;
            text.extend_from_slice(&two_digits(port))
        }
        FlowKind::CallsReads(spot) => {
            text.extend_from_slice(b"CallsReads ")?;
            push_spot(text, spot)
        }
    }
}
