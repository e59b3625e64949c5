//! The texts that commands print.
ghost use Rattle.std.specs.Prelude.{◌≡◌, ◌∷◌, ◌++◌, [], IfOk, OnOk, codes, decimal};
ghost use Rattle.sp_cli.specs.Texts.{input_name, text_kind, asm_kind, image_kind, refusal_text, accepted_text, assembled_text, sound_text};

use crate::kinds::{note_kind, push_flow_kind, struct_kind, unit_kind};
use crate::refusal::{Input, Refusal};
use sp_asm::AsmKind;
use sp_base::{Line, Name};
use sp_flow::FlowKind;
use sp_hex::HexKind;
use sp_lex::TextKind;
use sp_struct::StructKind;
use std::alloc::{AllocError, Global};

/// How an input is called in a refusal.
fn input_name(input: Input) -> &'static str
    ensures { result.now ≡ input_name input }
{
    match input {
        Input::Source => "source",
        Input::Scripts => "scripts",
        Input::Image => "image",
    }
}

fn text_kind(kind: TextKind) -> &'static str
    ensures { result.now ≡ text_kind kind }
{
    match kind {
        TextKind::LongLine => "LongLine",
        TextKind::BadByte => "BadByte",
        TextKind::OpenQuote => "OpenQuote",
        TextKind::BadNumber => "BadNumber",
    }
}

fn asm_kind(kind: AsmKind) -> &'static str
    ensures { result.now ≡ asm_kind kind }
{
    match kind {
        AsmKind::Syntax => "Syntax",
        AsmKind::TooDeep => "TooDeep",
        AsmKind::Duplicate => "Duplicate",
        AsmKind::Later => "Later",
        AsmKind::Undefined => "Undefined",
        AsmKind::ZeroDivisor => "ZeroDivisor",
        AsmKind::Range => "Range",
        AsmKind::PastEnd => "PastEnd",
        AsmKind::Overlap => "Overlap",
    }
}

/// The line that says why a text stands for no image.
fn image_line(alloc: Global, at: Line, kind: HexKind) -> Result<Vec<u8>, AllocError>
    ensures { IfOk result (λ line. line.items ≡ refusal_text (Refusal.Image at kind)) }
{
    match kind {
        HexKind::BadRecord => line_at(alloc, "refused Image ", at, "BadRecord"),
        HexKind::BadSum => line_at(alloc, "refused Image ", at, "BadSum"),
        HexKind::Overlap => line_at(alloc, "refused Image ", at, "Overlap"),
        HexKind::AfterEnd => line_at(alloc, "refused Image ", at, "AfterEnd"),
        HexKind::NoEnd => line_of(alloc, "refused Image NoEnd", ""),
    }
}

/// The line that says how the structure of a unit is wrong.
fn struct_line(alloc: Global, at: Line, kind: StructKind) -> Result<Vec<u8>, AllocError>
    ensures { IfOk result (λ line. line.items ≡ refusal_text (Refusal.Struct at kind)) }
{
    let kind = struct_kind(alloc, kind)?;
    line_at(alloc, "refused Struct ", at, kind.as_str())
}

/// The line that says how the flow of a unit is wrong.
fn flow_line(alloc: Global, at: Line, kind: FlowKind) -> Result<Vec<u8>, AllocError>
    ensures { IfOk result (λ line. line.items ≡ refusal_text (Refusal.Flow at kind)) }
{
    let mut line = Vec::new(alloc);
    push_count(alloc, &mut line, b"refused Flow ", u64::from(at.0))?;
    line.push(b' ')?;
    push_flow_kind(&mut line, kind)?;
    line.push(b'\n')?;
    Ok(line)
}

/// The line that says why a command refuses.
pub fn refusal_line(alloc: Global, refusal: Refusal) -> Result<Vec<u8>, AllocError>
    ensures { IfOk result (λ line. line.items ≡ refusal_text refusal) }
{
    match refusal {
        Refusal::Missing(input) => line_of(alloc, "refused Missing ", input_name(input)),
        Refusal::TooLarge(input) => line_of(alloc, "refused TooLarge ", input_name(input)),
        Refusal::NotBuilt => line_of(alloc, "refused NotBuilt", ""),
        Refusal::Open(name, number) => open_line(alloc, name, number),
        Refusal::Text(at, kind) => line_at(alloc, "refused Text ", at, text_kind(kind)),
        Refusal::Asm(at, kind) => line_at(alloc, "refused Asm ", at, asm_kind(kind)),
        Refusal::Note(at, kind) => line_at(alloc, "refused Note ", at, note_kind(kind)),
        Refusal::Unit(at, kind) => line_at(alloc, "refused Unit ", at, unit_kind(kind)),
        Refusal::Struct(at, kind) => struct_line(alloc, at, kind),
        Refusal::Flow(at, kind) => flow_line(alloc, at, kind),
        Refusal::Image(at, kind) => image_line(alloc, at, kind),
    }
}

/// A line of two parts.
fn line_of(alloc: Global, front: &str, back: &str) -> Result<Vec<u8>, AllocError>
    ensures { IfOk result (λ line. line.items ≡ (front.now ++ back.now) ++ 10 ∷ []) }
{
    let mut line = front.as_bytes().to_vec(alloc)?;
    line.extend_from_slice(back.as_bytes())?;
    line.push(b'\n')?;
    Ok(line)
}

/// The line of an open condition.
fn open_line(alloc: Global, name: Name, number: u64) -> Result<Vec<u8>, AllocError>
    ensures { IfOk result (λ line. line.items ≡ refusal_text (Refusal.Open name number)) }
{
    let mut line = b"refused Open ".to_vec(alloc)?;
    line.extend_from_slice(name.as_slice())?;
    push_count(alloc, &mut line, b".", number)?;
    line.push(b'\n')?;
    Ok(line)
}

/// A line of a front, the number of a line of an input, and a kind.
fn line_at(alloc: Global, front: &str, at: Line, kind: &str) -> Result<Vec<u8>, AllocError>
    ensures { IfOk result (λ line. line.items ≡ (front.now ++ decimal at.0 ++ codes " " ++ kind.now) ++ 10 ∷ []) }
{
    let mut line = Vec::new(alloc);
    push_count(alloc, &mut line, front.as_bytes(), u64::from(at.0))?;
    line.push(b' ')?;
    line.extend_from_slice(kind.as_bytes())?;
    line.push(b'\n')?;
    Ok(line)
}

/// The line that says how a source was accepted: how many routines and conditions it has, and how many of these were
/// true by simplification or by a script.
pub fn accepted_line(
    alloc: Global,
    routines: u32,
    conditions: u64,
    simplified: u64,
    scripted: u64,
) -> Result<Vec<u8>, AllocError>
    ensures { IfOk result (λ line. line.items ≡ accepted_text routines conditions simplified scripted) }
{
    let mut line = b"accepted".to_vec(alloc)?;
    push_count(alloc, &mut line, b" routines=", u64::from(routines))?;
    push_count(alloc, &mut line, b" conditions=", conditions)?;
    push_count(alloc, &mut line, b" simplified=", simplified)?;
    push_count(alloc, &mut line, b" scripted=", scripted)?;
    line.push(b'\n')?;
    Ok(line)
}

/// The line that says how a source was assembled: how many bytes its image has, and how many names it has.
pub fn assembled_line(alloc: Global, bytes: u32, names: usize) -> Result<Vec<u8>, AllocError>
    ensures { IfOk result (λ line. line.items ≡ assembled_text bytes names) }
{
    let mut line = b"assembled".to_vec(alloc)?;
    push_count(alloc, &mut line, b" bytes=", u64::from(bytes))?;
    push_count(alloc, &mut line, b" names=", names as u64)?;
    line.push(b'\n')?;
    Ok(line)
}

/// The line that says that a unit is sound: how many routines it has, and how many instructions these have.
pub fn sound_line(alloc: Global, routines: usize, instructions: u64) -> Result<Vec<u8>, AllocError>
    ensures { IfOk result (λ line. line.items ≡ sound_text routines instructions) }
{
    let mut line = b"sound".to_vec(alloc)?;
    push_count(alloc, &mut line, b" routines=", routines as u64)?;
    push_count(alloc, &mut line, b" instructions=", instructions)?;
    line.push(b'\n')?;
    Ok(line)
}

/// Adds what is counted, and its number.
fn push_count(alloc: Global, line: &mut Vec<u8>, label: &[u8], count: u64) -> Result<(), AllocError>
    ensures { OnOk result (line.new.items ≡ line.old.items ++ label.now ++ decimal count) }
{
    let count = format!(in alloc; "{count}")?;
    line.extend_from_slice(label)?;
    line.extend_from_slice(count.as_bytes())?;
    Ok(())
}
