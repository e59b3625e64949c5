//! The lines of a source: statements and annotations in their order.
ghost use Rattle.std.specs.Prelude.{◌≡◌, ◌<◌, ◌≤◌, IfOk, map, length};
ghost use Rattle.std.specs.List.{list_any};
ghost use Rattle.std.specs.Prelude.{◌||◌};
ghost use Rattle.sp_unit.specs.Faults as faults;
ghost use Rattle.sp_unit.specs.Lines as lines;
ghost use Rattle.sp_note.specs.Parts as parts;

use sp_asm::{Item, ItemKind};
use sp_base::{Line, Memory, Name};
use sp_note::{NoteLine, Part};
use std::alloc::Global;

/// A statement or an annotation line.
#[derive(Clone, Copy)]
pub(crate) enum Entry<'a> {
    Statement(&'a Item),
    Annotation(&'a NoteLine),
}

fn is_end_part(part: &Part) -> bool
    ensures { result ≡ lines.is_end_part (parts.part_of part.now) }
{
    match part {
        Part::End => true,
        _ => false,
    }
}

fn is_routine_part(part: &Part) -> bool
    ensures { result ≡ lines.is_routine_part (parts.part_of part.now) }
{
    match part {
        Part::Routine(_) => true,
        _ => false,
    }
}

pub(crate) fn is_start_part(part: &Part) -> bool
    ensures { result ≡ lines.is_start_part (parts.part_of part.now) }
{
    match part {
        Part::Start => true,
        _ => false,
    }
}

pub(crate) fn is_depth_part(part: &Part) -> bool
    ensures { result ≡ faults.is_depth_part (parts.part_of part.now) }
{
    match part {
        Part::Depth(_) => true,
        _ => false,
    }
}

pub(crate) fn is_pre_part(part: &Part) -> bool
    ensures { result ≡ faults.is_pre_part (parts.part_of part.now) }
{
    match part {
        Part::Pre(_) => true,
        _ => false,
    }
}

pub(crate) fn is_post_part(part: &Part) -> bool
    ensures { result ≡ faults.is_post_part (parts.part_of part.now) }
{
    match part {
        Part::Post(_) => true,
        _ => false,
    }
}

fn is_stack_part(part: &Part) -> bool
    ensures { result ≡ faults.is_stack_part (parts.part_of part.now) }
{
    match part {
        Part::Stack(_, _) => true,
        _ => false,
    }
}

fn is_area_part(part: &Part) -> bool
    ensures { result ≡ faults.is_area_part (parts.part_of part.now) }
{
    match part {
        Part::Byte(_, _) | Part::Word(_, _) | Part::Bytes(_, _, _) => true,
        _ => false,
    }
}

fn is_assert_part(part: &Part) -> bool
    ensures { result ≡ lines.is_assert_part (parts.part_of part.now) }
{
    match part {
        Part::Assert(_) => true,
        _ => false,
    }
}

/// Whether a header ends above this part.
fn ends_header_at(part: &Part) -> bool
    ensures { result ≡ (lines.is_assert_part (parts.part_of part.now) || (lines.is_end_part (parts.part_of part.now) || lines.is_routine_part (parts.part_of part.now))) }
{
    match part {
        Part::Assert(_) | Part::End | Part::Routine(_) => true,
        _ => false,
    }
}

pub(crate) fn is_instr(kind: ItemKind) -> bool
    ensures { result ≡ lines.is_instr kind }
{
    match kind {
        ItemKind::Instr(_) => true,
        _ => false,
    }
}

fn is_named(label: Option<Name>, name: &Name) -> bool
    ensures { result ≡ faults.is_label_named name.now label }
{
    match label {
        Some(label) => label == *name,
        None => false,
    }
}

impl Entry<'_> {
    ghost use Rattle.sp_unit.specs.Lines.{line_of, is_end, is_routine, is_start, is_instruction, is_note, is_assert_part, ends_header};
    ghost use Rattle.sp_unit.specs.code.Entries.{entry_of};

    pub(crate) fn line(&self) -> Line
        ensures { result.0 ≡ line_of (entry_of self.now) }
    {
        match self {
            Entry::Statement(item) => item.line,
            Entry::Annotation(note) => note.line,
        }
    }

    pub(crate) fn is_end(&self) -> bool
        ensures { result ≡ is_end (entry_of self.now) }
    {
        match self {
            Entry::Statement(_) => false,
            Entry::Annotation(note) => is_end_part(&note.part),
        }
    }

    pub(crate) fn is_routine(&self) -> bool
        ensures { result ≡ is_routine (entry_of self.now) }
    {
        match self {
            Entry::Statement(_) => false,
            Entry::Annotation(note) => is_routine_part(&note.part),
        }
    }

    pub(crate) fn is_start(&self) -> bool
        ensures { result ≡ is_start (entry_of self.now) }
    {
        match self {
            Entry::Statement(_) => false,
            Entry::Annotation(note) => is_start_part(&note.part),
        }
    }

    pub(crate) fn is_instruction(&self) -> bool
        ensures { result ≡ is_instruction (entry_of self.now) }
    {
        match self {
            Entry::Statement(item) => is_instr(item.kind),
            Entry::Annotation(_) => false,
        }
    }

    pub(crate) fn is_stack(&self) -> bool
        ensures { result ≡ is_note faults.is_stack_part (entry_of self.now) }
    {
        match self {
            Entry::Statement(_) => false,
            Entry::Annotation(note) => is_stack_part(&note.part),
        }
    }

    /// Whether the line declares an area.
    pub(crate) fn is_area(&self) -> bool
        ensures { result ≡ is_note faults.is_area_part (entry_of self.now) }
    {
        match self {
            Entry::Statement(_) => false,
            Entry::Annotation(note) => is_area_part(&note.part),
        }
    }

    /// The address of an instruction.
    pub(crate) fn address(&self) -> Option<u32>
        ensures { result ≡ faults.address_at (entry_of self.now) }
    {
        match self {
            Entry::Statement(item) => {
                if is_instr(item.kind) {
                    Some(item.addr)
                } else {
                    None
                }
            }
            Entry::Annotation(_) => None,
        }
    }

    /// Whether the name is a label here, at an address.
    pub(crate) fn is_label(&self, name: &Name, addr: u32) -> bool
        ensures { result ≡ faults.is_label name.now addr (entry_of self.now) }
    {
        match self {
            Entry::Statement(item) => item.addr == addr && is_named(item.label, name),
            Entry::Annotation(_) => false,
        }
    }

    pub(crate) fn is_assertion(&self) -> bool
        ensures { result ≡ is_note is_assert_part (entry_of self.now) }
    {
        match self {
            Entry::Statement(_) => false,
            Entry::Annotation(note) => is_assert_part(&note.part),
        }
    }

    /// Whether a header ends above this line.
    pub(crate) fn ends_header(&self) -> bool
        ensures { result ≡ ends_header (entry_of self.now) }
    {
        match self {
            Entry::Statement(_) => true,
            Entry::Annotation(note) => ends_header_at(&note.part),
        }
    }
}
