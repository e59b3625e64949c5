//! Values of expressions, and areas.
ghost use Rattle.std.specs.Prelude.{◌≡◌, ℕ, List, Option, IfOk, OnOk, find, map, bytes_eq, nat_eq, unwrap_or, []};
ghost use Rattle.std.specs.List.{cons_option};
ghost use Rattle.std.specs.Cmp.Lexicographic.{pointwise};
ghost use Rattle.std.specs.Map.{lookup};
ghost use Rattle.sp_note.specs.Parts.{part_of, lines_of};
ghost use Rattle.sp_prog.specs.declared.area.Area.{Area};
ghost use Rattle.sp_unit.specs.Faults as faults;
ghost use Rattle.sp_unit.specs.Sources.{value_by};

use crate::scope::AreaTable;
use sp_base::{Memory, Name};
use sp_expr::{Expr, Symbols};
use sp_note::{NoteLine, Part};
use sp_prog::{Area, AreaKind};
use std::alloc::Global;

/// The value of an expression of an annotation line, none where a name has none or a divisor is zero.
pub(crate) fn value_of(e: &Expr, names: &Symbols) -> Option<u16>
    ensures { result ≡ value_by names.now.entries e.now }
{
    match sp_expr::value(e, names, 0) {
        Ok(value) => Some(value),
        Err(_) => None,
    }
}

/// The value of an expression, 0 where it has none.
pub(crate) fn value_or_zero(e: &Expr, names: &Symbols) -> u16
    ensures { result ≡ unwrap_or (value_by names.now.entries e.now) 0 }
{
    match value_of(e, names) {
        Some(value) => value,
        None => 0,
    }
}

fn area(name: Name, kind: AreaKind, addr: u16, len: u16) -> Area
    ensures { result ≡ faults.area name kind addr len }
{
    Area {
        name,
        kind,
        addr,
        len,
    }
}

/// The area that a part declares, with zeros in place of values that it doesn't have.
pub(crate) fn area_by(part: &Part, names: &Symbols) -> Option<Area>
    ensures { result ≡ faults.area_by (value_by names.now.entries) (part_of part.now) }
{
    match part {
        Part::Byte(name, addr) => {
            Some(area(*name, AreaKind::Byte, value_or_zero(addr, names), 1))
        }
        Part::Word(name, addr) => {
            Some(area(*name, AreaKind::Word, value_or_zero(addr, names), 2))
        }
        Part::Bytes(name, addr, len) => {
            let addr = value_or_zero(addr, names);
            let len = value_or_zero(len, names);
            Some(area(*name, AreaKind::Bytes, addr, len))
        }
        _ => None,
    }
}

/// Takes in the area of a line, where it declares one and its name is new.
fn declare(areas: &mut AreaTable, area: Option<Area>) -> Result<(), Memory>
    ensures { OnOk result ((name : List ℕ) → lookup (pointwise nat_eq name) areas.new.entries
        ≡ faults.or_else (lookup (pointwise nat_eq name) areas.old.entries) (find (λ (a : Area). bytes_eq a.name name) (cons_option area []))) }
{
    let Some(area) = area else {
        return Ok(());
    };
    if !areas.contains_key(&area.name) {
        areas.insert(area.name, area)?;
    }
    Ok(())
}

/// The areas that lines declare, the first of each name.
pub(crate) fn areas_of(
    alloc: Global,
    names: &Symbols,
    notes: &[NoteLine],
) -> Result<AreaTable, Memory>
    ensures { IfOk result (λ table. (name : List ℕ) → lookup (pointwise nat_eq name) table.entries ≡ find (λ (a : Area). bytes_eq a.name name) (faults.areas_by (value_by names.now.entries) (lines_of notes.now))) }
{
    let mut areas = AreaTable::new(alloc);
    for note in notes {
        declare(&mut areas, area_by(&note.part, names))?;
    }
    Ok(areas)
}
