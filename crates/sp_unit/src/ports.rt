//! Ports of routines.
ghost use Rattle.std.specs.Prelude.{◌≡◌, ◌∷◌, [], ◌++◌, IfOk, false};
ghost use Rattle.std.specs.List.{list_any, filter_map};
ghost use Rattle.sp_note.specs.Parts.{part_of};
ghost use Rattle.sp_unit.specs.Faults.{is_over};
ghost use Rattle.sp_unit.specs.SourceUnits.{named_in};
ghost use Rattle.sp_unit.specs.code.Entries.{entry_of, entries_of};
ghost use Rattle.sp_unit.specs.code.Scopes.{source_of};
ghost use Rattle.sp_unit.specs.code.Sounds.{IsSound, AreSound, ports_by};

use crate::entry::Entry;
use crate::pushed::with_one;
use crate::scope::Scope;
use crate::tables::value_of;
use sp_base::Memory;
use sp_expr::Expr;
use sp_note::Part;
use std::alloc::Global;

/// Which way bytes go through a port.
#[derive(Clone, Copy)]
pub(crate) enum Direction {
    Ins,
    Outs,
}

fn ins_in(part: &Part) -> &[Expr]
    ensures { result.now ≡ ports_by Direction.Ins (part_of part.now) }
{
    match part {
        Part::Ins(ports) => ports.as_slice(),
        _ => &[],
    }
}

fn outs_in(part: &Part) -> &[Expr]
    ensures { result.now ≡ ports_by Direction.Outs (part_of part.now) }
{
    match part {
        Part::Outs(ports) => ports.as_slice(),
        _ => &[],
    }
}

/// The ports that a part names.
fn ports_by(direction: Direction, part: &Part) -> &[Expr]
    ensures { result.now ≡ ports_by direction (part_of part.now) }
{
    match direction {
        Direction::Ins => ins_in(part),
        Direction::Outs => outs_in(part),
    }
}

/// The ports that a line names.
fn ports_at<'a>(direction: Direction, e: &Entry<'a>) -> &'a [Expr]
    ensures { result.now ≡ named_in (ports_by direction) (entry_of e.now ∷ []) }
{
    match e {
        Entry::Statement(_) => &[],
        Entry::Annotation(note) => ports_by(direction, &note.part),
    }
}

/// The number of a port.
fn port(scope: &Scope<'_>, e: &Expr) -> Option<u8>
    requires { is_over (source_of scope.now) e.now ≡ false }
    ensures { result ≡ (source_of scope.now).value e.now }
{
    let value = value_of(e, scope.names)?;
    Some(value as u8)
}

/// Ports with these after them.
fn with_ports(scope: &Scope<'_>, ports: Vec<u8>, list: &[Expr]) -> Result<Vec<u8>, Memory>
    requires { list_any (is_over (source_of scope.now)) list.now ≡ false }
    ensures { IfOk result (λ all. all.items ≡ ports.items ++ filter_map (source_of scope.now).value list.now) }
{
    let mut all = ports;
    for e in list {
        all = with_one(all, port(scope, e))?;
    }
    Ok(all)
}

/// The ports that lines name, in order.
pub(crate) fn ports(
    alloc: Global,
    scope: &Scope<'_>,
    direction: Direction,
    lines: &[Entry<'_>],
) -> Result<Vec<u8>, Memory>
    requires { AreSound (source_of scope.now) (entries_of lines.now) }
    ensures { IfOk result (λ all. all.items ≡ filter_map (source_of scope.now).value (named_in (ports_by direction) (entries_of lines.now))) }
{
    let mut all = Vec::new(alloc);
    for e in lines {
        all = with_ports(scope, all, ports_at(direction, e))?;
    }
    Ok(all)
}
