//! The routine of a `routine` line.
ghost use Rattle.std.specs.Prelude.{◌≡◌, ◌∷◌, [], List, IfOk, MatchOption, None, Some};
ghost use Rattle.std.specs.Option.{option_and_then};
ghost use Rattle.sp_note.specs.Parts.{part_of};
ghost use Rattle.sp_prog.specs.declared.area.Area.{Area};
ghost use Rattle.sp_unit.specs.Faults.{areas_by};
ghost use Rattle.sp_unit.specs.Lines as lines;
ghost use Rattle.sp_unit.specs.SourceUnits.{IsRoutineOf, depth_in, depth_of};
ghost use Rattle.sp_unit.specs.code.Building.{ArePlaces, begun_line};
ghost use Rattle.sp_unit.specs.code.Entries.{entry_of, entries_of};
ghost use Rattle.sp_unit.specs.code.Scopes.{IsScope, source_of};
ghost use Rattle.sp_unit.specs.code.Sounds.{AreSound};

use crate::area_places::PlaceTable;
use crate::entry::Entry;
use crate::lists::{Access, lists};
use crate::noted::{Point, notes_at};
use crate::ports::{Direction, ports};
use crate::scope::Scope;
use crate::statements::statements;
use crate::stretch::{has_start, header, inside};
use crate::tables::value_or_zero;
use sp_base::{Line, Memory, Name};
use sp_expr::Expr;
use sp_note::Part;
use sp_prog::{Noteds, Ports, Routine, Stmts};
use std::alloc::Global;

/// The depth that a line gives.
fn depth_at<'a>(e: &Entry<'a>) -> Option<&'a Expr>
    ensures { MatchOption result (option_and_then (λ n. depth_in n.part) (lines.note_in (entry_of e.now)) ≡ None)
        (λ depth. option_and_then (λ n. depth_in n.part) (lines.note_in (entry_of e.now)) ≡ Some depth.now) }
{
    let Entry::Annotation(note) = e else {
        return None;
    };
    match &note.part {
        Part::Depth(depth) => Some(depth),
        _ => None,
    }
}

/// The depth that lines give, 0 where none does.
fn depth_of(scope: &Scope<'_>, lines: &[Entry<'_>]) -> u16
    ensures { result ≡ depth_of (source_of scope.now) (entries_of lines.now) }
{
    for e in lines {
        if let Some(depth) = depth_at(e) {
            return value_or_zero(depth, scope.names);
        }
    }
    0
}

/// The routine of a `routine` line with these lines below it.
pub(crate) fn routine(
    alloc: Global,
    scope: &Scope<'_>,
    places: &PlaceTable,
    name: Name,
    line: Line,
    below: &[Entry<'_>],
) -> Result<Routine, Memory>
    requires scope { IsScope scope.now }
    requires places { ArePlaces (areas_by (source_of scope.now).value (source_of scope.now).notes) places.now.entries }
    requires sound { AreSound (source_of scope.now) (entries_of below.now) }
    ensures { IfOk result (IsRoutineOf (source_of scope.now) (areas_by (source_of scope.now).value (source_of scope.now).notes)
        (begun_line name line.0 (entries_of below.now))) }
{
    let head = header(below);
    Ok(Routine {
        name,
        line,
        start: has_start(head),
        pre: Noteds::from_vec(notes_at(alloc, scope, Point::Entry, head)?),
        post: Noteds::from_vec(notes_at(alloc, scope, Point::Return, head)?),
        reads: lists(alloc, places, Access::Reads, head)?,
        changes: lists(alloc, places, Access::Changes, head)?,
        ins: Ports::from_vec(ports(alloc, scope, Direction::Ins, head)?),
        outs: Ports::from_vec(ports(alloc, scope, Direction::Outs, head)?),
        depth: depth_of(scope, head),
        code: Stmts::from_vec(statements(alloc, scope, inside(below))?),
    })
}
