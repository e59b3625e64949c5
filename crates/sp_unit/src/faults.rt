//! How a line breaks the rules of units.
ghost use Rattle.std.specs.Prelude.{◌≡◌, ◌∷◌, List, Some, None, ℕ};
ghost use Rattle.sp_note.specs.Parts as parts;
ghost use Rattle.sp_unit.specs.Faults as faults;
ghost use Rattle.sp_unit.specs.Lines as lines;
ghost use Rattle.sp_unit.specs.code.Aboves.{IsAbove, is_second, repeats_in};
ghost use Rattle.sp_unit.specs.code.Entries.{note, entry_of, entries_of};
ghost use Rattle.sp_unit.specs.code.Places.{IsPlace};
ghost use Rattle.sp_unit.specs.code.Scopes.{IsScope, source_of};
ghost use Rattle.std.specs.List.{list_all, list_any};
ghost use Rattle.std.specs.Prelude.{IfOk, is_none, nat_le, true, false, []};
ghost use Rattle.sp_note.specs.RawNotes.{raw_of};
ghost use Rattle.sp_unit.specs.Resolution.{condition};

use crate::above::{Above, UNITS};
use crate::entry::{Entry, is_instr};
use crate::place::{NOTES, Place};
use crate::refusal::UnitKind;
use crate::regions::{meets_image, meets_stack, stack_clashes};
use crate::resolve::{Bound, condition};
use crate::scope::Scope;
use crate::stretch::{has_end, inside, is_entered, reaches_instruction};
use crate::tables::{area_by, value_of, value_or_zero};
use crate::words::has_word;
use sp_asm::ItemKind;
use sp_base::Memory;
use sp_expr::Expr;
use sp_logic::RawNote;
use sp_note::{Listed, Part};
use sp_prog::Area;
use std::alloc::Global;

/// Whether a place is in no routine.
fn is_outside(place: Place) -> bool
    ensures { (p : lines.Place) (below : List lines.Entry) → IsPlace place p below → result ≡ faults.is_outside p }
{
    match place {
        Place::Outside => true,
        Place::Header(_) | Place::Body(_) => false,
    }
}

/// Whether a line of a header that may stand twice is in none.
fn is_stray_line(place: Place) -> bool
    ensures { (p : lines.Place) (below : List lines.Entry) → IsPlace place p below → result ≡ faults.is_stray_line p }
{
    match place {
        Place::Header(_) => false,
        Place::Outside | Place::Body(_) => true,
    }
}

fn is_stray_start(place: Place) -> bool
    ensures { (p : lines.Place) (below : List lines.Entry) → IsPlace place p below → result ≡ faults.is_stray_in lines.is_start_part p }
{
    match place {
        Place::Header(h) => h.starts,
        Place::Outside | Place::Body(_) => true,
    }
}

fn is_stray_depth(place: Place) -> bool
    ensures { (p : lines.Place) (below : List lines.Entry) → IsPlace place p below → result ≡ faults.is_stray_in faults.is_depth_part p }
{
    match place {
        Place::Header(h) => h.has_depth,
        Place::Outside | Place::Body(_) => true,
    }
}

fn is_stray_assert(place: Place, below: &[Entry<'_>]) -> bool
    ensures { (p : lines.Place) (more : List lines.Entry) → IsPlace place p more → result ≡ faults.is_stray_assert p (entries_of below.now) }
{
    match place {
        Place::Outside => true,
        Place::Header(_) | Place::Body(_) => !reaches_instruction(below),
    }
}

fn is_stray_routine(place: Place, below: &[Entry<'_>]) -> bool
    ensures { (p : lines.Place) (more : List lines.Entry) → IsPlace place p more → result ≡ faults.is_stray_routine p (entries_of below.now) }
{
    match place {
        Place::Outside => !has_end(below),
        Place::Header(_) | Place::Body(_) => true,
    }
}

/// Whether a line doesn't belong where it stands.
fn is_stray(has_stack: bool, place: Place, part: &Part, below: &[Entry<'_>]) -> bool
    ensures { (above more : List lines.Entry) (p : lines.Place) → IsPlace place p more → has_stack ≡ faults.has_stack above
        → result ≡ faults.is_stray above p (parts.part_of part.now) (entries_of below.now) }
{
    match part {
        Part::Stack(_, _) => has_stack,
        Part::Byte(_, _) | Part::Word(_, _) | Part::Bytes(_, _, _) => false,
        Part::Routine(_) => is_stray_routine(place, below),
        Part::Start => is_stray_start(place),
        Part::Depth(_) => is_stray_depth(place),
        Part::Assert(_) => is_stray_assert(place, below),
        Part::End => is_outside(place),
        _ => is_stray_line(place),
    }
}

/// DB, DW, DS and ORG.
fn is_data(kind: ItemKind) -> bool
    ensures { result ≡ faults.is_data kind }
{
    match kind {
        ItemKind::Bytes | ItemKind::Space | ItemKind::Org => true,
        _ => false,
    }
}

/// How a statement breaks a rule.
pub(crate) fn statement_fault(kind: ItemKind, place: Place) -> Option<UnitKind>
    ensures { (p : lines.Place) (below : List lines.Entry) → IsPlace place p below → result ≡ faults.statement_fault (faults.is_outside p) kind }
{
    let outside = is_outside(place);
    if is_instr(kind) && outside {
        return Some(UnitKind::OutsideRoutine);
    }
    if is_data(kind) && !outside {
        return Some(UnitKind::NotHere);
    }
    None
}

// ---- Unknown

fn has_value(scope: &Scope<'_>, e: &Expr) -> bool
    ensures { result ≡ faults.has_value (source_of scope.now) e.now }
{
    value_of(e, scope.names).is_some()
}

fn have_values(scope: &Scope<'_>, list: &[Expr]) -> bool
    ensures { result ≡ list_all (faults.has_value (source_of scope.now)) list.now }
{
    list.iter().all(|e| has_value(scope, e))
}

fn is_listed(scope: &Scope<'_>, item: &Listed) -> bool
    requires { IsScope scope.now }
    ensures { result ≡ faults.is_listed (source_of scope.now) item.now }
{
    match item {
        Listed::Locs(_) => true,
        Listed::Area(name) => scope.areas.contains_key(name),
    }
}

fn are_listed(scope: &Scope<'_>, list: &[Listed]) -> bool
    requires { IsScope scope.now }
    ensures { result ≡ list_all (faults.is_listed (source_of scope.now)) list.now }
{
    list.iter().all(|item| is_listed(scope, item))
}

#[tactic(auto, using(crate::proofs::ScopeLemmas::same_meanings))]
fn is_unknown_note(alloc: Global, scope: &Scope<'_>, raw: &RawNote) -> Result<bool, Memory>
    requires { IsScope scope.now }
    ensures { IfOk result (λ unknown. unknown ≡ is_none (condition (faults.meanings (source_of scope.now)) [] (raw_of raw.now))) }
{
    match condition(alloc, scope, &Bound::Nothing, raw)? {
        Some(_) => Ok(false),
        None => Ok(true),
    }
}

/// Whether a line has a name without meaning, or an expression without value.
fn is_unknown(
    alloc: Global,
    scope: &Scope<'_>,
    part: &Part,
    below: &[Entry<'_>],
) -> Result<bool, Memory>
    requires { IsScope scope.now }
    ensures { IfOk result (λ unknown. unknown ≡ faults.is_unknown (source_of scope.now) (parts.part_of part.now) (entries_of below.now)) }
{
    match part {
        Part::Stack(first, last) => Ok(!(has_value(scope, first) && has_value(scope, last))),
        Part::Byte(_, addr) => Ok(!has_value(scope, addr)),
        Part::Word(_, addr) => Ok(!has_value(scope, addr)),
        Part::Bytes(_, addr, len) => Ok(!(has_value(scope, addr) && has_value(scope, len))),
        Part::Routine(name) => Ok(!is_entered(name, inside(below))),
        Part::Pre(raw) => is_unknown_note(alloc, scope, raw),
        Part::Post(raw) => is_unknown_note(alloc, scope, raw),
        Part::Assert(raw) => is_unknown_note(alloc, scope, raw),
        Part::Reads(items) => Ok(!are_listed(scope, items.as_slice())),
        Part::Changes(items) => Ok(!are_listed(scope, items.as_slice())),
        Part::Ins(ports) => Ok(!have_values(scope, ports.as_slice())),
        Part::Outs(ports) => Ok(!have_values(scope, ports.as_slice())),
        Part::Depth(n) => Ok(!has_value(scope, n)),
        Part::Start | Part::End => Ok(false),
    }
}

// ---- Clash

fn is_over(scope: &Scope<'_>, e: &Expr) -> bool
    ensures { result ≡ faults.is_over (source_of scope.now) e.now }
{
    match value_of(e, scope.names) {
        Some(value) => value > 255,
        None => false,
    }
}

fn one_is_over(scope: &Scope<'_>, list: &[Expr]) -> bool
    ensures { result ≡ list_any (faults.is_over (source_of scope.now)) list.now }
{
    list.iter().any(|e| is_over(scope, e))
}

fn changes_image(scope: &Scope<'_>, item: &Listed) -> bool
    requires { IsScope scope.now }
    ensures { result ≡ faults.changes_image (source_of scope.now) item.now }
{
    match item {
        Listed::Locs(_) => false,
        Listed::Area(name) => match scope.areas.get(name) {
            Some(area) => meets_image(scope.image, area),
            None => false,
        },
    }
}

fn one_changes_image(scope: &Scope<'_>, list: &[Listed]) -> bool
    requires { IsScope scope.now }
    ensures { result ≡ list_any (faults.changes_image (source_of scope.now)) list.now }
{
    list.iter().any(|item| changes_image(scope, item))
}

/// Whether an area, which a line above may declare too, is out of its range.
fn area_clashes(scope: &Scope<'_>, repeats: bool, area: Area) -> bool
    requires { IsScope scope.now }
    ensures { (above : List lines.Entry) → repeats ≡ faults.is_declared (source_of scope.now) above area.name
        → result ≡ faults.area_clashes (source_of scope.now) above area }
{
    repeats
        || area.len == 0
        || u32::from(area.addr) + u32::from(area.len) > 65_536
        || meets_stack(&area, scope.stack)
}

/// Whether a line has a number out of its range, or a region that meets what it mustn't.
fn clashes(scope: &Scope<'_>, repeats: bool, part: &Part) -> bool
    requires { IsScope scope.now }
    ensures { (above : List lines.Entry) → repeats ≡ is_second (source_of scope.now) above (parts.part_of part.now)
        → result ≡ faults.clashes (source_of scope.now) above (parts.part_of part.now) }
{
    match part {
        Part::Stack(first, last) => stack_clashes(
            scope.image,
            value_or_zero(first, scope.names),
            value_or_zero(last, scope.names),
        ),
        Part::Changes(items) => one_changes_image(scope, items.as_slice()),
        Part::Ins(ports) => one_is_over(scope, ports.as_slice()),
        Part::Outs(ports) => one_is_over(scope, ports.as_slice()),
        _ => match area_by(part, scope.names) {
            Some(area) => area_clashes(scope, repeats, area),
            None => false,
        },
    }
}

// ---- NotHere

/// Whether a line says that the routine of this header or body is a start routine.
fn in_start(place: Place) -> bool
    ensures { (p : lines.Place) (e : lines.Entry) (below : List lines.Entry) → IsPlace place p (e ∷ below) → lines.ends_header e ≡ false → lines.is_start e ≡ false
        → result ≡ faults.in_start p below }
{
    match place {
        Place::Outside => false,
        Place::Header(h) => h.is_start,
        Place::Body(b) => b.is_start,
    }
}

/// Whether an assertion here is at the first instruction of a start routine.
fn is_first_in_start(place: Place) -> bool
    ensures { (p : lines.Place) (e : lines.Entry) (below : List lines.Entry) → IsPlace place p (e ∷ below) → lines.ends_header e ≡ true → result ≡ faults.is_first_in_start p }
{
    match place {
        Place::Outside => false,
        Place::Header(h) => h.is_start,
        Place::Body(b) => b.is_start && !b.entered,
    }
}

// ---- TooMany

/// Whether 64 `pre` of the header stand above.
fn has_all_pre(place: Place) -> bool
    ensures { (p : lines.Place) (below : List lines.Entry) → IsPlace place p below → result ≡ nat_le 64 (faults.count_in_header faults.is_pre_part p) }
{
    match place {
        Place::Header(h) => h.pre >= NOTES,
        Place::Outside | Place::Body(_) => false,
    }
}

fn has_all_post(place: Place) -> bool
    ensures { (p : lines.Place) (below : List lines.Entry) → IsPlace place p below → result ≡ nat_le 64 (faults.count_in_header faults.is_post_part p) }
{
    match place {
        Place::Header(h) => h.post >= NOTES,
        Place::Outside | Place::Body(_) => false,
    }
}

fn has_all_asserts(place: Place) -> bool
    ensures { (p : lines.Place) (below : List lines.Entry) → IsPlace place p below → result ≡ nat_le 64 (faults.count_asserts p) }
{
    match place {
        Place::Body(b) => b.asserts >= NOTES,
        Place::Outside | Place::Header(_) => false,
    }
}

/// Whether a line may not stand at its place.
fn is_not_here(place: Place, part: &Part) -> bool
    ensures { (p : lines.Place) (n : ℕ) (below : List lines.Entry) → IsPlace place p (lines.Annotation (note n part.now) ∷ below)
        → result ≡ faults.is_not_here p (parts.part_of part.now) below }
{
    match part {
        Part::Pre(raw) => has_word(raw),
        Part::Post(raw) => in_start(place) || has_word(raw),
        Part::Assert(_) => is_first_in_start(place),
        _ => false,
    }
}

/// Whether as many lines of a kind stand above as there may be.
fn is_too_many(above: Above, part: &Part) -> bool
    ensures { (all below : List lines.Entry) → IsAbove above all below → result ≡ faults.is_too_many all (lines.place_after all) (parts.part_of part.now) }
{
    match part {
        Part::Routine(_) => above.routines >= UNITS,
        Part::Byte(_, _) | Part::Word(_, _) | Part::Bytes(_, _, _) => above.areas >= UNITS,
        Part::Pre(_) => has_all_pre(above.place),
        Part::Post(_) => has_all_post(above.place),
        Part::Assert(_) => has_all_asserts(above.place),
        _ => false,
    }
}

/// How an annotation line breaks a rule, the first of several ways. `repeats` says that it declares an area whose name one
/// above has.
fn note_fault(
    alloc: Global,
    scope: &Scope<'_>,
    above: Above,
    repeats: bool,
    part: &Part,
    below: &[Entry<'_>],
) -> Result<Option<UnitKind>, Memory>
    requires { IsScope scope.now }
    ensures { (all : List lines.Entry) (n : ℕ) → IsAbove above all (lines.Annotation (note n part.now) ∷ entries_of below.now)
        → repeats ≡ is_second (source_of scope.now) all (parts.part_of part.now)
        → IfOk result (λ kind. kind ≡ faults.note_fault (source_of scope.now) all (lines.place_after all) (parts.part_of part.now) (entries_of below.now)) }
{
    if is_stray(above.has_stack, above.place, part, below) {
        return Ok(Some(UnitKind::Stray));
    }
    if is_unknown(alloc, scope, part, below)? {
        return Ok(Some(UnitKind::Unknown));
    }
    if clashes(scope, repeats, part) {
        return Ok(Some(UnitKind::Clash));
    }
    if is_not_here(above.place, part) {
        return Ok(Some(UnitKind::NotHere));
    }
    if is_too_many(above, part) {
        return Ok(Some(UnitKind::TooMany));
    }
    Ok(None)
}

/// How a line breaks a rule, with what stands above it and the lines below.
pub(crate) fn fault(
    alloc: Global,
    scope: &Scope<'_>,
    above: Above,
    repeats: bool,
    e: &Entry<'_>,
    below: &[Entry<'_>],
) -> Result<Option<UnitKind>, Memory>
    requires { IsScope scope.now }
    ensures { (all : List lines.Entry) → IsAbove above all (entry_of e.now ∷ entries_of below.now)
        → repeats ≡ repeats_in (source_of scope.now) all (entry_of e.now)
        → IfOk result (λ kind. kind ≡ faults.fault (source_of scope.now) all (entry_of e.now) (entries_of below.now)) }
{
    match e {
        Entry::Statement(item) => Ok(statement_fault(item.kind, above.place)),
        Entry::Annotation(note) => note_fault(alloc, scope, above, repeats, &note.part, below),
    }
}
