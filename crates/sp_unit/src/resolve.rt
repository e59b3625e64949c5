//! Annotations with numbers in place of names.
ghost use Rattle.std.specs.Prelude.{◌≡◌, ◌+◌, ℕ, Some, IfOk, map};
ghost use Rattle.std.specs.Option.{option_map};
ghost use Rattle.sp_model.specs.Note as model;
ghost use Rattle.sp_logic.specs.View.{moment_of, operator_of, quantity_of, note_of};
ghost use Rattle.sp_note.specs.RawNotes.{raw_of};
ghost use Rattle.sp_unit.specs.Resolution.{Meanings, is_bound, area_named, cell, content, element, named, pair, number, condition};
ghost use Rattle.sp_unit.specs.code.Tables.{meanings_in, bound_of, two_of};

use crate::scope::Scope;
use sp_base::{Memory, Name};
use sp_logic::{Moment, Note, Operator, Quantity, RawNote};
use sp_prog::{Area, AreaKind};
use std::alloc::Global;

/// The bound names round a part of a note, the innermost first.
#[derive(Clone, Copy)]
pub(crate) enum Bound<'a> {
    Nothing,
    Inner(&'a Name, &'a Bound<'a>),
}

/// Two numbers.
#[derive(Drop)]
struct Two {
    left: Quantity,
    right: Quantity,
}

fn is_bound(bound: &Bound<'_>, name: &Name) -> bool
    ensures { result ≡ is_bound (bound_of bound.now) name.now }
{
    match bound {
        Bound::Nothing => false,
        Bound::Inner(inner, outer) => *inner == name || is_bound(outer, name),
    }
}

/// The area that a name means.
fn area_named(scope: &Scope<'_>, bound: &Bound<'_>, name: &Name) -> Option<Area>
    ensures { result ≡ area_named (meanings_in scope.now.areas.entries scope.now.names.now.entries) (bound_of bound.now) name.now }
{
    if is_bound(bound, name) {
        return None;
    }
    scope.areas.get(name).copied()
}

fn cell(alloc: Global, moment: Moment, address: u64) -> Result<Quantity, Memory>
    ensures { IfOk result (λ q. quantity_of q ≡ cell (moment_of moment) address) }
{
    let at = Box::new(alloc, Quantity::Literal(address))?;
    Ok(Quantity::Cell(moment, at))
}

fn operated(
    alloc: Global,
    operator: Operator,
    left: Quantity,
    right: Quantity,
) -> Result<Quantity, Memory>
    ensures { IfOk result (λ q. quantity_of q ≡ model.Operate (operator_of operator) (quantity_of left) (quantity_of right)) }
{
    let left = Box::new(alloc, left)?;
    let right = Box::new(alloc, right)?;
    Ok(Quantity::Operate(operator, left, right))
}

/// What the name of an area stands for alone: the cell of a byte, and a word's low cell plus 256 times the next.
fn content(alloc: Global, moment: Moment, area: Area) -> Result<Option<Quantity>, Memory>
    ensures { IfOk result (λ q. option_map quantity_of q ≡ content (moment_of moment) area.kind area.addr) }
{
    let first = u64::from(area.addr);
    let low = cell(alloc, moment, first)?;
    match area.kind {
        AreaKind::Byte => Ok(Some(low)),
        AreaKind::Word => {
            let high = cell(alloc, moment, first + 1)?;
            let high = operated(alloc, Operator::Multiply, Quantity::Literal(256), high)?;
            Ok(Some(operated(alloc, Operator::Add, low, high)?))
        }
        AreaKind::Bytes => Ok(None),
    }
}

/// What a name alone stands for: a bound name, an area, or a name of the assembler. The last two have no value at entry.
fn named(
    alloc: Global,
    scope: &Scope<'_>,
    bound: &Bound<'_>,
    moment: Moment,
    name: &Name,
) -> Result<Option<Quantity>, Memory>
    ensures { IfOk result (λ q. option_map quantity_of q
        ≡ named (meanings_in scope.now.areas.entries scope.now.names.now.entries) (bound_of bound.now) (moment_of moment) name.now) }
{
    let now = moment == Moment::Now;
    if is_bound(bound, name) {
        return Ok(if now {
            Some(Quantity::Bound(*name))
        } else {
            None
        });
    }
    if let Some(area) = scope.areas.get(name) {
        return content(alloc, moment, *area);
    }
    match scope.names.get(name) {
        Some(value) if now => Ok(Some(Quantity::Literal(u64::from(*value)))),
        _ => Ok(None),
    }
}

/// A cell of an area by its number.
fn element(
    alloc: Global,
    moment: Moment,
    area: Area,
    number: Quantity,
) -> Result<Option<Quantity>, Memory>
    ensures { IfOk result (λ q. option_map quantity_of q ≡ element (moment_of moment) area.kind area.addr (quantity_of number)) }
{
    match area.kind {
        AreaKind::Bytes => {
            let first = Quantity::Literal(u64::from(area.addr));
            let at = operated(alloc, Operator::Add, first, number)?;
            Ok(Some(Quantity::Cell(moment, Box::new(alloc, at)?)))
        }
        AreaKind::Byte | AreaKind::Word => Ok(None),
    }
}

/// What stands in an annotation for a number, with its names resolved, if they have meanings.
pub(crate) fn number(
    alloc: Global,
    scope: &Scope<'_>,
    bound: &Bound<'_>,
    raw: &RawNote,
) -> Result<Option<Quantity>, Memory>
    ensures { IfOk result (λ q. option_map quantity_of q
        ≡ number (meanings_in scope.now.areas.entries scope.now.names.now.entries) (bound_of bound.now) (raw_of raw.now)) }
{
    match raw {
        RawNote::Literal(n) => Ok(Some(Quantity::Literal(*n))),
        RawNote::Location(moment, x) => Ok(Some(Quantity::Location(*moment, *x))),
        RawNote::Pair(moment, pair) => Ok(Some(Quantity::Pair(*moment, *pair))),
        RawNote::StackWord(k) => Ok(Some(Quantity::StackWord(*k))),
        RawNote::Named(moment, name) => named(alloc, scope, bound, *moment, name),
        RawNote::Address(name) => match area_named(scope, bound, name) {
            Some(area) => Ok(Some(Quantity::Literal(u64::from(area.addr)))),
            None => Ok(None),
        },
        RawNote::Length(name) => match area_named(scope, bound, name) {
            Some(area) => Ok(Some(Quantity::Literal(u64::from(area.len)))),
            None => Ok(None),
        },
        RawNote::Cell(moment, x) => match number(alloc, scope, bound, x)? {
            Some(x) => Ok(Some(Quantity::Cell(*moment, Box::new(alloc, x)?))),
            None => Ok(None),
        },
        RawNote::Element(moment, name, x) => {
            let Some(area) = area_named(scope, bound, name) else {
                return Ok(None);
            };
            match number(alloc, scope, bound, x)? {
                Some(x) => element(alloc, *moment, area, x),
                None => Ok(None),
            }
        }
        RawNote::Negative(x) => match number(alloc, scope, bound, x)? {
            Some(x) => Ok(Some(Quantity::Negative(Box::new(alloc, x)?))),
            None => Ok(None),
        },
        RawNote::Parity(x) => match number(alloc, scope, bound, x)? {
            Some(x) => Ok(Some(Quantity::Parity(Box::new(alloc, x)?))),
            None => Ok(None),
        },
        RawNote::Total(moment, x, y) => {
            let Some(left) = number(alloc, scope, bound, x)? else {
                return Ok(None);
            };
            let Some(right) = number(alloc, scope, bound, y)? else {
                return Ok(None);
            };
            let left = Box::new(alloc, left)?;
            let right = Box::new(alloc, right)?;
            Ok(Some(Quantity::Total(*moment, left, right)))
        }
        RawNote::Operate(operator, x, y) => {
            let Some(left) = number(alloc, scope, bound, x)? else {
                return Ok(None);
            };
            let Some(right) = number(alloc, scope, bound, y)? else {
                return Ok(None);
            };
            Ok(Some(operated(alloc, *operator, left, right)?))
        }
        _ => Ok(None),
    }
}

/// Two numbers with their names resolved, if all have meanings.
fn both_numbers(
    alloc: Global,
    scope: &Scope<'_>,
    bound: &Bound<'_>,
    left: &RawNote,
    right: &RawNote,
) -> Result<Option<Two>, Memory>
    ensures { IfOk result (λ o. option_map two_of o
        ≡ pair (number (meanings_in scope.now.areas.entries scope.now.names.now.entries) (bound_of bound.now) (raw_of left.now))
        (number (meanings_in scope.now.areas.entries scope.now.names.now.entries) (bound_of bound.now) (raw_of right.now))) }
{
    let Some(left) = number(alloc, scope, bound, left)? else {
        return Ok(None);
    };
    let Some(right) = number(alloc, scope, bound, right)? else {
        return Ok(None);
    };
    Ok(Some(Two { left, right }))
}

/// An annotation with its names resolved, if they have meanings.
pub(crate) fn condition(
    alloc: Global,
    scope: &Scope<'_>,
    bound: &Bound<'_>,
    raw: &RawNote,
) -> Result<Option<Note>, Memory>
    ensures { IfOk result (λ q. option_map note_of q
        ≡ condition (meanings_in scope.now.areas.entries scope.now.names.now.entries) (bound_of bound.now) (raw_of raw.now)) }
{
    match raw {
        RawNote::Constant(truth) => Ok(Some(Note::Constant(*truth))),
        RawNote::Compare(comparison, x, y) => match both_numbers(alloc, scope, bound, x, y)? {
            Some(Two { left, right }) => Ok(Some(Note::Compare(*comparison, left, right))),
            None => Ok(None),
        },
        RawNote::Not(p) => match condition(alloc, scope, bound, p)? {
            Some(p) => Ok(Some(Note::Not(Box::new(alloc, p)?))),
            None => Ok(None),
        },
        RawNote::Connect(connective, p, q) => {
            let Some(p) = condition(alloc, scope, bound, p)? else {
                return Ok(None);
            };
            let Some(q) = condition(alloc, scope, bound, q)? else {
                return Ok(None);
            };
            let p = Box::new(alloc, p)?;
            let q = Box::new(alloc, q)?;
            Ok(Some(Note::Connect(*connective, p, q)))
        }
        RawNote::Quantify(quantifier, name, x, y, p) => {
            let Some(Two { left, right }) = both_numbers(alloc, scope, bound, x, y)? else {
                return Ok(None);
            };
            let inner = Bound::Inner(name, bound);
            let Some(p) = condition(alloc, scope, &inner, p)? else {
                return Ok(None);
            };
            let p = Box::new(alloc, p)?;
            Ok(Some(Note::Quantify(*quantifier, *name, left, right, p)))
        }
        _ => Ok(None),
    }
}
