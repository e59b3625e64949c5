//! Whether the numbers of a note's parts are bounded.
ghost use Rattle.std.specs.Prelude.{◌^◌, ◌<◌, ◌↔◌, IsTrue, [], ◌≡◌};
ghost use Rattle.sp_logic.specs.View.{note_of, operator_of};
ghost use Rattle.sp_eval.specs.Wide.{IsNarrow, NoteIsBelow, bound_of_name, operator_bound};
ghost use Rattle.sp_eval.specs.code.Narrow.{bounds_of, IsBound, HasBound};

use sp_base::{Loc, Name};
use sp_logic::{Note, Operator, Quantity};

/// What each bound has to be below.
const TOP: u128 = 1 << 101;

/// The bound names round a part of a note with the bounds of their numbers, the innermost first.
#[derive(Clone, Copy)]
enum NameBounds<'a> {
    Empty,
    Inner(&'a Name, u128, &'a NameBounds<'a>),
}

fn name_bound(names: &NameBounds<'_>, name: &Name) -> u128
    ensures { result ≡ bound_of_name (bounds_of names.now) name.now }
{
    match names {
        NameBounds::Empty => 0,
        NameBounds::Inner(bound, n, outer) => {
            if *bound == name {
                *n
            } else {
                name_bound(outer, name)
            }
        }
    }
}

/// The bound itself, None from 2 to the power 101 on.
fn below(bound: u128) -> Option<u128>
    ensures { IsBound result bound }
{
    if bound < TOP { Some(bound) } else { None }
}

fn operator_bound(operator: Operator, x: u128, y: u128) -> Option<u128>
    requires left { x < 2 ^ 101 }
    requires right { y < 2 ^ 101 }
    ensures { IsBound result (operator_bound (operator_of operator) x y) }
{
    match operator {
        Operator::Add | Operator::Subtract => below(x + y),
        Operator::Multiply => below(x.checked_mul(y)?),
        Operator::Divide => Some(x),
        Operator::Modulo => Some(y),
        Operator::BitAnd | Operator::BitOr | Operator::BitXor => Some(255),
    }
}

/// The bound of a quantity, None where that of some part is 2 to the power 101 or more.
fn bound_of(names: &NameBounds<'_>, quantity: &Quantity) -> Option<u128>
    ensures { HasBound names.now quantity.now result }
{
    match quantity {
        Quantity::Literal(n) => Some(u128::from(*n)),
        Quantity::Location(_, Loc::S | Loc::Z | Loc::Ac | Loc::P | Loc::Cy) => Some(1),
        Quantity::Location(..) => Some(255),
        Quantity::Pair(..) | Quantity::StackWord(_) => Some(65_535),
        Quantity::Cell(_, address) => {
            bound_of(names, address)?;
            Some(255)
        }
        Quantity::Total(_, first, last) => {
            bound_of(names, first)?;
            bound_of(names, last)?;
            Some(16_711_680)
        }
        Quantity::Negative(part) => bound_of(names, part),
        Quantity::Parity(part) => {
            bound_of(names, part)?;
            Some(1)
        }
        Quantity::Operate(operator, first, second) => {
            let x = bound_of(names, first)?;
            let y = bound_of(names, second)?;
            operator_bound(*operator, x, y)
        }
        Quantity::Bound(name) => below(name_bound(names, name)),
    }
}

fn note_is_below<'a>(names: &'a NameBounds<'a>, note: &'a Note) -> bool
    ensures { IsTrue result ↔ NoteIsBelow (2 ^ 101) (bounds_of names.now) (note_of note.now) }
{
    match note {
        Note::Constant(_) => true,
        Note::Compare(_, first, second) => {
            bound_of(names, first).is_some() && bound_of(names, second).is_some()
        }
        Note::Not(part) => note_is_below(names, part),
        Note::Connect(_, first, second) => {
            note_is_below(names, first) && note_is_below(names, second)
        }
        Note::Quantify(_, name, first, last, part) => {
            let (Some(x), Some(y)) = (bound_of(names, first), bound_of(names, last)) else {
                return false;
            };
            let inner = NameBounds::Inner(name, x.max(y), names);
            note_is_below(&inner, part)
        }
    }
}

/// Whether no part of a note has a bound of 2 to the power 101 or more: whether `holds` may be asked.
pub fn is_narrow(note: &Note) -> bool
    ensures { IsTrue result ↔ IsNarrow (note_of note.now) }
{
    note_is_below(&NameBounds::Empty, note)
}
