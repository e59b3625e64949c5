//! The numbers of quantities.
ghost use Rattle.sp_eval.specs.code.Setting.{HasCores, IsPaid, quantity_value, quantity_nodes, IsSmallQuantity};

use crate::arithmetic::{calculate, count_between, parity};
use crate::memory::{cell_at, total};
use crate::places::{location_value, pair_value, stack_word};
use crate::scope::{Scope, number_of};
use crate::setting::{Setting, machine_at};
use sp_logic::Quantity;

/// The number of a quantity, None where it has more nodes than are left; what it has is taken from these.
pub fn number_at(
    at: &Setting<'_>,
    scope: &Scope<'_>,
    quantity: &Quantity,
    left: &mut u64,
) -> Option<i128>
    requires cores { HasCores at.now }
    requires small { IsSmallQuantity at.now scope.now quantity.now }
    ensures { IsPaid result left.old left.new
        (quantity_nodes at.now scope.now quantity.now) (quantity_value at.now scope.now quantity.now) }
{
    if *left == 0 {
        return None;
    }
    *left -= 1;
    match quantity {
        Quantity::Literal(n) => Some(i128::from(*n)),
        Quantity::Location(moment, location) => {
            Some(i128::from(location_value(machine_at(at, *moment), *location)))
        }
        Quantity::Pair(moment, pair) => {
            Some(i128::from(pair_value(machine_at(at, *moment), *pair)))
        }
        Quantity::Cell(moment, address) => {
            let a = number_at(at, scope, address, left)?;
            Some(i128::from(cell_at(machine_at(at, *moment), at.frame, a)))
        }
        Quantity::StackWord(k) => Some(i128::from(stack_word(at.present, at.frame, *k))),
        Quantity::Total(moment, first, last) => {
            let low = number_at(at, scope, first, left)?;
            let high = number_at(at, scope, last, left)?;
            let count = count_between(low, high);
            if count > u128::from(*left) {
                return None;
            }
            *left -= count as u64;
            Some(i128::from(total(machine_at(at, *moment), at.frame, low, high)))
        }
        Quantity::Negative(part) => Some(-number_at(at, scope, part, left)?),
        Quantity::Parity(part) => Some(parity(number_at(at, scope, part, left)?)),
        Quantity::Operate(operator, first, second) => {
            let x = number_at(at, scope, first, left)?;
            let y = number_at(at, scope, second, left)?;
            Some(calculate(*operator, x, y))
        }
        Quantity::Bound(name) => Some(number_of(scope, name)),
    }
}
