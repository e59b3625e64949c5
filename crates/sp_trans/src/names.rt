//! Bound names and their numbers.
ghost use Rattle.std.specs.Prelude.{◌≡◌, ◌+◌, length, IfOk};
ghost use Rattle.sp_trans.specs.Formulas.{name_number};
ghost use Rattle.sp_trans.specs.code.Names.{names_of, AreNumbered};

use sp_base::{Memory, Name};

/// The names of the quantifiers round a part of a note with their numbers, the innermost first.
#[derive(Clone, Copy)]
pub enum Names<'a> {
    Empty,
    Inner(&'a Name, u32, &'a Names<'a>),
}

/// The number of a bound name, 0 for a name that no quantifier binds.
pub fn name_number(names: &Names<'_>, name: &Name) -> u32
    requires { AreNumbered names.now }
    ensures { result ≡ name_number (names_of names.now) name.now }
{
    match names {
        Names::Empty => 0,
        Names::Inner(bound, number, outer) => {
            if *bound == name {
                *number
            } else {
                name_number(outer, name)
            }
        }
    }
}

/// The number of one more quantifier inside these. A note with as many as a `u32` can't count doesn't fit into memory.
pub fn inner_number(names: &Names<'_>) -> Result<u32, Memory>
    requires { AreNumbered names.now }
    ensures { IfOk result (λ n. n ≡ length (names_of names.now) + 1) }
{
    match names {
        Names::Empty => Ok(1),
        Names::Inner(_, number, _) => match number.checked_add(1) {
            Some(inner) => Ok(inner),
            None => Err(Memory),
        },
    }
}
