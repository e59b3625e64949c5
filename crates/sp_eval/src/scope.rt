ghost use Rattle.std.specs.Prelude.{◌≡◌};
ghost use Rattle.sp_model.specs.Note.{bound_value};
ghost use Rattle.sp_eval.specs.code.Scope.{bindings_of};

use sp_base::Name;

/// The bound names round a part of a note with their numbers, the innermost first.
#[derive(Clone, Copy)]
pub enum Scope<'a> {
    Empty,
    Inner(&'a Name, i128, &'a Scope<'a>),
}

/// The number of a bound name, 0 for a name that no quantifier binds.
pub fn number_of(scope: &Scope<'_>, name: &Name) -> i128
    ensures { result ≡ bound_value (bindings_of scope.now) name.now }
{
    match scope {
        Scope::Empty => 0,
        Scope::Inner(bound, number, outer) => {
            if *bound == name {
                *number
            } else {
                number_of(outer, name)
            }
        }
    }
}
