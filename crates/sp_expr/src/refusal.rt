ghost use Rattle.std.specs.Prelude.{◌≡◌};
ghost use Rattle.sp_expr.specs.declared.refusal.ParseRefusal.TheVariants as parse;

use sp_base::{Memory, Name};
use std::alloc::{AllocError, AllocFailed};
use thiserror::Error;

/// Why tokens are no expression.
#[derive(Clone, Copy, Debug, PartialEq, Eq, Error)]
pub enum ParseRefusal {
    /// The tokens aren't in the grammar, even without its limit on nesting.
    #[error("not an expression")]
    Syntax,
    /// More than 64 parentheses and NOTs are nested.
    #[error("an expression that nests too deep")]
    TooDeep,
    #[error("out of memory")]
    Memory,
}

impl From<Memory> for ParseRefusal {
    ghost from_gives = { λ _ e. e ≡ parse.Memory };

    fn from(_: Memory) -> ParseRefusal {
        ParseRefusal::Memory
    }
}

impl From<AllocError> for ParseRefusal {
    ghost from_gives = { λ _ e. e ≡ parse.Memory };

    fn from(_: AllocError) -> ParseRefusal {
        ParseRefusal::Memory
    }
}

impl<T: Drop> From<AllocFailed<T>> for ParseRefusal {
    ghost from_gives = { λ _ e. e ≡ parse.Memory };

    fn from(_: AllocFailed<T>) -> ParseRefusal {
        ParseRefusal::Memory
    }
}

/// Why an expression has no value.
#[derive(Clone, Copy, Debug, Error)]
pub enum ExprRefusal {
    /// The leftmost name without a value.
    #[error("an undefined name")]
    Undefined(Name),
    /// A division or MOD by zero, where all names have values.
    #[error("a division by zero")]
    ZeroDivisor,
}
