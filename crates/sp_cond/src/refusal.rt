ghost use Rattle.std.specs.Prelude.{◌≡◌};
ghost use Rattle.sp_cond.specs.declared.refusal.CondRefusal.TheVariants as refusal;

use sp_base::Memory;
use std::alloc::{AllocError, AllocFailed};
use thiserror::Error;

/// Why the condition of a walk isn't given.
#[derive(Clone, Copy, Debug, PartialEq, Eq, Error)]
pub enum CondRefusal {
    /// Its formulas have so many nodes together, more than 65,536, counted up to the greatest u64.
    #[error("a condition with too many nodes")]
    TooLarge(u64),
    /// Its deepest formula has this depth, more than 2,000.
    #[error("a condition that is too deep")]
    TooDeep(u32),
    #[error("out of memory")]
    Memory,
}

impl From<Memory> for CondRefusal {
    ghost from_gives = { λ _ e. e ≡ refusal.Memory };

    fn from(_: Memory) -> CondRefusal {
        CondRefusal::Memory
    }
}

impl From<AllocError> for CondRefusal {
    ghost from_gives = { λ _ e. e ≡ refusal.Memory };

    fn from(_: AllocError) -> CondRefusal {
        CondRefusal::Memory
    }
}

impl<T: Drop> From<AllocFailed<T>> for CondRefusal {
    ghost from_gives = { λ _ e. e ≡ refusal.Memory };

    fn from(_: AllocFailed<T>) -> CondRefusal {
        CondRefusal::Memory
    }
}
