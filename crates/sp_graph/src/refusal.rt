ghost use Rattle.std.specs.Prelude.{◌≡◌};
ghost use Rattle.sp_graph.specs.declared.refusal.WalksRefusal.TheVariants as refusal;

use sp_base::Memory;
use std::alloc::{AllocError, AllocFailed};
use thiserror::Error;

/// Why the walks of a routine aren't given.
#[derive(Clone, Copy, Debug, PartialEq, Eq, Error)]
pub enum WalksRefusal {
    /// There are so many, more than 65,536, counted up to the greatest u64.
    #[error("more walks than a routine may have")]
    TooMany(u64),
    #[error("out of memory")]
    Memory,
}

impl From<Memory> for WalksRefusal {
    ghost from_gives = { λ _ e. e ≡ refusal.Memory };

    fn from(_: Memory) -> WalksRefusal {
        WalksRefusal::Memory
    }
}

impl From<AllocError> for WalksRefusal {
    ghost from_gives = { λ _ e. e ≡ refusal.Memory };

    fn from(_: AllocError) -> WalksRefusal {
        WalksRefusal::Memory
    }
}

impl<T: Drop> From<AllocFailed<T>> for WalksRefusal {
    ghost from_gives = { λ _ e. e ≡ refusal.Memory };

    fn from(_: AllocFailed<T>) -> WalksRefusal {
        WalksRefusal::Memory
    }
}
