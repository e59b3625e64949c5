ghost use Rattle.std.specs.Prelude.{◌≡◌};
ghost use Rattle.sp_trial.specs.declared.outcome.TrialRefusal.TheVariants as refusal;

use sp_base::{Line, Memory};
use std::alloc::{AllocError, AllocFailed};
use thiserror::Error;

/// How a trial ends.
#[derive(Clone, Copy, Debug, PartialEq, Eq)]
pub enum Outcome {
    /// The start is no entry of the routine.
    NoEntry,
    /// All steps that were asked for were taken.
    Running,
    /// The routine returned, and its postconditions are true.
    Returned,
    /// A HLT ran.
    Halted,
    /// This byte begins no instruction.
    Stuck(u8),
    /// The annotation on this line is false.
    Broken(Line),
}

/// The outcome of a trial, and how many steps were taken.
#[derive(Clone, Copy, Debug, PartialEq, Eq)]
pub struct Trial {
    pub outcome: Outcome,
    pub steps: u64,
}

/// Why a trial has no outcome.
#[derive(Clone, Copy, Debug, PartialEq, Eq, Error)]
pub enum TrialRefusal {
    /// The evaluation of an annotation passes the budget; this is the budget and 1.
    #[error("an annotation has too many nodes")]
    TooLong(u64),
    #[error("out of memory")]
    Memory,
}

impl From<Memory> for TrialRefusal {
    ghost from_gives = { λ _ e. e ≡ refusal.Memory };

    fn from(_: Memory) -> TrialRefusal {
        TrialRefusal::Memory
    }
}

impl From<AllocError> for TrialRefusal {
    ghost from_gives = { λ _ e. e ≡ refusal.Memory };

    fn from(_: AllocError) -> TrialRefusal {
        TrialRefusal::Memory
    }
}

impl<T: Drop> From<AllocFailed<T>> for TrialRefusal {
    ghost from_gives = { λ _ e. e ≡ refusal.Memory };

    fn from(_: AllocFailed<T>) -> TrialRefusal {
        TrialRefusal::Memory
    }
}
