ghost use Rattle.std.specs.Prelude.{◌≡◌};
ghost use Rattle.sp_script_text.specs.declared.refusal.StepRefusal.TheVariants as refusal;
ghost use Rattle.sp_script_text.specs.code.Refusals.{step_refusal};

use sp_base::{Memory as OutOfMemory, Refused};
use sp_fdl::FdlRefusal;
use std::alloc::{AllocError, AllocFailed};
use thiserror::Error;

/// How a line of a script file is wrong.
#[derive(Clone, Copy, Debug, PartialEq, Eq)]
pub enum ScriptKind {
    /// The line isn't in the grammar. A file that ends inside a script has this on the line after the last one.
    Syntax,
    /// The line begins a second script for one condition.
    Duplicate,
}

/// Why a text isn't read as scripts: a line that is wrong, or want of memory.
pub type ReadScripts = Refused<ScriptKind>;

/// Why a line isn't read as a step.
#[derive(Clone, Copy, Debug, PartialEq, Eq, Error)]
pub enum StepRefusal {
    /// It isn't in the grammar.
    #[error("not a step")]
    Syntax,
    /// Memory ran out.
    #[error("out of memory")]
    Memory,
}

impl From<OutOfMemory> for StepRefusal {
    ghost from_gives = { λ _ e. e ≡ refusal.Memory };

    fn from(_: OutOfMemory) -> StepRefusal {
        StepRefusal::Memory
    }
}

impl From<AllocError> for StepRefusal {
    ghost from_gives = { λ _ e. e ≡ refusal.Memory };

    fn from(_: AllocError) -> StepRefusal {
        StepRefusal::Memory
    }
}

impl<T: Drop> From<AllocFailed<T>> for StepRefusal {
    ghost from_gives = { λ _ e. e ≡ refusal.Memory };

    fn from(_: AllocFailed<T>) -> StepRefusal {
        StepRefusal::Memory
    }
}

impl From<FdlRefusal> for StepRefusal {
    ghost from_gives = { λ low high. high ≡ step_refusal low };

    fn from(refusal: FdlRefusal) -> StepRefusal {
        match refusal {
            FdlRefusal::Syntax => StepRefusal::Syntax,
            FdlRefusal::Memory => StepRefusal::Memory,
        }
    }
}
