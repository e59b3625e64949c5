ghost use Rattle.std.specs.Prelude.{◌≡◌};
ghost use Rattle.sp_fdl.specs.declared.refusal.FdlRefusal.TheVariants.{Memory};

use thiserror::Error;

/// Why a text isn't read as a term.
#[derive(Clone, Copy, Debug, PartialEq, Eq, Error)]
pub enum FdlRefusal {
    /// It isn't in the grammar.
    #[error("not a term")]
    Syntax,
    /// Memory ran out.
    #[error("out of memory")]
    Memory,
}

impl From<sp_base::Memory> for FdlRefusal {
    ghost from_gives = { λ _ refusal. refusal ≡ Memory };

    fn from(_: sp_base::Memory) -> Self {
        FdlRefusal::Memory
    }
}
