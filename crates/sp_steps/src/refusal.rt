ghost use Rattle.std.specs.Prelude.{◌≡◌};
ghost use Rattle.sp_steps.specs.declared.refusal.RuleRefusal.TheVariants as refusal;

use thiserror::Error;

/// Why a rule's call gives no subgoals.
#[derive(Clone, Copy, Debug, PartialEq, Eq, Error)]
pub enum RuleRefusal {
    /// The rule doesn't apply to what stands there.
    #[error("the rule doesn't apply")]
    NoApply,
    /// Memory ran out.
    #[error("out of memory")]
    Memory,
}

impl From<sp_base::Memory> for RuleRefusal {
    ghost from_gives = { λ _ r. r ≡ refusal.Memory };

    fn from(_: sp_base::Memory) -> Self {
        RuleRefusal::Memory
    }
}
