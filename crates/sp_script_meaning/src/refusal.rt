ghost use Rattle.std.specs.Prelude.{◌≡◌};
ghost use Rattle.sp_script_meaning.specs.declared.refusal.ScriptRefusal.TheVariants as refusal;

use sp_base::{Line, Memory as OutOfMemory};
use sp_script_text::Rule;
use thiserror::Error;

/// A script has shown its condition.
#[derive(Clone, Copy, Debug, PartialEq, Eq)]
pub struct Proved;

/// Why a script doesn't show its condition.
#[derive(Clone, Copy, Debug, PartialEq, Eq, Error)]
pub enum ScriptRefusal {
    /// The step on this line, of this rule, doesn't apply to what stands there. It is the first such.
    #[error("the step doesn't apply")]
    Step(Line, Rule),
    /// All steps apply, and a subgoal is left. The line is that of `end`.
    #[error("a goal is left")]
    Unfinished(Line),
    /// Memory ran out.
    #[error("out of memory")]
    Memory,
}

impl From<OutOfMemory> for ScriptRefusal {
    ghost from_gives = { λ _ e. e ≡ refusal.Memory };

    fn from(_: OutOfMemory) -> ScriptRefusal {
        ScriptRefusal::Memory
    }
}
