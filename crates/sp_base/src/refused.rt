ghost use Rattle.std.specs.Prelude.{◌≡◌, ⊤};
ghost use Rattle.sp_base.specs.declared.refused.Refused.TheVariants as refused;

use crate::{Line, Memory as OutOfMemory};
use std::alloc::{AllocError, AllocFailed};

/// Why a layer gives nothing: the lowest line that breaks a rule, with how it breaks it, or want of memory.
/// Line 0 stands for the whole text. A layer names its kinds once, as in `pub type HexRefusal = Refused<HexKind>;`.
#[derive(Clone, Copy, Debug, PartialEq, Eq)]
pub enum Refused<K> {
    /// This line breaks a rule, in this way.
    At(Line, K),
    /// Memory ran out. No contract ties it to a cause.
    Memory,
}

impl<K> From<OutOfMemory> for Refused<K> {
    ghost from_gives = { λ _ e. e ≡ refused.Memory };

    fn from(_: OutOfMemory) -> Self {
        Refused::Memory
    }
}

impl<K> From<AllocError> for Refused<K> {
    ghost from_gives = { λ _ e. e ≡ refused.Memory };

    fn from(_: AllocError) -> Self {
        Refused::Memory
    }
}

impl<K, T: Drop> From<AllocFailed<T>> for Refused<K> {
    ghost from_gives = { λ _ e. e ≡ refused.Memory };

    fn from(_: AllocFailed<T>) -> Self {
        Refused::Memory
    }
}

impl<J> Refused<J> {
    ghost use Rattle.sp_base.specs.Refused.{HasKindBy};

    /// The same refusal, with its kind as the layer above names it.
    pub fn with_kind<K: From<J>>(self) -> Refused<K>
        ensures { HasKindBy K.from_gives self result }
    {
        match self {
            Refused::At(line, kind) => Refused::At(line, K::from(kind)),
            Refused::Memory => Refused::Memory,
        }
    }
}
