ghost use Rattle.std.specs.Prelude.{◌≡◌, ℕ, List, [], IfOk, IsErrOf, Err};
ghost use Rattle.sp_first.specs.Counts.{HasCounts};
ghost use Rattle.sp_first.specs.Right.{IsTheImage, HasOneReading, IsNotBuilt, IsOpen, IsAccepted};

use crate::image::image_of;
use crate::source::{FormRefusal, read_source};
use crate::verdict::is_met;
use sp_base::{Image, Memory, Name};
use std::alloc::Global;
use thiserror::Error;

/// A source that was verified: its image, and how many routines and conditions it has, how many of these were true by
/// simplification, and how many by a script.
#[derive(Debug, Drop)]
pub struct Accepted {
    pub image: Image,
    pub routines: u32,
    pub conditions: u64,
    pub simplified: u64,
    pub scripted: u64,
}

/// Why a source was not accepted.
#[derive(Clone, Copy, Debug, Error)]
pub enum Refusal {
    /// The source is not of the first form, or there are scripts.
    #[error("not built")]
    NotBuilt,
    /// The condition of this number of the routine of this name is open.
    #[error("open")]
    Open(Name, u64),
    #[error("out of memory")]
    Memory,
}

impl From<Memory> for Refusal {
    ghost use Rattle.std.specs.Prelude.{◌≡◌};
    ghost use Rattle.sp_first.specs.declared.verifier.Refusal.TheVariants as refusal;

    ghost from_gives = { λ _ e. e ≡ refusal.Memory };

    fn from(_: Memory) -> Self {
        Refusal::Memory
    }
}

/// Verifies a source of the first form, which has no scripts. Its one routine has one condition.
pub fn verify(alloc: Global, source: &[u8], scripts: &[u8]) -> Result<Accepted, Refusal>
    ensures right { IfOk result (λ accepted. IsTheImage source.now accepted.image) }
    ensures accepted { IfOk result (λ accepted. IsAccepted source.now scripts.now) }
    ensures counts { IfOk result HasCounts }
    ensures not_built { IsErrOf result Refusal.NotBuilt → IsNotBuilt source.now scripts.now }
    ensures open { (name : List ℕ) (number : ℕ) → result ≡ Err (Refusal.Open name number) → IsOpen source.now scripts.now name × (number ≡ 1) }
{
    if !scripts.is_empty() {
        return Err(Refusal::NotBuilt);
    }
    let source = match read_source(alloc, source) {
        Ok(source) => source,
        Err(FormRefusal::NotFirstForm) => return Err(Refusal::NotBuilt),
        Err(FormRefusal::Memory) => return Err(Refusal::Memory),
    };
    if !is_met(&source) {
        return Err(Refusal::Open(source.name, 1));
    }
    Ok(Accepted {
        image: image_of(alloc, &source.program)?,
        routines: 1,
        conditions: 1,
        simplified: 1,
        scripted: 0,
    })
}

/// Two forms of a source say the same, so that a source has one unit.
pub fn a_source_has_one_reading()
    ensures { HasOneReading }
{}
