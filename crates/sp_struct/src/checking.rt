ghost use Rattle.std.specs.Prelude.{◌≡◌, ◌≢◌, ◌+◌};
ghost use Rattle.sp_base.specs.Refused.{Answers, IsComplete};
ghost use Rattle.sp_graph.specs.SoundUnits.{IsSoundOf};
ghost use Rattle.sp_struct.specs.Kinds.{IsLowestLine, IsLowestDifference};
ghost use Rattle.sp_struct.specs.Refusals.{BreaksRule, IsRefusedAt, rank};
ghost use Rattle.sp_struct.specs.code.Kept.{AreKept};
ghost use Rattle.sp_struct.specs.code.Levels.{AreLevels};
ghost use Rattle.sp_struct.specs.declared.refusal.StructKind.TheVariants as kind;

use crate::depths::sound_of;
use crate::differences::{Difference, lowest_difference};
use crate::finding::lowest;
use crate::headers::lowest_over_depth;
use crate::loops::lowest_loop;
use crate::recursion::lowest_recursion;
use crate::refusal::{StructKind, StructRefusal};
use crate::rules::Rule;
use crate::slots::lowest_slot;
use crate::stack::Levels;
use crate::unit_levels::all_levels;
use sp_base::{Line, Refused};
use sp_graph::Sound;
use sp_prog::Unit;
use std::alloc::Global;

/// Refuses a unit on the lowest line where a rule is broken, if there is one.
fn refuse(unit: &Unit, best: Option<Line>, kind: StructKind) -> Result<(), StructRefusal>
    requires lowest { IsLowestLine (BreaksRule unit.now kind) best }
    requires plain { rank kind ≢ 7 }
    requires kept { AreKept unit.now (rank kind) }
    ensures { Answers (λ _. AreKept unit.now (rank kind + 1)) (IsRefusedAt unit.now) result }
{
    let _ = unit;
    match best {
        Some(line) => Err(Refused::At(line, kind)),
        None => Ok(()),
    }
}

/// The kind of two depths that differ.
fn depth_kind(found: Difference) -> StructKind
    ensures { result ≡ kind.Depth found.after found.other }
{
    StructKind::Depth(found.after, found.other)
}

/// Refuses a unit on the lowest line where depths differ, if there is one.
fn refuse_difference(unit: &Unit, best: Option<Difference>) -> Result<(), StructRefusal>
    requires lowest { IsLowestDifference unit.now best }
    requires kept { AreKept unit.now 7 }
    ensures { Answers (λ _. AreKept unit.now 8) (IsRefusedAt unit.now) result }
{
    let _ = unit;
    match best {
        Some(found) => Err(Refused::At(found.line, depth_kind(found))),
        None => Ok(()),
    }
}

/// The rules on where control goes.
fn check_control(alloc: Global, unit: &Unit, all: &[Levels]) -> Result<(), StructRefusal>
    requires { AreLevels unit.now all.now }
    ensures { Answers (λ _. AreKept unit.now 7) (IsRefusedAt unit.now) result }
{
    refuse(unit, lowest(unit, all, Rule::JumpOut), StructKind::JumpOut)?;
    refuse(
        unit,
        lowest(unit, all, Rule::FallsOff),
        StructKind::FallsOff,
    )?;
    refuse(unit, lowest(unit, all, Rule::CallOut), StructKind::CallOut)?;
    refuse(unit, lowest_recursion(alloc, unit)?, StructKind::Recursion)?;
    refuse(
        unit,
        lowest(unit, all, Rule::Computed),
        StructKind::Computed,
    )?;
    refuse(
        unit,
        lowest(unit, all, Rule::StackPointer),
        StructKind::StackPointer,
    )?;
    refuse(
        unit,
        lowest(unit, all, Rule::Unreached),
        StructKind::Unreached,
    )
}

/// The rules on the stack, on loops and on stores.
fn check_stack(alloc: Global, unit: &Unit, all: &[Levels]) -> Result<(), StructRefusal>
    requires levels { AreLevels unit.now all.now }
    requires kept { AreKept unit.now 7 }
    ensures { Answers (λ _. AreKept unit.now 14) (IsRefusedAt unit.now) result }
{
    refuse_difference(unit, lowest_difference(alloc, unit, all)?)?;
    refuse(
        unit,
        lowest(unit, all, Rule::PopsReturn),
        StructKind::PopsReturn,
    )?;
    refuse(unit, lowest_over_depth(unit, all), StructKind::OverDepth)?;
    refuse(unit, lowest_slot(unit, all), StructKind::NoSlot)?;
    refuse(unit, lowest_loop(alloc, unit)?, StructKind::UncutLoop)?;
    refuse(
        unit,
        lowest(unit, all, Rule::ReturnInStart),
        StructKind::ReturnInStart,
    )?;
    refuse(
        unit,
        lowest(unit, all, Rule::CodeWritten),
        StructKind::CodeWritten,
    )
}

/// The depths of a unit's instructions, where no rule is broken.
fn checked(alloc: Global, unit: &Unit) -> Result<Sound, StructRefusal>
    ensures { Answers (IsSoundOf unit.now) (IsRefusedAt unit.now) result }
{
    let all = all_levels(alloc, unit)?;
    check_control(alloc, unit, &all)?;
    check_stack(alloc, unit, &all)?;
    Ok(sound_of(alloc, unit, &all)?)
}

/// Checks the structure of a unit: the depths of its instructions, or the first rule that is broken, on its lowest line.
/// The rules count in the order of [`StructKind`] over the whole unit.
pub fn check(alloc: Global, unit: &Unit) -> Result<Sound, StructRefusal>
    ensures right { Answers (IsSoundOf unit.now) (IsRefusedAt unit.now) result }
    // Each unit that breaks no rule is answered by its depths, and each other one is refused, unless memory runs out.
    ensures complete { IsComplete (IsSoundOf unit.now) (IsRefusedAt unit.now) result }
{
    let _last = unit.last;
    let told = checked(alloc, unit);
    told
}
