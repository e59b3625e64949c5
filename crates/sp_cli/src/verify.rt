//! `verify`: what it makes of a source and scripts.
ghost use Rattle.std.specs.Prelude.{◌≡◌, IsErrOf, IfOk, Err};
ghost use Rattle.sp_base.specs.Files.{Rose};
ghost use Rattle.sp_hex.specs.Hex.{text, StandsFor};
ghost use Rattle.sp_first.specs.Counts.{AreCounts};
ghost use Rattle.sp_cli.specs.Command.{read_names};
ghost use Rattle.sp_cli.specs.Stages.{RefusesProgram};
ghost use Rattle.sp_cli.specs.Texts.{accepted_text};
ghost use Rattle.sp_cli.specs.code.Made.{IsProduct, IsRefusal, OnlyRead, AddsReads, IsVerified};
ghost use Rattle.sp_cli.specs.code.Views.{verify_of};

use crate::command::Verify;
use crate::inputs::read_input;
use crate::product::Product;
use crate::refusal::{Input, Stop};
use crate::texts::accepted_line;
use sp_base::{Files, Memory};
use sp_first::Accepted;
use std::alloc::Global;

/// The text of an accepted image, and the report.
fn product_of(alloc: Global, accepted: &Accepted) -> Result<Product, Memory>
    ensures stands { IfOk result (λ _. StandsFor (text accepted.now.image) accepted.now.image) }
    ensures image { IfOk result (λ p. p.image.items ≡ text accepted.now.image) }
    ensures report { IfOk result (λ p. p.report.items ≡ accepted_text accepted.now.routines accepted.now.conditions accepted.now.simplified accepted.now.scripted) }
{
    let image = sp_hex::write(alloc, &accepted.image)?;
    let report = accepted_line(
        alloc,
        accepted.routines,
        accepted.conditions,
        accepted.simplified,
        accepted.scripted,
    )?;
    Ok(Product { image, report })
}

/// Verifies a source with its scripts.
fn verification(alloc: Global, source: &[u8], scripts: &[u8]) -> Result<Product, Stop>
    ensures ok { IfOk result (IsVerified source.now scripts.now) }
    ensures refused { (r : _) → result ≡ Err (Stop.Refused r) → RefusesProgram source.now scripts.now r }
    ensures no_fault { ¬ IsErrOf result Stop.Fault }
{
    let accepted = sp_first::verify(alloc, source, scripts)?;
    Ok(product_of(alloc, &accepted)?)
}

/// Reads the inputs of `verify` and verifies them.
pub fn verify_inputs<F: Files>(
    alloc: Global,
    files: &mut F,
    names: Verify<'_>,
) -> Result<Product, Stop>
    ensures ok { IfOk result (IsProduct (F.store files.old) (verify_of names.entry)) }
    ensures refused { (r : _) → result ≡ Err (Stop.Refused r) → IsRefusal (F.store files.old) (verify_of names.entry) r }
    ensures fault { IsErrOf result Stop.Fault → Rose (F.store files.old).read_faults (F.store files.new).read_faults }
    ensures kept { OnlyRead (F.store files.old) (F.store files.new) }
    ensures calls { AddsReads (read_names (verify_of names.entry)) result (F.store files.old).calls (F.store files.new).calls }
{
    let source = read_input(alloc, files, Input::Source, names.source)?;
    let scripts = read_input(alloc, files, Input::Scripts, names.scripts)?;
    verification(alloc, &source, &scripts)
}
