//! `asm`: what it makes of a source.
ghost use Rattle.std.specs.Prelude.{◌≡◌, IsErrOf, IfOk, Err, ◌<◌, length};
ghost use Rattle.sp_base.specs.Files.{Rose};
ghost use Rattle.std.specs.FinMap as maps;
ghost use Rattle.sp_hex.specs.Hex.{text, StandsFor};
ghost use Rattle.sp_cli.specs.Command.{read_names};
ghost use Rattle.sp_cli.specs.Texts.{assembled_text};
ghost use Rattle.sp_cli.specs.code.Made.{IsProduct, IsRefusal, OnlyRead, AddsReads, IsAssembled, RefusesSource};
ghost use Rattle.sp_cli.specs.code.Views.{asm_of};

use crate::command::Asm;
use crate::inputs::read_input;
use crate::product::Product;
use crate::refusal::{Input, Stop};
use crate::texts::assembled_line;
use sp_asm::{Listing, assemble};
use sp_base::{Files, Memory};
use std::alloc::Global;

/// The text of an assembled image, and the report.
fn product_of(alloc: Global, listing: &Listing) -> Result<Product, Memory>
    ensures image { IfOk result (λ p. p.image.items ≡ text listing.now.image) }
    ensures stands { IfOk result (λ _. StandsFor (text listing.now.image) listing.now.image) }
    ensures report { IfOk result (λ p. p.report.items ≡ assembled_text (maps.len listing.now.image) (length listing.now.names.entries)) }
{
    let bytes = listing.image.len();
    let image = sp_hex::write(alloc, &listing.image)?;
    let report = assembled_line(alloc, bytes, listing.names.len())?;
    Ok(Product { image, report })
}

/// Assembles a source.
fn assembly(alloc: Global, source: &[u8]) -> Result<Product, Stop>
    requires { length source.now < 4294967295 }
    ensures ok { IfOk result (IsAssembled source.now) }
    ensures refused { (r : _) → result ≡ Err (Stop.Refused r) → RefusesSource source.now r }
    ensures no_fault { ¬ IsErrOf result Stop.Fault }
{
    let lines = sp_lex::lines(alloc, source)?;
    let listing = assemble(alloc, source, &lines)?;
    Ok(product_of(alloc, &listing)?)
}

/// Reads the source of `asm` and assembles it.
pub fn assemble_input<F: Files>(
    alloc: Global,
    files: &mut F,
    names: Asm<'_>,
) -> Result<Product, Stop>
    ensures ok { IfOk result (IsProduct (F.store files.old) (asm_of names.entry)) }
    ensures refused { (r : _) → result ≡ Err (Stop.Refused r) → IsRefusal (F.store files.old) (asm_of names.entry) r }
    ensures fault { IsErrOf result Stop.Fault → Rose (F.store files.old).read_faults (F.store files.new).read_faults }
    ensures kept { OnlyRead (F.store files.old) (F.store files.new) }
    ensures calls { AddsReads (read_names (asm_of names.entry)) result (F.store files.old).calls (F.store files.new).calls }
{
    let source = read_input(alloc, files, Input::Source, names.source)?;
    assembly(alloc, &source)
}
