//! `run`: what it makes of the text of an image and option words.
ghost use Rattle.std.specs.Prelude.{◌≡◌, IsErrOf, IsSome, IfOk, Err, ◌<◌, length};
ghost use Rattle.sp_base.specs.Files.{Rose};
ghost use Rattle.sp_run.specs.Options.{options_of};
ghost use Rattle.sp_cli.specs.Command.{words_of, read_names};
ghost use Rattle.sp_cli.specs.code.Made.{IsProduct, IsRefusal, OnlyRead, AddsReads, RefusesText, IsRunOf, IsRunOfText};
ghost use Rattle.sp_cli.specs.code.Views.{run_of};

use crate::command::Run;
use crate::inputs::read_input;
use crate::product::Product;
use crate::refusal::{Input, Stop};
use sp_base::{Files, Image, Memory};
use std::alloc::Global;

/// The text of the run of an image under option words.
fn product_of(alloc: Global, image: &Image, options: &[String]) -> Result<Product, Memory>
    requires { IsSome (options_of (words_of options.now)) }
    ensures { IfOk result (λ p. IsRunOf (words_of options.now) image.now p.report.items) }
{
    let options = sp_run::read_options(alloc, options)?;
    let report = sp_run::run(alloc, image, &options)?;
    Ok(Product {
        image: Vec::new(alloc),
        report,
    })
}

/// What `run` makes of the text of its image.
fn simulation(alloc: Global, text: &[u8], options: &[String]) -> Result<Product, Stop>
    requires short { length text.now < 4294967295 }
    requires form { IsSome (options_of (words_of options.now)) }
    ensures ok { IfOk result (IsRunOfText text.now (words_of options.now)) }
    ensures refused { (r : _) → result ≡ Err (Stop.Refused r) → RefusesText text.now r }
    ensures no_fault { ¬ IsErrOf result Stop.Fault }
{
    let image = sp_hex::read(alloc, text)?;
    Ok(product_of(alloc, &image, options)?)
}

/// Reads the image of `run` and runs it.
pub fn run_input<F: Files>(alloc: Global, files: &mut F, names: Run<'_>) -> Result<Product, Stop>
    requires { IsSome (options_of (words_of names.options.now)) }
    ensures ok { IfOk result (IsProduct (F.store files.old) (run_of names.entry)) }
    ensures refused { (r : _) → result ≡ Err (Stop.Refused r) → IsRefusal (F.store files.old) (run_of names.entry) r }
    ensures fault { IsErrOf result Stop.Fault → Rose (F.store files.old).read_faults (F.store files.new).read_faults }
    ensures kept { OnlyRead (F.store files.old) (F.store files.new) }
    ensures calls { AddsReads (read_names (run_of names.entry)) result (F.store files.old).calls (F.store files.new).calls }
{
    let text = read_input(alloc, files, Input::Image, names.image)?;
    simulation(alloc, &text, names.options)
}
