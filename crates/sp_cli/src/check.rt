//! `check`: what it makes of a source.
ghost use Rattle.std.specs.Prelude.{◌≡◌, IsErrOf, IfOk, Err, ◌<◌, length};
ghost use Rattle.sp_base.specs.Files.{Rose};
ghost use Rattle.sp_check.specs.Units.{instruction_count};
ghost use Rattle.sp_cli.specs.Command.{read_names};
ghost use Rattle.sp_cli.specs.Texts.{sound_text};
ghost use Rattle.sp_cli.specs.code.Made.{IsProduct, IsRefusal, OnlyRead, AddsReads, IsFoundSound, RefusesUnit};
ghost use Rattle.sp_cli.specs.code.Views.{check_of};

use crate::command::Check;
use crate::inputs::read_input;
use crate::product::Product;
use crate::refusal::{Input, Stop};
use crate::texts::sound_line;
use sp_base::{Files, Memory};
use sp_check::{Checked, instruction_count};
use std::alloc::Global;

/// The report on a unit whose structure and flow are right.
fn product_of(alloc: Global, checked: &Checked) -> Result<Product, Memory>
    ensures { IfOk result (λ p. p.report.items
        ≡ sound_text (length checked.now.unit.routines) (instruction_count checked.now.unit)) }
{
    let routines = checked.unit.routines.as_slice().len();
    let report = sound_line(alloc, routines, instruction_count(&checked.unit))?;
    Ok(Product {
        image: Vec::new(alloc),
        report,
    })
}

/// Checks the unit of a source.
fn soundness(alloc: Global, source: &[u8]) -> Result<Product, Stop>
    requires { length source.now < 4294967295 }
    ensures ok { IfOk result (IsFoundSound source.now) }
    ensures refused { (r : _) → result ≡ Err (Stop.Refused r) → RefusesUnit source.now r }
    ensures no_fault { ¬ IsErrOf result Stop.Fault }
{
    let checked = sp_check::check(alloc, source)?;
    Ok(product_of(alloc, &checked)?)
}

/// Reads the source of `check` and checks its unit.
pub fn check_input<F: Files>(
    alloc: Global,
    files: &mut F,
    names: Check<'_>,
) -> Result<Product, Stop>
    ensures ok { IfOk result (IsProduct (F.store files.old) (check_of names.entry)) }
    ensures refused { (r : _) → result ≡ Err (Stop.Refused r) → IsRefusal (F.store files.old) (check_of names.entry) r }
    ensures fault { IsErrOf result Stop.Fault → Rose (F.store files.old).read_faults (F.store files.new).read_faults }
    ensures kept { OnlyRead (F.store files.old) (F.store files.new) }
    ensures calls { AddsReads (read_names (check_of names.entry)) result (F.store files.old).calls (F.store files.new).calls }
{
    let source = read_input(alloc, files, Input::Source, names.source)?;
    soundness(alloc, &source)
}
