ghost use Rattle.std.specs.Prelude.{IfOk};
ghost use Rattle.sp_run.specs.Run.{IsRunText};

use crate::course::advance;
use crate::settings::Options;
use crate::start::{inputs_of, started};
use crate::texts::state_line;
use sp_base::{Image, Memory};
use std::alloc::Global;

/// The text of the run of an image: a line `out PP BB` for each OUT, and a line of the last state. The time that it
/// takes grows with the number of steps.
pub fn run(alloc: Global, image: &Image, options: &Options) -> Result<Vec<u8>, Memory>
    ensures { IfOk result (λ text. IsRunText image.now options.now text.items) }
{
    let mut machine = started(alloc, image, options)?;
    let inputs = inputs_of(alloc, options.settings.as_slice())?;
    let limit = options.steps;
    let (steps, mut text) = advance(alloc, &mut machine, &inputs, limit)?;
    let line = state_line(alloc, limit, steps, &machine)?;
    text.extend_from_slice(&line)?;
    Ok(text)
}
