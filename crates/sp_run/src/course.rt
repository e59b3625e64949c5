ghost use Rattle.std.specs.Prelude.{◌≡◌, ◌++◌, [], IfOk, OnOk};
ghost use Rattle.sp_model.specs.State.{State, run};
ghost use Rattle.sp_machine.specs.Ports.{is_stuck, inputs_after, outputs_of};
ghost use Rattle.sp_run.specs.Texts.{output_lines};
ghost use Rattle.sp_run.specs.Run.{EndsAfter};

use crate::texts::push_output;
use sp_base::Memory;
use sp_machine::{Event, Machine};
use std::alloc::Global;

/// What an IN takes where no input is left.
const NO_INPUT: u8 = 255;

fn is_stuck(event: Event) -> bool
    ensures { result ≡ is_stuck event }
{
    matches!(event, Event::Stuck(_))
}

/// The inputs that are left after a step.
fn inputs_after(event: Event, inputs: &[u8]) -> &[u8]
    ensures { result.now ≡ inputs_after event inputs.now }
{
    match (event, inputs) {
        (Event::In(_), [_, rest @ ..]) => rest,
        _ => inputs,
    }
}

/// Adds the line of what a step put out.
fn push_outputs(text: &mut Vec<u8>, event: Event) -> Result<(), Memory>
    ensures { OnOk result (text.new.items ≡ text.old.items ++ output_lines (outputs_of event)) }
{
    match event {
        Event::Out(port, byte) => push_output(text, port, byte),
        _ => Ok(()),
    }
}

/// Runs a machine until it is halted or stuck, at most `limit` steps, and answers how many steps it took, with the lines
/// of what it put out. An IN takes the inputs in order.
pub fn advance(
    alloc: Global,
    machine: &mut Machine,
    inputs: &[u8],
    limit: u32,
) -> Result<(u32, Vec<u8>), Memory>
    ensures ends { IfOk result (λ r. EndsAfter (record { core = machine.old; inputs = inputs.now; outputs = [] }) limit r.0) }
    ensures core { IfOk result (λ r. machine.new ≡ (run (record { core = machine.old; inputs = inputs.now; outputs = [] }) r.0).core) }
    ensures text { IfOk result (λ r. r.1.items ≡ output_lines (run (record { core = machine.old; inputs = inputs.now; outputs = [] }) r.0).outputs) }
{
    let mut rest = inputs;
    let mut text = Vec::new(alloc);
    for steps in 0..limit {
        if machine.halted() {
            return Ok((steps, text));
        }
        let event = machine.step(rest.first().copied().unwrap_or(NO_INPUT));
        if is_stuck(event) {
            return Ok((steps, text));
        }
        rest = inputs_after(event, rest);
        push_outputs(&mut text, event)?;
    }
    Ok((limit, text))
}
