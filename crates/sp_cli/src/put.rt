//! Putting a command's text, which ends the command.
ghost use Rattle.std.specs.Prelude.{◌≡◌, ◌≤◌};
ghost use Rattle.sp_cli.specs.code.Put.{PutEnds};
ghost use Rattle.sp_cli.specs.Texts.{refusal_text};

use crate::Status;
use crate::refusal::Refusal;
use crate::texts::refusal_line;
use sp_base::{Sink, WriteRefusal};
use std::alloc::Global;

/// Puts the text of a status, and answers it.
pub fn finish<S: Sink>(out: &mut S, text: &[u8], status: Status) -> Status
    ensures ends { PutEnds status text.now (S.output out.old) (S.output out.new) result }
    ensures told { (S.output out.new).told ≡ (S.output out.old).told }
    ensures later { (S.output out.old).faults ≤ (S.output out.new).faults }
{
    match out.put(text) {
        Ok(()) => status,
        Err(WriteRefusal::Failed) => Status::SinkFault,
        Err(WriteRefusal::Memory) => Status::Memory,
    }
}

/// Puts the line that says why a command refuses.
pub fn refuse<S: Sink>(alloc: Global, out: &mut S, refusal: Refusal) -> Status
    ensures ends { PutEnds Status.Refused (refusal_text refusal) (S.output out.old) (S.output out.new) result }
    ensures told { (S.output out.new).told ≡ (S.output out.old).told }
    ensures later { (S.output out.old).faults ≤ (S.output out.new).faults }
{
    match refusal_line(alloc, refusal) {
        Ok(line) => finish(out, &line, Status::Refused),
        Err(_) => Status::Memory,
    }
}
