//! `space`, the call that the program makes.
ghost use Rattle.std.specs.Prelude.{◌≡◌, ◌≢◌, ◌⊎◌, ℕ, List, Some, IsTrue, IsErrOf, IfOk, Err, ◌≤◌};
ghost use Rattle.sp_base.specs.Calls.{call};
ghost use Rattle.sp_base.specs.Files.{Rose, AnswersWrite, Adds, write_outcome};
ghost use Rattle.sp_cli.specs.Command as cmd;
ghost use Rattle.sp_cli.specs.Command.{words_of, HasForm, AreHeld, held_by, read_names};
ghost use Rattle.sp_cli.specs.Inputs.{Held};
ghost use Rattle.sp_cli.specs.Session.{AddsSession};
ghost use Rattle.sp_cli.specs.Space.{Took, HoldsImage, Ends, IsAcceptedBy, ImageAfter, SinkAfter, SinkAfterUsage};
ghost use Rattle.sp_cli.specs.Stages.{Stands, Accepts};
ghost use Rattle.sp_cli.specs.Texts.{usage_text};
ghost use Rattle.sp_cli.specs.code.Made.{IsProduct, IsRefusal, OnlyRead, AddsReads, AddsWrite};
ghost use Rattle.sp_cli.specs.code.After.{After};
ghost use Rattle.sp_cli.specs.code.Views.{command_of};

use crate::Status;
use crate::asm::assemble_input;
use crate::check::check_input;
use crate::command::{Command, command_of};
use crate::product::Product;
use crate::put::{finish, refuse};
use crate::refusal::Stop;
use crate::run::run_input;
use crate::verify::verify_inputs;
use sp_base::{Files, Sink, WriteRefusal};
use std::alloc::Global;

/// What a command makes of the files that it reads. None of them changes.
fn produce<F: Files>(alloc: Global, files: &mut F, command: Command<'_>) -> Result<Product, Stop>
    requires { cmd.HasOptions (command_of command) }
    ensures ok { IfOk result (IsProduct (F.store files.old) (command_of command.entry)) }
    ensures refused { (r : _) → result ≡ Err (Stop.Refused r) → IsRefusal (F.store files.old) (command_of command.entry) r }
    ensures fault { IsErrOf result Stop.Fault → Rose (F.store files.old).read_faults (F.store files.new).read_faults }
    ensures kept { OnlyRead (F.store files.old) (F.store files.new) }
    ensures calls { AddsReads (read_names (command_of command.entry)) result (F.store files.old).calls (F.store files.new).calls }
{
    match command {
        Command::Verify(names) => verify_inputs(alloc, files, names),
        Command::Asm(names) => assemble_input(alloc, files, names),
        Command::Run(names) => run_input(alloc, files, names),
        Command::Check(names) => check_input(alloc, files, names),
    }
}

/// Writes the text of the image, where the command has one.
fn write_image<F: Files>(
    files: &mut F,
    command: Command<'_>,
    text: &[u8],
) -> Result<(), WriteRefusal>
    ensures answer { (name : List ℕ) → cmd.image_name (command_of command.entry) ≡ Some name → IsTrue (F.store files.old).told
        → AnswersWrite ((F.store files.old).contents name) text.now result ((F.store files.new).contents name) }
    ensures others { (q : List ℕ) → cmd.image_name (command_of command.entry) ≢ Some q → (F.store files.new).contents q ≡ (F.store files.old).contents q }
    ensures told { (F.store files.new).told ≡ (F.store files.old).told }
    ensures failed { IsErrOf result WriteRefusal.Failed → Rose (F.store files.old).write_faults (F.store files.new).write_faults }
    ensures later { (F.store files.old).write_faults ≤ (F.store files.new).write_faults }
    ensures reads { (F.store files.new).read_faults ≡ (F.store files.old).read_faults }
    ensures calls { AddsWrite (cmd.image_name (command_of command.entry)) result (F.store files.old).calls (F.store files.new).calls }
{
    match command.image_name() {
        Some(name) => files.write(name, text),
        None => Ok(()),
    }
}

/// Carries out a command. All texts are made before the image is written, and the image is written before the report is
/// put.
fn execute<F: Files, S: Sink>(
    alloc: Global,
    files: &mut F,
    out: &mut S,
    command: Command<'_>,
) -> Status
    requires { cmd.HasOptions (command_of command) }
    ensures after { After (command_of command.entry) result (F.store files.old) (F.store files.new) (S.output out.old) (S.output out.new) }
    ensures read_fault { result ≡ Status.ReadFault → Rose (F.store files.old).read_faults (F.store files.new).read_faults }
    ensures write_fault { result ≡ Status.WriteFault → Rose (F.store files.old).write_faults (F.store files.new).write_faults }
    ensures sink_fault { result ≡ Status.SinkFault → Rose (S.output out.old).faults (S.output out.new).faults }
    ensures others { (q : List ℕ) → cmd.image_name (command_of command.entry) ≢ Some q → (F.store files.new).contents q ≡ (F.store files.old).contents q }
    ensures files_told { (F.store files.new).told ≡ (F.store files.old).told }
    ensures sink_told { (S.output out.new).told ≡ (S.output out.old).told }
    ensures calls { AddsSession (command_of command.entry) result (F.store files.old).calls (F.store files.new).calls }
{
    let product = match produce(alloc, files, command) {
        Ok(product) => product,
        Err(Stop::Fault) => return Status::ReadFault,
        Err(Stop::Memory) => return Status::Memory,
        Err(Stop::Refused(refusal)) => return refuse(alloc, out, refusal),
    };
    match write_image(files, command, &product.image) {
        Ok(()) => finish(out, &product.report, Status::Done),
        Err(WriteRefusal::Failed) => Status::WriteFault,
        Err(WriteRefusal::Memory) => Status::Memory,
    }
}

/// Runs a command line, whose words don't have the program's name.
pub fn space<F: Files, S: Sink>(
    alloc: Global,
    words: &[String],
    files: &mut F,
    out: &mut S,
) -> Status
    // Where `verify` accepts, the image that it writes is the source's assembly, every run from an entry of a routine
    // is good, and no other image is right. The source is what its file held when the call began.
    ensures headline { result ≡ Status.Done → IsTrue (F.store files.old).told → (source scripts image : List ℕ)
        → HasForm (words_of words.now) (cmd.Verify source scripts image)
        → HoldsImage (cmd.Verify source scripts image) (held_by (F.store files.old).contents (cmd.Verify source scripts image)) ((F.store files.new).contents image) }

    // When each status comes. `Memory` alone is free.
    ensures done { result ≡ Status.Done → Ends Status.Done (words_of words.now) (F.store files.old) (S.output out.old) (S.output out.new) }
    ensures refused { result ≡ Status.Refused → Ends Status.Refused (words_of words.now) (F.store files.old) (S.output out.old) (S.output out.new) }
    ensures too_long { result ≡ Status.TooLong → Ends Status.TooLong (words_of words.now) (F.store files.old) (S.output out.old) (S.output out.new) }
    ensures usage { result ≡ Status.Usage → cmd.HasNoForm (words_of words.now) × Took (S.output out.old) (S.output out.new) usage_text }
    ensures read_fault { result ≡ Status.ReadFault → cmd.HasSomeForm (words_of words.now) × Rose (F.store files.old).read_faults (F.store files.new).read_faults }
    ensures write_fault { result ≡ Status.WriteFault → IsAcceptedBy (words_of words.now) (F.store files.old) × Rose (F.store files.old).write_faults (F.store files.new).write_faults }
    ensures sink_fault { result ≡ Status.SinkFault → Rose (S.output out.old).faults (S.output out.new).faults }

    // Nothing else is answered where no count of faults rose.
    ensures complete { (c : cmd.Command) → HasForm (words_of words.now) c → IsTrue (F.store files.old).told → Accepts c (held_by (F.store files.old).contents c)
        → ¬ Rose (F.store files.old).read_faults (F.store files.new).read_faults → ¬ Rose (F.store files.old).write_faults (F.store files.new).write_faults
        → ¬ Rose (S.output out.old).faults (S.output out.new).faults → (result ≡ Status.Done) ⊎ (result ≡ Status.Memory) }
    ensures complete_refused { (c : cmd.Command) (r : _) → HasForm (words_of words.now) c → IsTrue (F.store files.old).told → Stands c (held_by (F.store files.old).contents c) r
        → ¬ Rose (F.store files.old).read_faults (F.store files.new).read_faults → ¬ Rose (S.output out.old).faults (S.output out.new).faults
        → (result ≡ Status.Refused) ⊎ (result ≡ Status.Memory) }
    ensures complete_usage { cmd.HasNoForm (words_of words.now) → ¬ Rose (S.output out.old).faults (S.output out.new).faults → (result ≡ Status.Usage) ⊎ (result ≡ Status.Memory) }

    // What the files hold afterwards, and what the sink took.
    ensures image { (c : cmd.Command) (name : List ℕ) → HasForm (words_of words.now) c → cmd.image_name c ≡ Some name → IsTrue (F.store files.old).told
        → ImageAfter result c (held_by (F.store files.old).contents c) ((F.store files.old).contents name) ((F.store files.new).contents name) }
    ensures others { (q : List ℕ) → ((c : cmd.Command) → HasForm (words_of words.now) c → cmd.image_name c ≢ Some q) → (F.store files.new).contents q ≡ (F.store files.old).contents q }
    ensures sink { (c : cmd.Command) → HasForm (words_of words.now) c → IsTrue (S.output out.old).told
        → (held : Held) × AreHeld (F.store files.old) c held × SinkAfter result c held (S.output out.old) (S.output out.new) }
    ensures sink_usage { cmd.HasNoForm (words_of words.now) → IsTrue (S.output out.old).told → SinkAfterUsage result (S.output out.old) (S.output out.new) }
    ensures files_told { (F.store files.new).told ≡ (F.store files.old).told }
    ensures sink_told { (S.output out.new).told ≡ (S.output out.old).told }

    // Which calls on files are made: a command reads exactly its inputs, in their order, none after the first that isn't
    // given, and writes its image at most once. No other name is read or written.
    ensures calls { (c : cmd.Command) → HasForm (words_of words.now) c → AddsSession c result (F.store files.old).calls (F.store files.new).calls }
    ensures no_calls { cmd.HasNoForm (words_of words.now) → (F.store files.new).calls ≡ (F.store files.old).calls }
{
    match command_of(words) {
        Some(command) => execute(alloc, files, out, command),
        None => finish(out, USAGE.as_bytes(), Status::Usage),
    }
}

/// The line that says what the commands are.
const USAGE: &str =
    "usage: space8080 verify SRC SCRIPTS IMG | asm SRC IMG | check SRC | conds SRC | run IMG | trial SRC NAME | gen N\n";
