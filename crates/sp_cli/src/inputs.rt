//! Reading the files that a command takes as inputs.
ghost use Rattle.std.specs.Prelude.{◌≡◌, Some, IsTrue, IsErrOf, IfOk, Err, ◌≤◌, vec_len};
ghost use Rattle.sp_base.specs.Files.{Rose};
ghost use Rattle.sp_cli.specs.Inputs.{limit, RefusesFile};
ghost use Rattle.sp_cli.specs.code.Made.{IsFile, OnlyRead, AddsRead};

use crate::refusal::{Input, Refusal, Stop};
use sp_base::{Files, ReadRefusal};
use std::alloc::Global;

/// The most bytes of a source.
const SOURCE_LIMIT: usize = 1_048_576;

/// The most bytes of a file of scripts.
const SCRIPTS_LIMIT: usize = 4_194_304;

/// The most bytes of the text of an image.
const IMAGE_LIMIT: usize = 1_048_576;

fn limit(input: Input) -> usize
    ensures { result ≡ limit input }
{
    match input {
        Input::Source => SOURCE_LIMIT,
        Input::Scripts => SCRIPTS_LIMIT,
        Input::Image => IMAGE_LIMIT,
    }
}

/// Reads a file that a command takes as an input.
pub fn read_input<F: Files>(
    alloc: Global,
    files: &mut F,
    input: Input,
    name: &str,
) -> Result<Vec<u8>, Stop>
    ensures ok { IfOk result (λ bytes. IsTrue (F.store files.old).told → (F.store files.old).contents name.now ≡ Some bytes.items) }
    ensures within { IfOk result (λ bytes. vec_len bytes ≤ limit input) }
    ensures refused { (r : _) → result ≡ Err (Stop.Refused r)
        → IsFile (IsTrue (F.store files.old).told) ((F.store files.old).contents name.now) (λ file. RefusesFile input file r) }
    ensures fault { IsErrOf result Stop.Fault → Rose (F.store files.old).read_faults (F.store files.new).read_faults }
    ensures kept { OnlyRead (F.store files.old) (F.store files.new) }
    ensures calls { AddsRead name.now result (F.store files.old).calls (F.store files.new).calls }
{
    match files.read(alloc, name, limit(input)) {
        Ok(bytes) => Ok(bytes),
        Err(ReadRefusal::Missing) => Err(Stop::Refused(Refusal::Missing(input))),
        Err(ReadRefusal::TooLarge) => Err(Stop::Refused(Refusal::TooLarge(input))),
        Err(ReadRefusal::Failed) => Err(Stop::Fault),
        Err(ReadRefusal::Memory) => Err(Stop::Memory),
    }
}
