ghost use Rattle.std.specs.Prelude.{◌≡◌, ◌≢◌, ℕ, ◌≤◌, List, IfOk, IsTrue, IsErrOf, vec_len};
ghost use Rattle.sp_base.specs.Calls.{call};
ghost use Rattle.sp_base.specs.Files.{Store, Output, Rose, AnswersRead, AnswersWrite, AnswersPut, read_outcome, write_outcome, Adds};

use crate::Access;
use std::alloc::{AllocError, AllocFailed, Global};
use thiserror::Error;

/// Why a file was not read.
#[derive(Clone, Copy, Debug, PartialEq, Eq, Error)]
pub enum ReadRefusal {
    /// No file has the name.
    #[error("no such file")]
    Missing,
    /// Reading failed: a fault of the outside, which is counted.
    #[error("reading failed")]
    Failed,
    /// The file has more bytes than the limit.
    #[error("the file is too large")]
    TooLarge,
    #[error("out of memory")]
    Memory,
}

impl From<AllocError> for ReadRefusal {
    ghost use Rattle.std.specs.Prelude.{◌≡◌};
    ghost use Rattle.sp_base.specs.declared.files.ReadRefusal.TheVariants.{Memory};

    ghost from_gives = { λ _ e. e ≡ Memory };

    fn from(_: AllocError) -> Self {
        ReadRefusal::Memory
    }
}

/// Why bytes were not written, or not all of them.
#[derive(Clone, Copy, Debug, PartialEq, Eq, Error)]
pub enum WriteRefusal {
    /// Writing failed: a fault of the outside, which is counted. A prefix may have been written.
    #[error("writing failed")]
    Failed,
    #[error("out of memory")]
    Memory,
}

impl From<AllocError> for WriteRefusal {
    ghost use Rattle.std.specs.Prelude.{◌≡◌};
    ghost use Rattle.sp_base.specs.declared.files.WriteRefusal.TheVariants.{Memory};

    ghost from_gives = { λ _ e. e ≡ Memory };

    fn from(_: AllocError) -> Self {
        WriteRefusal::Memory
    }
}

impl<T: Drop> From<AllocFailed<T>> for WriteRefusal {
    ghost use Rattle.std.specs.Prelude.{◌≡◌};
    ghost use Rattle.sp_base.specs.declared.files.WriteRefusal.TheVariants.{Memory};

    ghost from_gives = { λ _ e. e ≡ Memory };

    fn from(_: AllocFailed<T>) -> Self {
        WriteRefusal::Memory
    }
}

/// The files that a command reads and writes, by name.
pub trait Files {
    /// What contracts see of the files. Files in memory tell what they hold; those of the system don't. The counts of
    /// faults never fall, and stay at the greatest `u64`.
    ghost store: { Self → Store };

    /// The whole file of a name, of at most `limit` bytes. No file changes.
    fn read(&mut self, alloc: Global, name: &str, limit: usize) -> Result<Vec<u8>, ReadRefusal>
        ensures answer { IsTrue (store self.old).told → AnswersRead ((store self.old).contents name.now) limit result }
        ensures within { IfOk result (λ bytes. vec_len bytes ≤ limit) }
        ensures files { (q : List ℕ) → (store self.new).contents q ≡ (store self.old).contents q }
        ensures told { (store self.new).told ≡ (store self.old).told }
        ensures failed { IsErrOf result ReadRefusal.Failed → Rose (store self.old).read_faults (store self.new).read_faults }
        ensures missing { IsErrOf result ReadRefusal.Missing → (store self.new).read_faults ≡ (store self.old).read_faults }
        ensures later { (store self.old).read_faults ≤ (store self.new).read_faults }
        ensures writes { (store self.new).write_faults ≡ (store self.old).write_faults }
        ensures calls { Adds (call Access.Read name.now (read_outcome result)) (store self.old).calls (store self.new).calls };

    /// Makes the file of a name, or replaces what it holds. No other file changes.
    fn write(&mut self, name: &str, bytes: &[u8]) -> Result<(), WriteRefusal>
        ensures answer { IsTrue (store self.old).told → AnswersWrite ((store self.old).contents name.now) bytes.now result ((store self.new).contents name.now) }
        ensures others { (q : List ℕ) → q ≢ name.now → (store self.new).contents q ≡ (store self.old).contents q }
        ensures told { (store self.new).told ≡ (store self.old).told }
        ensures failed { IsErrOf result WriteRefusal.Failed → Rose (store self.old).write_faults (store self.new).write_faults }
        ensures later { (store self.old).write_faults ≤ (store self.new).write_faults }
        ensures reads { (store self.new).read_faults ≡ (store self.old).read_faults }
        ensures calls { Adds (call Access.Write name.now (write_outcome result)) (store self.old).calls (store self.new).calls };
}

/// Where a command puts its text.
pub trait Sink {
    /// What contracts see of the sink. The count of faults never falls, and stays at the greatest `u64`.
    ghost output: { Self → Output };

    /// Appends the bytes.
    fn put(&mut self, bytes: &[u8]) -> Result<(), WriteRefusal>
        ensures answer { IsTrue (output self.old).told → AnswersPut (output self.old).taken bytes.now result (output self.new).taken }
        ensures told { (output self.new).told ≡ (output self.old).told }
        ensures failed { IsErrOf result WriteRefusal.Failed → Rose (output self.old).faults (output self.new).faults }
        ensures later { (output self.old).faults ≤ (output self.new).faults };
}
