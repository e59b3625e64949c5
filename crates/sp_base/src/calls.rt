ghost use Rattle.std.specs.Prelude.{◌≡◌, ◌∷◌, ◌++◌, [], List, OnOk, OnErr};
ghost use Rattle.sp_base.specs.Calls.{Call, calls_of, call, ended};
ghost use Rattle.sp_base.specs.Files.{read_outcome, write_outcome};

use crate::{Memory, ReadRefusal, WriteRefusal};
use std::alloc::Global;

/// What a call does with a file.
#[derive(Clone, Copy, Debug, PartialEq, Eq)]
pub enum Access {
    /// It reads the whole file.
    Read,
    /// It makes the file, or replaces it.
    Write,
}

/// How a call on a file ended.
#[derive(Clone, Copy, Debug, PartialEq, Eq)]
pub enum Outcome {
    /// All bytes were read, or written.
    Done,
    /// No file has the name.
    Missing,
    /// The file has more bytes than the limit.
    TooLarge,
    /// A fault of the outside, which is counted.
    Failed,
    /// Memory ran out.
    Memory,
}

impl Outcome {
    /// How a read ended, by its answer.
    pub fn of_read(answer: &Result<Vec<u8>, ReadRefusal>) -> Outcome
        ensures { result ≡ read_outcome answer.now }
    {
        match answer {
            Ok(_) => Outcome::Done,
            Err(ReadRefusal::Missing) => Outcome::Missing,
            Err(ReadRefusal::TooLarge) => Outcome::TooLarge,
            Err(ReadRefusal::Failed) => Outcome::Failed,
            Err(ReadRefusal::Memory) => Outcome::Memory,
        }
    }

    /// How a write ended, by its answer.
    pub fn of_write(answer: &Result<(), WriteRefusal>) -> Outcome
        ensures { result ≡ write_outcome answer.now }
    {
        match answer {
            Ok(()) => Outcome::Done,
            Err(WriteRefusal::Failed) => Outcome::Failed,
            Err(WriteRefusal::Memory) => Outcome::Memory,
        }
    }
}

/// A call on a file.
#[derive(Debug, Drop)]
pub struct FileCall {
    pub access: Access,
    pub name: String,
    pub outcome: Outcome,
}

/// The calls on files so far, in their order.
#[derive(Debug, Drop)]
pub struct CallLog {
    alloc: Global,
    calls: Vec<FileCall>,
}

impl CallLog {
    /// No call. It takes no memory.
    pub fn new(alloc: Global) -> CallLog
        ensures { calls_of result ≡ [] }
    {
        CallLog {
            alloc,
            calls: Vec::new(alloc),
        }
    }

    /// A call begins. Until its end is told, it counts as one that ran out of memory.
    pub fn begin(&mut self, access: Access, name: &str) -> Result<(), Memory>
        ensures ok { OnOk result (calls_of self.new ≡ calls_of self.old ++ call access name.now Outcome.Memory ∷ []) }
        ensures err { OnErr result (calls_of self.new ≡ calls_of self.old) }
    {
        let name = String::from_str(self.alloc, name)?;
        self.calls.push(FileCall {
            access,
            name,
            outcome: Outcome::Memory,
        })?;
        Ok(())
    }

    /// The call that began last ends.
    pub fn end(&mut self, outcome: Outcome)
        ensures { (before : List Call) (last : Call) → calls_of self.old ≡ before ++ last ∷ [] → calls_of self.new ≡ before ++ ended last outcome ∷ [] }
    {
        if let Some(last) = self.calls.last_mut() {
            last.outcome = outcome;
        }
    }
}
