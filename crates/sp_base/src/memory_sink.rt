ghost use Rattle.std.specs.Prelude.{◌≡◌, ℕ, ◌+◌, ◌++◌, ◌≤◌, [], Some, None, true, MatchOption, OnOk, OnErr, IsErr, IsErrOf, take};
ghost use Rattle.sp_base.specs.Files.{Rose, AnswersPut};
ghost use Rattle.sp_base.specs.MemFiles.{one_more};
ghost use Rattle.sp_base.specs.MemSink.{put_fault_at, next_put, SameCounts, SameFaults, SetsFault};

use crate::{Memory, Sink, WriteRefusal};
use std::alloc::Global;
use std::collections::BTreeMap;

/// A sink in memory, for tests. Puts can be made to fail.
#[derive(Debug, Drop)]
pub struct MemSink {
    taken: Vec<u8>,
    failing: BTreeMap<u64, usize>,
    puts: u64,
    faults: u64,
}

impl MemSink {
    /// Nothing taken, and no fault to come. It takes no memory.
    pub fn new(alloc: Global) -> MemSink
        ensures taken { result.taken.items ≡ [] }
        ensures failing { (n : ℕ) → put_fault_at result n ≡ None }
        ensures puts { result.puts ≡ 0 }
        ensures faults { result.faults ≡ 0 }
    {
        MemSink {
            taken: Vec::new(alloc),
            failing: BTreeMap::new(alloc),
            puts: 0,
            faults: 0,
        }
    }

    /// Lets the put with that number fail, counted from 1. It keeps the first `kept` bytes, all of them where there
    /// are fewer. It takes the place of what was set for that number before.
    pub fn fail(&mut self, put: u64, kept: usize) -> Result<(), Memory>
        ensures ok { OnOk result (SetsFault self.old self.new put kept) }
        ensures err { OnErr result (SameFaults self.old self.new) }
        ensures taken { self.new.taken ≡ self.old.taken }
        ensures counts { SameCounts self.old self.new }
    {
        self.failing.insert(put, kept)?;
        Ok(())
    }

    /// The bytes taken so far. It takes no memory.
    pub fn taken(&self) -> &[u8]
        ensures { result.now ≡ self.now.taken.items }
    {
        &self.taken
    }

    /// Counts one more put, and answers how many bytes it keeps if it is to fail.
    fn begin(&mut self) -> Option<usize>
        ensures fault { result ≡ put_fault_at self.old (next_put self.old) }
        ensures puts { self.new ≡ record self.old { puts = next_put self.old } }
    {
        self.puts = self.puts.saturating_add(1);
        self.failing.get(&self.puts).copied()
    }
}

impl Sink for MemSink {
    ghost use Rattle.sp_base.specs.MemSink.{output_of};

    ghost output = { output_of };

    fn put(&mut self, bytes: &[u8]) -> Result<(), WriteRefusal>
        ensures answer { AnswersPut self.old.taken.items bytes.now result self.new.taken.items }
        ensures told { true ≡ true }
        ensures failed { IsErrOf result WriteRefusal.Failed → Rose self.old.faults self.new.faults }
        ensures later { self.old.faults ≤ self.new.faults }

        // It fails only where it is to fail, keeps that many bytes, and counts that.
        ensures fails { MatchOption (put_fault_at self.old (next_put self.old))
            (¬ IsErrOf result WriteRefusal.Failed)
            (λ kept. IsErr result × (IsErrOf result WriteRefusal.Failed → self.new.taken.items ≡ self.old.taken.items ++ take kept bytes.now)) }
        ensures count { IsErrOf result WriteRefusal.Failed → self.new.faults ≡ one_more self.old.faults }
        ensures uncounted { ¬ IsErrOf result WriteRefusal.Failed → self.new.faults ≡ self.old.faults }
        ensures number { self.new.puts ≡ next_put self.old }
        ensures failing { SameFaults self.old self.new }
    {
        match self.begin() {
            None => {
                self.taken.extend_from_slice(bytes)?;
                Ok(())
            }
            Some(kept) => {
                self.taken
                    .extend_from_slice(&bytes[..kept.min(bytes.len())])?;
                self.faults = self.faults.saturating_add(1);
                Err(WriteRefusal::Failed)
            }
        }
    }
}
