ghost use Rattle.std.specs.Prelude.{◌≡◌, ◌≢◌, ℕ, ◌+◌, ◌-◌, ◌^◌, ◌≤◌, ◌↔◌, List, [], Some, None, Option, true, MatchOption, if◌then◌else◌, is_some, IfOk, IfSome, OnOk, OnErr, IsTrue, IsSome, IsErr, IsErrOf, vec_len, string_bytes, option_copied, option_map, min, take};
ghost use Rattle.std.specs.BTreeMap.{get_by_text};
ghost use Rattle.sp_base.specs.Calls.{call, calls_of};
ghost use Rattle.sp_base.specs.Files.{Rose, AnswersRead, AnswersWrite, read_outcome, write_outcome, Adds};
ghost use Rattle.sp_base.specs.MemFiles.{contents_of, fault_at, next_number, one_more, SameFiles, ChangesFile, SameCounts, SameFaults, SetsFault};

use crate::{Access, CallLog, Files, Memory, Outcome, ReadRefusal, WriteRefusal};
use std::alloc::{AllocError, Global};
use std::collections::BTreeMap;

/// Files in memory, for tests and for commands that touch no real file. Calls can be made to fail.
#[derive(Debug, Drop)]
pub struct MemFiles {
    alloc: Global,
    files: BTreeMap<String, Vec<u8>>,
    failing: BTreeMap<u64, usize>,
    log: CallLog,
    calls: u64,
    read_faults: u64,
    write_faults: u64,
}

impl MemFiles {
    /// No file, and no fault to come. It takes no memory.
    pub fn new(alloc: Global) -> MemFiles
        ensures files { (q : List ℕ) → contents_of result q ≡ None }
        ensures failing { (n : ℕ) → fault_at result n ≡ None }
        ensures log { calls_of result.log ≡ [] }
        ensures calls { result.calls ≡ 0 }
        ensures reads { result.read_faults ≡ 0 }
        ensures writes { result.write_faults ≡ 0 }
    {
        MemFiles {
            alloc,
            files: BTreeMap::new(alloc),
            failing: BTreeMap::new(alloc),
            log: CallLog::new(alloc),
            calls: 0,
            read_faults: 0,
            write_faults: 0,
        }
    }

    /// Puts a file there, in place of one that has the name. It is no call that can fail or that is counted.
    #[tactic(auto, using(std::proofs::lemmas::Map::Text::text_keys))]
    pub fn add(&mut self, name: &str, bytes: &[u8]) -> Result<(), Memory>
        ensures ok { OnOk result (ChangesFile self.old self.new name.now bytes.now) }
        ensures err { OnErr result (SameFiles self.old self.new) }
        ensures failing { SameFaults self.old self.new }
        ensures counts { SameCounts self.old self.new }
    {
        store(self.alloc, &mut self.files, name, bytes)?;
        Ok(())
    }

    /// Lets the call with that number fail, reads and writes counted together from 1. A write that fails keeps the
    /// first `kept` bytes, all of them where there are fewer; a read that fails doesn't use `kept`. It takes the
    /// place of what was set for that number before.
    pub fn fail(&mut self, call: u64, kept: usize) -> Result<(), Memory>
        ensures ok { OnOk result (SetsFault self.old self.new call kept) }
        ensures err { OnErr result (SameFaults self.old self.new) }
        ensures files { SameFiles self.old self.new }
        ensures counts { SameCounts self.old self.new }
    {
        self.failing.insert(call, kept)?;
        Ok(())
    }

    /// What the file of a name holds, if there is one. It takes no memory.
    #[tactic(auto, using(std::proofs::lemmas::Map::Text::text_keys))]
    pub fn contents(&self, name: &str) -> Option<&[u8]>
        ensures { option_copied result ≡ contents_of self.now name.now }
    {
        match self.files.get(name) {
            Some(bytes) => Some(bytes.as_slice()),
            None => None,
        }
    }

    /// Counts one more call, and answers how many bytes it keeps if it is to fail.
    fn begin(&mut self) -> Option<usize>
        ensures fault { result ≡ fault_at self.old (next_number self.old) }
        ensures calls { self.new ≡ record self.old { calls = next_number self.old } }
    {
        self.calls = self.calls.saturating_add(1);
        self.failing.get(&self.calls).copied()
    }
}

/// Makes the file of a name, or replaces it.
#[tactic(auto, using(std::proofs::lemmas::Map::Text::text_keys))]
fn store(
    alloc: Global,
    files: &mut BTreeMap<String, Vec<u8>>,
    name: &str,
    bytes: &[u8],
) -> Result<(), AllocError>
    ensures there { OnOk result (option_map (λ v. v.items) (get_by_text files.new name.now) ≡ Some bytes.now) }
    ensures others { (q : List ℕ) → q ≢ name.now → get_by_text files.new q ≡ get_by_text files.old q }
    ensures err { OnErr result ((q : List ℕ) → get_by_text files.new q ≡ get_by_text files.old q) }
{
    let bytes = bytes.to_vec(alloc)?;
    files.insert(String::from_str(alloc, name)?, bytes)?;
    Ok(())
}

impl MemFiles {
    /// Reads, as a call that has begun.
    #[tactic(auto, using(std::proofs::lemmas::Map::Text::text_keys))]
    fn read_file(&mut self, alloc: Global, name: &str, limit: usize) -> Result<Vec<u8>, ReadRefusal>
        ensures answer { AnswersRead (contents_of self.old name.now) limit result }
        ensures within { IfOk result (λ bytes. vec_len bytes ≤ limit) }
        ensures files { SameFiles self.old self.new }
        ensures failed { IsErrOf result ReadRefusal.Failed → Rose self.old.read_faults self.new.read_faults }
        ensures fails { IsErrOf result ReadRefusal.Failed ↔ IsSome (fault_at self.old (next_number self.old)) }
        ensures count { self.new.read_faults ≡ (if is_some (fault_at self.old (next_number self.old)) then one_more self.old.read_faults else self.old.read_faults) }
        ensures later { self.old.read_faults ≤ self.new.read_faults }
        ensures writes { self.new.write_faults ≡ self.old.write_faults }
        ensures number { self.new.calls ≡ next_number self.old }
        ensures failing { SameFaults self.old self.new }
        ensures log { self.new.log ≡ self.old.log }
    {
        if self.begin().is_some() {
            self.read_faults = self.read_faults.saturating_add(1);
            return Err(ReadRefusal::Failed);
        }
        bytes_of(alloc, &self.files, name, limit)
    }

    /// Writes, as a call that has begun.
    fn write_file(&mut self, name: &str, bytes: &[u8]) -> Result<(), WriteRefusal>
        ensures answer { AnswersWrite (contents_of self.old name.now) bytes.now result (contents_of self.new name.now) }
        ensures others { (q : List ℕ) → q ≢ name.now → contents_of self.new q ≡ contents_of self.old q }
        ensures failed { IsErrOf result WriteRefusal.Failed → Rose self.old.write_faults self.new.write_faults }
        ensures later { self.old.write_faults ≤ self.new.write_faults }
        ensures reads { self.new.read_faults ≡ self.old.read_faults }
        ensures fails { MatchOption (fault_at self.old (next_number self.old))
            (¬ IsErrOf result WriteRefusal.Failed)
            (λ kept. IsErr result × (IsErrOf result WriteRefusal.Failed → contents_of self.new name.now ≡ Some (take kept bytes.now))) }
        ensures count { IsErrOf result WriteRefusal.Failed → self.new.write_faults ≡ one_more self.old.write_faults }
        ensures uncounted { ¬ IsErrOf result WriteRefusal.Failed → self.new.write_faults ≡ self.old.write_faults }
        ensures number { self.new.calls ≡ next_number self.old }
        ensures failing { SameFaults self.old self.new }
        ensures log { self.new.log ≡ self.old.log }
    {
        match self.begin() {
            None => {
                store(self.alloc, &mut self.files, name, bytes)?;
                Ok(())
            }
            Some(kept) => {
                let kept = &bytes[..kept.min(bytes.len())];
                store(self.alloc, &mut self.files, name, kept)?;
                self.write_faults = self.write_faults.saturating_add(1);
                Err(WriteRefusal::Failed)
            }
        }
    }
}

/// The bytes of a file, where there is one of at most `limit` bytes.
#[tactic(auto, using(std::proofs::lemmas::Map::Text::text_keys))]
fn bytes_of(
    alloc: Global,
    files: &BTreeMap<String, Vec<u8>>,
    name: &str,
    limit: usize,
) -> Result<Vec<u8>, ReadRefusal>
    ensures answer { AnswersRead (option_map (λ v. v.items) (get_by_text files.now name.now)) limit result }
    ensures within { IfOk result (λ bytes. vec_len bytes ≤ limit) }
    ensures no_fault { ¬ IsErrOf result ReadRefusal.Failed }
{
    let Some(bytes) = files.get(name) else {
        return Err(ReadRefusal::Missing);
    };
    if bytes.len() > limit {
        return Err(ReadRefusal::TooLarge);
    }
    Ok(bytes.to_vec(alloc)?)
}

impl Files for MemFiles {
    ghost use Rattle.sp_base.specs.MemFiles.{store_of};

    ghost store = { store_of };

    fn read(&mut self, alloc: Global, name: &str, limit: usize) -> Result<Vec<u8>, ReadRefusal>
        ensures answer { AnswersRead (contents_of self.old name.now) limit result }
        ensures within { IfOk result (λ bytes. vec_len bytes ≤ limit) }
        ensures files { (q : List ℕ) → contents_of self.new q ≡ contents_of self.old q }
        ensures told { true ≡ true }
        ensures failed { IsErrOf result ReadRefusal.Failed → Rose self.old.read_faults self.new.read_faults }
        ensures missing { IsErrOf result ReadRefusal.Missing → self.new.read_faults ≡ self.old.read_faults }
        ensures later { self.old.read_faults ≤ self.new.read_faults }
        ensures writes { self.new.write_faults ≡ self.old.write_faults }
        ensures calls { Adds (call Access.Read name.now (read_outcome result)) (calls_of self.old.log) (calls_of self.new.log) }

        // It fails only where it is to fail, and counts that.
        ensures fails { MatchOption (fault_at self.old (next_number self.old)) (¬ IsErrOf result ReadRefusal.Failed) (λ kept. IsErr result) }
        ensures count { IsErrOf result ReadRefusal.Failed → self.new.read_faults ≡ one_more self.old.read_faults }
        ensures uncounted { ¬ IsErrOf result ReadRefusal.Failed → ¬ IsErrOf result ReadRefusal.Memory → self.new.read_faults ≡ self.old.read_faults }
        ensures failing { SameFaults self.old self.new }
    {
        if self.log.begin(Access::Read, name).is_err() {
            return Err(ReadRefusal::Memory);
        }
        let answer = self.read_file(alloc, name, limit);
        self.log.end(Outcome::of_read(&answer));
        answer
    }

    fn write(&mut self, name: &str, bytes: &[u8]) -> Result<(), WriteRefusal>
        ensures answer { AnswersWrite (contents_of self.old name.now) bytes.now result (contents_of self.new name.now) }
        ensures others { (q : List ℕ) → q ≢ name.now → contents_of self.new q ≡ contents_of self.old q }
        ensures told { true ≡ true }
        ensures failed { IsErrOf result WriteRefusal.Failed → Rose self.old.write_faults self.new.write_faults }
        ensures later { self.old.write_faults ≤ self.new.write_faults }
        ensures reads { self.new.read_faults ≡ self.old.read_faults }
        ensures calls { Adds (call Access.Write name.now (write_outcome result)) (calls_of self.old.log) (calls_of self.new.log) }

        // It fails only where it is to fail, keeps that many bytes, and counts that.
        ensures fails { MatchOption (fault_at self.old (next_number self.old))
            (¬ IsErrOf result WriteRefusal.Failed)
            (λ kept. IsErr result × (IsErrOf result WriteRefusal.Failed → contents_of self.new name.now ≡ Some (take kept bytes.now))) }
        ensures count { IsErrOf result WriteRefusal.Failed → self.new.write_faults ≡ one_more self.old.write_faults }
        ensures uncounted { ¬ IsErrOf result WriteRefusal.Failed → self.new.write_faults ≡ self.old.write_faults }
        ensures failing { SameFaults self.old self.new }
    {
        if self.log.begin(Access::Write, name).is_err() {
            return Err(WriteRefusal::Memory);
        }
        let answer = self.write_file(name, bytes);
        self.log.end(Outcome::of_write(&answer));
        answer
    }
}
