ghost use Rattle.std.specs.Prelude.{◌≡◌, ◌≢◌, ◌+◌, ◌-◌, ◌^◌, ◌≤◌, [], min, IfOk, Err, IsErrOf, vec_len};
ghost use Rattle.sp_base.specs.Calls.{calls_of};
ghost use Rattle.sp_base.specs.Files.{Rose};

use sp_base::{Access, CallLog, Files, Outcome, ReadRefusal, WriteRefusal};
use std::alloc::Global;
use std::io::{Read, Write};
use std::rt::Files as SystemFiles;
use std::{fs, io};

/// The files of the system. Contracts are told nothing of what they hold.
#[derive(Drop)]
pub struct RealFiles<'a, R: SystemFiles> {
    rt: &'a R,
    log: CallLog,
    read_faults: u64,
    write_faults: u64,
}

/// The bytes that one call reads at the most.
const CHUNK: usize = 8192;

impl<'a, R: SystemFiles + AllocGlobal> RealFiles<'a, R> {
    /// The files of this runtime, of which none was called yet.
    pub fn new(rt: &'a R) -> Self
        ensures calls { calls_of result.log ≡ [] }
        ensures reads { result.read_faults ≡ 0 }
        ensures writes { result.write_faults ≡ 0 }
    {
        RealFiles {
            rt,
            log: CallLog::new(rt.alloc()),
            read_faults: 0,
            write_faults: 0,
        }
    }

    fn read_failed(&mut self) -> ReadRefusal
        ensures failed { result ≡ ReadRefusal.Failed }
        ensures count { self.new.read_faults ≡ min (self.old.read_faults + 1) (2 ^ 64 - 1) }
        ensures writes { self.new.write_faults ≡ self.old.write_faults }
        ensures log { self.new.log ≡ self.old.log }
        ensures later { self.old.read_faults ≤ self.new.read_faults }
    {
        self.read_faults = self.read_faults.saturating_add(1);
        ReadRefusal::Failed
    }

    /// Reads, as a call that has begun.
    fn read_file(&mut self, alloc: Global, name: &str, limit: usize) -> Result<Vec<u8>, ReadRefusal>
        ensures within { IfOk result (λ bytes. vec_len bytes ≤ limit) }
        ensures failed { IsErrOf result ReadRefusal.Failed → Rose self.old.read_faults self.new.read_faults }
        ensures missing { IsErrOf result ReadRefusal.Missing → self.new.read_faults ≡ self.old.read_faults }
        ensures later { self.old.read_faults ≤ self.new.read_faults }
        ensures writes { self.new.write_faults ≡ self.old.write_faults }
        ensures log { self.new.log ≡ self.old.log }
    {
        let mut file = match fs::open(self.rt, name) {
            Ok(file) => file,
            Err(error) => {
                if error.kind() == io::ErrorKind::NotFound {
                    return Err(ReadRefusal::Missing);
                }
                return Err(self.read_failed());
            }
        };
        match read_all(alloc, &mut file, limit) {
            Ok(bytes) => Ok(bytes),
            Err(ReadRefusal::Failed) => Err(self.read_failed()),
            Err(refusal) => Err(refusal),
        }
    }

    /// Writes, as a call that has begun.
    fn write_file(&mut self, name: &str, bytes: &[u8]) -> Result<(), WriteRefusal>
        ensures failed { IsErrOf result WriteRefusal.Failed → Rose self.old.write_faults self.new.write_faults }
        ensures later { self.old.write_faults ≤ self.new.write_faults }
        ensures reads { self.new.read_faults ≡ self.old.read_faults }
        ensures log { self.new.log ≡ self.old.log }
    {
        let written = match fs::create(self.rt, name) {
            Ok(mut file) => write_all(&mut file, bytes),
            Err(_) => false,
        };
        if written {
            return Ok(());
        }
        self.write_faults = self.write_faults.saturating_add(1);
        Err(WriteRefusal::Failed)
    }
}

/// All bytes that are left, if there are at most `limit`. Each turn reads at least one byte or is the last.
fn read_all<S: Read>(alloc: Global, from: &mut S, limit: usize) -> Result<Vec<u8>, ReadRefusal>
    ensures within { IfOk result (λ bytes. vec_len bytes ≤ limit) }
    ensures there { result ≢ Err ReadRefusal.Missing }
{
    let mut bytes = Vec::new(alloc);
    let mut chunk = [0u8; CHUNK];
    loop {
        let Ok(n) = from.read(&mut chunk) else {
            return Err(ReadRefusal::Failed);
        };
        if n == 0 {
            return Ok(bytes);
        }
        if n > limit - bytes.len() {
            return Err(ReadRefusal::TooLarge);
        }
        if bytes.extend_from_slice(&chunk[..n]).is_err() {
            return Err(ReadRefusal::Memory);
        }
    }
}

/// Writes all bytes. Each turn writes at least one byte or is the last.
fn write_all<S: Write>(to: &mut S, bytes: &[u8]) -> bool {
    let mut rest = bytes;
    while !rest.is_empty() {
        match to.write(rest) {
            Ok(0) | Err(_) => return false,
            Ok(n) => rest = &rest[n..],
        }
    }
    true
}

impl<R: SystemFiles + AllocGlobal> Files for RealFiles<'_, R> {
    ghost use Rattle.std.specs.Prelude.{false, None};
    ghost use Rattle.sp_base.specs.Calls.{calls_of};

    ghost store = { λ files. record { told = false; contents = λ _. None; read_faults = files.read_faults; write_faults = files.write_faults; calls = calls_of files.log } };

    fn read(&mut self, alloc: Global, name: &str, limit: usize) -> Result<Vec<u8>, ReadRefusal> {
        if self.log.begin(Access::Read, name).is_err() {
            return Err(ReadRefusal::Memory);
        }
        let answer = self.read_file(alloc, name, limit);
        self.log.end(Outcome::of_read(&answer));
        answer
    }

    fn write(&mut self, name: &str, bytes: &[u8]) -> Result<(), WriteRefusal> {
        if self.log.begin(Access::Write, name).is_err() {
            return Err(WriteRefusal::Memory);
        }
        let answer = self.write_file(name, bytes);
        self.log.end(Outcome::of_write(&answer));
        answer
    }
}
