use sp_base::{Sink, WriteRefusal};

/// Standard output. Contracts are told nothing of what it takes.
#[derive(Drop)]
pub struct RealSink<'a, R: Print> {
    rt: &'a R,
    faults: u64,
}

impl<'a, R: Print> RealSink<'a, R> {
    ghost use Rattle.std.specs.Prelude.{◌≡◌};

    /// The standard output of this runtime, of which no call has failed yet.
    pub fn new(rt: &'a R) -> Self
        ensures { result.faults ≡ 0 }
    {
        RealSink { rt, faults: 0 }
    }
}

impl<R: Print> Sink for RealSink<'_, R> {
    ghost use Rattle.std.specs.Prelude.{false, []};

    ghost output = { λ sink. record { told = false; taken = []; faults = sink.faults } };

    fn put(&mut self, bytes: &[u8]) -> Result<(), WriteRefusal> {
        if print_all(self.rt, bytes) {
            return Ok(());
        }
        self.faults = self.faults.saturating_add(1);
        Err(WriteRefusal::Failed)
    }
}

/// Prints all bytes, and answers whether it did. Each turn prints at least one byte or is the last.
fn print_all<P: Print>(rt: &P, bytes: &[u8]) -> bool {
    let mut rest = bytes;
    while !rest.is_empty() {
        match rt.write_some(rest) {
            Ok(0) | Err(_) => return false,
            Ok(n) => rest = &rest[n..],
        }
    }
    true
}
