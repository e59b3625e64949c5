use crate::{RealFiles, RealSink};
use sp_cli::{Status, space};
use std::rt::{Env, Files as SystemFiles};
use std::{env, io};

/// The words of the process, without the program's name.
fn words_of<R: Env + AllocGlobal>(rt: &R) -> io::Result<Vec<String>> {
    let words = env::args(rt)?.skip(1).collect::<Vec<String>>(rt.alloc())?;
    Ok(words)
}

/// Carries out the command line of the process over the files of the system and standard output. A word that isn't UTF-8
/// is in no form of a command line, and is answered as such words are.
pub fn carry_out<R: Env + AllocGlobal + SystemFiles + Print>(rt: &R) -> Status {
    let words = match words_of(rt) {
        Ok(words) => words,
        Err(error) => {
            if error.kind() == io::ErrorKind::OutOfMemory {
                return Status::Memory;
            }
            Vec::new(rt.alloc())
        }
    };
    let mut files = RealFiles::new(rt);
    let mut out = RealSink::new(rt);
    space(rt.alloc(), &words, &mut files, &mut out)
}
