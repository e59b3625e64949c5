//! The files of the system and a sink over one, in the folder that a test starts in.
use sp_base::{Files, ReadRefusal, Sink, WriteRefusal};
use sp_outside::{RealFiles, RealSink};
use std::fmt::Display;
use std::fs::OpenOptions;
use std::io::Write;
use std::rt::Files as SystemFiles;
use std::test::Fail;
use std::{fs, io};

const FILE: &str = "space8080_test_file";

const TEXT_FILE: &str = "space8080_test_text";

#[test]
fn a_real_file_is_written_and_read_back(rt: HostRuntime) -> Result<(), Fail> {
    let alloc = rt.alloc();
    let _ = fs::remove_file(&rt, FILE);
    let mut files = RealFiles::new(&rt);
    assert_eq!(rt;
        files.read(alloc, FILE, 9).err(),
        Some(ReadRefusal::Missing)
    );
    // More than one call reads.
    let long = "0123456789".repeat(alloc, 2000)?;
    for text in ["0123456789", long.as_str(), "abc", ""] {
        assert_eq!(rt; files.write(FILE, text.as_bytes()), Ok(()));
        let read = files.read(alloc, FILE, text.len())?;
        assert_eq!(rt; read.as_slice(), text.as_bytes());
        if !text.is_empty() {
            let refusal = files.read(alloc, FILE, text.len() - 1).err();
            assert_eq!(rt; refusal, Some(ReadRefusal::TooLarge));
        }
    }
    fs::remove_file(&rt, FILE)?;
    assert_eq!(rt;
        files.read(alloc, FILE, 9).err(),
        Some(ReadRefusal::Missing)
    );
    // A folder is no file, and a file in no folder can't be made.
    assert_eq!(rt; files.read(alloc, ".", 9).err(), Some(ReadRefusal::Failed));
    assert_eq!(rt; files.write(".", b"abc"), Err(WriteRefusal::Failed));
    assert_eq!(rt;
        files.write("space8080_none/IMG", b"abc"),
        Err(WriteRefusal::Failed)
    );
    Ok(())
}

/// Prints to a real file one byte at a time, until the file has `room` bytes.
#[derive(Clone, Copy)]
struct Printer<'a, R: SystemFiles + Print> {
    rt: &'a R,
    room: u64,
}

impl<R: SystemFiles + Print> Print for Printer<'_, R> {
    fn print<D: Display + Drop>(&self, value: D) -> io::Result<()> {
        self.rt.print(value)
    }

    fn println<D: Display + Drop>(&self, value: D) -> io::Result<()> {
        self.rt.println(value)
    }

    fn write_all(&self, bytes: &[u8]) -> io::Result<()> {
        self.rt.write_all(bytes)
    }

    fn write_some(&self, bytes: &[u8]) -> io::Result<usize> {
        if fs::metadata(self.rt, TEXT_FILE)?.len() >= self.room {
            return Ok(0);
        }
        let mut file = OpenOptions::new().append(true).open(self.rt, TEXT_FILE)?;
        file.write(&bytes[..bytes.len().min(1)])
    }
}

#[test]
fn a_sink_prints_all_or_answers_a_fault(rt: HostRuntime) -> Result<(), Fail> {
    let alloc = rt.alloc();
    let _ = fs::remove_file(&rt, TEXT_FILE);
    let printer = Printer { rt: &rt, room: 9 };
    let mut sink = RealSink::new(&printer);
    // There is no file yet.
    assert_eq!(rt; sink.put(b"abc"), Err(WriteRefusal::Failed));
    assert_eq!(rt; sink.put(b""), Ok(()));
    let mut files = RealFiles::new(&rt);
    assert_eq!(rt; files.write(TEXT_FILE, b""), Ok(()));
    assert_eq!(rt; sink.put(b"abc"), Ok(()));
    assert_eq!(rt; sink.put(b"defg"), Ok(()));
    assert_eq!(rt; sink.put(b"hijk"), Err(WriteRefusal::Failed));
    assert_eq!(rt;
        files.read(alloc, TEXT_FILE, 20)?.as_slice(),
        b"abcdefghi".as_slice()
    );
    fs::remove_file(&rt, TEXT_FILE)?;
    // Standard output itself.
    assert_eq!(rt; RealSink::new(&rt).put(b""), Ok(()));
    Ok(())
}
