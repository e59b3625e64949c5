//! Command lines over files and a sink in memory. Expected texts are worked out by hand from the rules.
mod assembling;
mod checking;
mod faults;
mod files;
mod form;
mod running;
mod words;

use sp_base::{MemFiles, MemSink};
use sp_cli::{Status, space};
use std::alloc::Global;
use std::process::Abort;
use std::test::Fail;

/// An accepted source, line by line.
const FIVE: [&str; 7] = [
    ";# stack 2300H, 23FFH\n",
    ";# routine FIVE\n",
    ";# post A = 5\n",
    ";# changes A\n",
    "FIVE: MVI A,5\n",
    "      RET\n",
    ";# end\n",
];

const FIVE_IMAGE: &str = ":030000003E05C9F1\n:00000001FF\n";

/// The last record of each image.
const END: &str = ":00000001FF\n";

const REPORT: &str = "accepted routines=1 conditions=1 simplified=1 scripted=0\n";

const OPEN: &str = "refused Open FIVE.1\n";

const NOT_BUILT: &str = "refused NotBuilt\n";

/// The accepted source with this text in place of the lines from `first` to `last`, which count from 1.
fn source_with(alloc: Global, first: usize, last: usize, text: &str) -> Result<String, Fail> {
    let mut source = String::new(alloc);
    for (n, line) in FIVE.iter().enumerate() {
        if n + 1 == first {
            source.push_str(text)?;
        }
        if n + 1 < first || n + 1 > last {
            source.push_str(line)?;
        }
    }
    Ok(source)
}

/// The accepted source.
fn five(alloc: Global) -> Result<String, Fail> {
    source_with(alloc, 0, 0, "")
}

fn words_of(alloc: Global, words: &[&str]) -> Result<Vec<String>, Fail> {
    let mut list = Vec::new(alloc);
    for word in words {
        list.push(String::from_str(alloc, word)?)?;
    }
    Ok(list)
}

/// A source, scripts, an image from before, and a file that no command names.
fn files_of(alloc: Global, source: &str, scripts: &str) -> Result<MemFiles, Fail> {
    let mut files = MemFiles::new(alloc);
    files.add("SRC", source.as_bytes())?;
    files.add("SCRIPTS", scripts.as_bytes())?;
    files.add("IMG", b"old")?;
    files.add("OTHER", b"kept")?;
    Ok(files)
}

/// An image alone.
fn image_of(alloc: Global, image: &str) -> Result<MemFiles, Fail> {
    let mut files = MemFiles::new(alloc);
    files.add("IMG", image.as_bytes())?;
    Ok(files)
}

/// Carries out a command line of these words. No other test calls `space`, since what it ensures is long.
fn carry_out_words(
    alloc: Global,
    words: &[&str],
    files: &mut MemFiles,
    out: &mut MemSink,
) -> Result<Status, Fail> {
    let words = words_of(alloc, words)?;
    Ok(space(alloc, &words, files, out))
}

/// Carries out a command line, whose words single blanks divide.
fn carry_out(
    alloc: Global,
    line: &str,
    files: &mut MemFiles,
    out: &mut MemSink,
) -> Result<Status, Fail> {
    let words = line.split(' ').collect::<Vec<&str>>(alloc)?;
    carry_out_words(alloc, &words, files, out)
}

fn verify(alloc: Global, files: &mut MemFiles, out: &mut MemSink) -> Result<Status, Fail> {
    carry_out_words(alloc, &["verify", "SRC", "SCRIPTS", "IMG"], files, out)
}

/// A command ended with this status, in a case that the message names.
fn check_status(rt: &impl Abort, case: &str, status: Status, expected: Status) {
    assert_eq!(rt; status, expected, "{case}");
}

/// The sink was put this text, in a case that the message names.
fn check_put(rt: &impl Abort, case: &str, out: &MemSink, text: &str) {
    assert_eq!(rt; out.taken(), text.as_bytes(), "{case}");
}

/// A file holds this text, in a case that the message names.
fn check_file(rt: &impl Abort, case: &str, files: &MemFiles, name: &str, text: &str) {
    assert_eq!(rt;
        files.contents(name),
        Some(text.as_bytes()),
        "{name}: {case}"
    );
}

/// Verifies a source without scripts, and compares what IMG holds afterwards and what was put.
fn check_source(
    rt: &impl Abort,
    alloc: Global,
    source: &str,
    status: Status,
    image: &str,
    text: &str,
) -> Result<(), Fail> {
    let mut files = files_of(alloc, source, "")?;
    let mut out = MemSink::new(alloc);
    check_status(rt, source, verify(alloc, &mut files, &mut out)?, status);
    check_put(rt, source, &out, text);
    check_file(rt, source, &files, "IMG", image);
    check_file(rt, source, &files, "SRC", source);
    check_file(rt, source, &files, "SCRIPTS", "");
    check_file(rt, source, &files, "OTHER", "kept");
    Ok(())
}
