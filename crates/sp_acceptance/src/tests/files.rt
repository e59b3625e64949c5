//! Files that are not there or too large, in the order in which they are read, and files under the same name.
use super::{
    FIVE_IMAGE, NOT_BUILT, OPEN, REPORT, carry_out, carry_out_words, check_file, check_put,
    check_source, check_status, five, image_of, source_with, verify,
};
use sp_base::{MemFiles, MemSink};
use sp_cli::Status;
use std::alloc::Global;
use std::process::Abort;
use std::test::Fail;

/// What stands under the name of an input.
#[derive(Clone, Copy, PartialEq, Eq)]
enum Given {
    Nothing,
    Bytes(&'static str),
    Blanks(usize),
    /// The accepted source.
    Five,
    /// A source whose postcondition is not met.
    Six,
}

fn add_given(alloc: Global, files: &mut MemFiles, name: &str, given: Given) -> Result<(), Fail> {
    match given {
        Given::Nothing => {}
        Given::Bytes(text) => files.add(name, text.as_bytes())?,
        Given::Blanks(count) => files.add(name, " ".repeat(alloc, count)?.as_bytes())?,
        Given::Five => files.add(name, five(alloc)?.as_bytes())?,
        Given::Six => {
            files.add(
                name,
                source_with(alloc, 3, 3, ";# post A = 6\n")?.as_bytes(),
            )?;
        }
    }
    Ok(())
}

/// Verifies what is given, which is refused.
fn check_refused(
    rt: &impl Abort,
    alloc: Global,
    source: Given,
    scripts: Given,
    text: &str,
) -> Result<(), Fail> {
    let mut files = MemFiles::new(alloc);
    add_given(alloc, &mut files, "SRC", source)?;
    add_given(alloc, &mut files, "SCRIPTS", scripts)?;
    files.add("IMG", b"old")?;
    let mut out = MemSink::new(alloc);
    check_status(
        rt,
        text,
        verify(alloc, &mut files, &mut out)?,
        Status::Refused,
    );
    check_put(rt, text, &out, text);
    check_file(rt, text, &files, "IMG", "old");
    Ok(())
}

const OVER_SOURCE: Given = Given::Blanks(1_048_577);

const OVER_SCRIPTS: Given = Given::Blanks(4_194_305);

#[test]
fn inputs_are_refused_in_turn(rt: HostRuntime) -> Result<(), Fail> {
    let alloc = rt.alloc();
    let no_source = "refused Missing source\n";
    let large_source = "refused TooLarge source\n";
    let no_scripts = "refused Missing scripts\n";
    let large_scripts = "refused TooLarge scripts\n";
    let cases = [
        (Given::Nothing, Given::Nothing, no_source),
        (Given::Nothing, Given::Bytes(""), no_source),
        (OVER_SOURCE, Given::Bytes(""), large_source),
        (OVER_SOURCE, Given::Nothing, large_source),
        (Given::Five, Given::Nothing, no_scripts),
        (Given::Six, Given::Nothing, no_scripts),
        (Given::Bytes("NOP\n"), Given::Nothing, no_scripts),
        (Given::Five, OVER_SCRIPTS, large_scripts),
        (Given::Bytes("NOP\n"), OVER_SCRIPTS, large_scripts),
        (Given::Blanks(1_048_576), Given::Bytes(""), NOT_BUILT),
        (Given::Five, Given::Blanks(4_194_304), NOT_BUILT),
        (Given::Five, Given::Bytes("\n"), NOT_BUILT),
        (Given::Five, Given::Bytes("script FIVE.1\nend\n"), NOT_BUILT),
        (Given::Six, Given::Bytes("\n"), NOT_BUILT),
        (Given::Bytes("NOP\n"), Given::Bytes("\n"), NOT_BUILT),
        (Given::Six, Given::Bytes(""), OPEN),
    ];
    for (source, scripts, text) in cases {
        check_refused(&rt, alloc, source, scripts, text)?;
    }
    Ok(())
}

#[test]
fn an_image_is_written_only_where_the_source_is_accepted(rt: HostRuntime) -> Result<(), Fail> {
    let alloc = rt.alloc();
    check_source(&rt, alloc, &five(alloc)?, Status::Done, FIVE_IMAGE, REPORT)?;
    let six = source_with(alloc, 3, 3, ";# post A = 6\n")?;
    check_source(&rt, alloc, &six, Status::Refused, "old", OPEN)?;
    for (source, image) in [(Given::Five, Some(FIVE_IMAGE)), (Given::Six, None)] {
        let mut files = MemFiles::new(alloc);
        add_given(alloc, &mut files, "SRC", source)?;
        files.add("SCRIPTS", b"")?;
        let mut out = MemSink::new(alloc);
        let status = verify(alloc, &mut files, &mut out)?;
        assert_eq!(rt; status == Status::Done, image.is_some());
        assert_eq!(rt; files.contents("IMG"), image.map(|image| image.as_bytes()));
    }
    Ok(())
}

#[test]
fn an_image_can_take_the_place_of_an_input(rt: HostRuntime) -> Result<(), Fail> {
    let alloc = rt.alloc();
    for name in ["SRC", "SCRIPTS"] {
        let words = ["verify", "SRC", "SCRIPTS", name];
        let mut files = MemFiles::new(alloc);
        add_given(alloc, &mut files, "SRC", Given::Five)?;
        files.add("SCRIPTS", b"")?;
        let mut out = MemSink::new(alloc);
        let ended = carry_out_words(alloc, &words, &mut files, &mut out)?;
        check_status(&rt, name, ended, Status::Done);
        check_file(&rt, "", &files, name, FIVE_IMAGE);
        check_put(&rt, name, &out, REPORT);
        // The input is what its file held then, so that what stands there now is no source, or a script.
        let ended = carry_out_words(alloc, &words, &mut files, &mut out)?;
        check_status(&rt, name, ended, Status::Refused);
    }
    Ok(())
}

#[test]
fn a_file_that_is_not_there_is_missing(rt: HostRuntime) -> Result<(), Fail> {
    let alloc = rt.alloc();
    let cases = [
        ("asm NONE IMG", "refused Missing source\n"),
        ("run NONE", "refused Missing image\n"),
        ("run NONE --steps 0", "refused Missing image\n"),
    ];
    for (line, text) in cases {
        let mut files = image_of(alloc, "old")?;
        let mut out = MemSink::new(alloc);
        let ended = carry_out(alloc, line, &mut files, &mut out)?;
        check_status(&rt, line, ended, Status::Refused);
        check_put(&rt, line, &out, text);
        check_file(&rt, line, &files, "IMG", "old");
    }
    Ok(())
}
