//! Words that are in no form, and the numbers of statuses.
use super::{FIVE_IMAGE, carry_out_words, check_file, check_put, check_status, files_of, five};
use sp_base::MemSink;
use sp_cli::Status;
use std::test::Fail;

const USAGE: &str =
    "usage: space8080 verify SRC SCRIPTS IMG | asm SRC IMG | check SRC | conds SRC | run IMG | trial SRC NAME | gen N\n";

/// One command line each, with `/` between words.
static NO_FORM: [&str; 56] = [
    "verify",
    "verify/SRC",
    "verify/SRC/SCRIPTS",
    "verify/SRC/SCRIPTS/IMG/IMG",
    "verify/SRC/SCRIPTS/IMG/",
    "/SRC/SCRIPTS/IMG",
    "SRC/SCRIPTS/IMG",
    "Verify/SRC/SCRIPTS/IMG",
    "VERIFY/SRC/SCRIPTS/IMG",
    "verif/SRC/SCRIPTS/IMG",
    "verify /SRC/SCRIPTS/IMG",
    "SRC/verify/SCRIPTS/IMG",
    "verify/-/SCRIPTS/IMG",
    "verify/-SRC/SCRIPTS/IMG",
    "verify/SRC/--/IMG",
    "verify/SRC/--pc/IMG",
    "verify/SRC/SCRIPTS/-IMG",
    "--/verify/SRC/SCRIPTS/IMG",
    "verify/--/SRC/SCRIPTS/IMG",
    "-verify/SRC/SCRIPTS/IMG",
    "verify/SRC/SCRIPTS/IMG/--steps/1",
    "help",
    "--help",
    "",
    "gen/0",
    "asm",
    "asm/SRC",
    "asm/SRC/IMG/IMG",
    "asm/-/IMG",
    "asm/SRC/-IMG",
    "Asm/SRC/IMG",
    "asm/SRC/IMG/--steps/1",
    "check",
    "check/SRC/SRC",
    "check/-SRC",
    "Check/SRC",
    "run",
    "run/IMG/IMG",
    "run/-IMG",
    "Run/IMG",
    "run/--steps/1/IMG",
    "--steps/1/run/IMG",
    "run/IMG/--",
    "run/IMG/--/IMG",
    "run/IMG/-pc/1",
    "run/IMG/--pc/1/--pc/2",
    "run/IMG/--pc=1/--pc=1",
    "run/IMG/--pc/65536",
    "run/IMG/--steps",
    "run/IMG/--steps/1000001",
    "run/IMG/--steps/1/--steps/1",
    "run/IMG/--steps/1H",
    "run/IMG/--set/A=256",
    "run/IMG/--set=A=1",
    "run/IMG/--set/PC=1",
    "run/IMG/--help",
];

/// Commands that are not built yet.
static NOT_BUILT_YET: [&str; 3] = ["conds/SRC", "trial/SRC/FIVE", "gen/1"];

#[test]
fn words_in_no_form_put_the_usage_line(rt: HostRuntime) -> Result<(), Fail> {
    let alloc = rt.alloc();
    for line in NO_FORM.iter().chain(NOT_BUILT_YET.iter()) {
        let words = line.split('/').collect::<Vec<&str>>(alloc)?;
        let mut files = files_of(alloc, &five(alloc)?, "")?;
        // No file is read, so that no call can fail.
        files.fail(1, 0)?;
        let mut out = MemSink::new(alloc);
        let ended = carry_out_words(alloc, &words, &mut files, &mut out)?;
        check_status(&rt, line, ended, Status::Usage);
        check_put(&rt, line, &out, USAGE);
        check_file(&rt, line, &files, "IMG", "old");
    }
    Ok(())
}

#[test]
fn no_words_put_the_usage_line(rt: HostRuntime) -> Result<(), Fail> {
    let alloc = rt.alloc();
    let mut files = files_of(alloc, &five(alloc)?, "")?;
    let mut out = MemSink::new(alloc);
    let ended = carry_out_words(alloc, &[], &mut files, &mut out)?;
    check_status(&rt, "", ended, Status::Usage);
    check_put(&rt, "", &out, USAGE);
    Ok(())
}

#[test]
fn a_file_name_is_any_word_that_begins_with_no_sign(rt: HostRuntime) -> Result<(), Fail> {
    let alloc = rt.alloc();
    let names = [
        ["", "a-", "é"],
        [" -", "steps--", "a b"],
        ["verify", "/", "\n"],
    ];
    for [source, scripts, image] in names {
        let words = ["verify", source, scripts, image];
        let mut files = files_of(alloc, "", "")?;
        files.add(source, five(alloc)?.as_bytes())?;
        files.add(scripts, b"")?;
        let mut out = MemSink::new(alloc);
        let ended = carry_out_words(alloc, &words, &mut files, &mut out)?;
        check_status(&rt, image, ended, Status::Done);
        check_file(&rt, image, &files, image, FIVE_IMAGE);
    }
    Ok(())
}

#[test]
fn statuses_have_the_numbers_0_to_7(rt: HostRuntime) {
    let statuses = [
        Status::Done,
        Status::Refused,
        Status::Usage,
        Status::ReadFault,
        Status::WriteFault,
        Status::SinkFault,
        Status::Memory,
        Status::TooLong,
    ];
    let mut number = 0u8;
    for status in statuses {
        assert_eq!(rt; status.exit_number(), number);
        number = number.wrapping_add(1);
    }
}
