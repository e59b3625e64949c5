//! Sources at the edges of the first form: each rule kept and broken.
use super::{FIVE, FIVE_IMAGE, NOT_BUILT, OPEN, REPORT, check_source, source_with};
use sp_cli::Status;
use std::alloc::Global;
use std::process::Abort;
use std::test::Fail;

/// Lines of the accepted source with others in their place, that say the same.
static SAME: [(usize, usize, &str); 33] = [
    (1, 1, ";# stack 2300H,23FFH\n"),
    (1, 1, "\t ;#\tstack   2300H\t,  23FFH \t\n"),
    (2, 2, "  ;#\t\troutine  FIVE\t\n"),
    (3, 3, ";# post A=5\n"),
    (3, 3, ";# post A= 5\n"),
    (3, 3, ";# post A =5\n"),
    (3, 3, "\t;#\tpost\tA\t=\t5\t\n"),
    (3, 3, ";# post A = 05\n"),
    (3, 3, ";# post A = 005\n"),
    (4, 4, "\t;#   changes\tA  \n"),
    (4, 4, ";# changes A,A\n"),
    (4, 4, ";# changes A , A,\tA\t,A\n"),
    (4, 4, ";# changes B,A\n"),
    (4, 4, ";# changes A,B,C,D,E,H,L\n"),
    (4, 4, ";# changes L,H,E,D,C,B,A,L,H,E,D,C,B,A\n"),
    (5, 5, "FIVE:MVI A,5\n"),
    (5, 5, "\tFIVE:\tMVI\tA\t,\t5\t\n"),
    (5, 5, "     FIVE:      MVI      A    ,   5   \n"),
    (5, 5, "FIVE: MVI A ,5\n"),
    (5, 5, "FIVE: MVI A, 05\n"),
    (5, 5, "FIVE: MVI A,005\n"),
    (6, 6, "RET\n"),
    (6, 6, "\tRET\t \n"),
    (7, 7, ";# end"),
    (7, 7, " ;#\tend "),
    (7, 7, "\t;#  end\t\n"),
    (1, 1, ";# stack 2300H ,23FFH\n"),
    (1, 2, ";# stack 2300H, 23FFH\n;# routine FIVE\n"),
    (5, 6, "FIVE: MVI A,5\nRET\n"),
    (6, 7, "RET\n;# end"),
    (3, 4, ";# post A=5\n;# changes A\n"),
    (5, 5, " FIVE: MVI\tA,5\n"),
    (2, 2, ";# routine FIVE \n"),
];

#[test]
fn blanks_and_zeros_are_free(rt: HostRuntime) -> Result<(), Fail> {
    let alloc = rt.alloc();
    for (first, last, text) in &SAME {
        let source = source_with(alloc, *first, *last, text)?;
        check_source(&rt, alloc, &source, Status::Done, FIVE_IMAGE, REPORT)?;
    }
    Ok(())
}

/// Lines of the annotations with others in their place, that break the form.
static BROKEN_ANNOTATIONS: [(usize, usize, &str); 71] = [
    (1, 7, ""),
    (1, 7, "\n"),
    (1, 1, ""),
    (1, 1, "\n;# stack 2300H, 23FFH\n"),
    (1, 1, ";# stack 2300H, 23FFH\n\n"),
    (1, 1, ";# stack 2300H, 23FFH\n;# stack 2300H, 23FFH\n"),
    (1, 1, ";# stack 2300H, 23FFH"),
    (1, 1, ";#stack 2300H, 23FFH\n"),
    (1, 1, "; # stack 2300H, 23FFH\n"),
    (1, 1, "# stack 2300H, 23FFH\n"),
    (1, 1, ";# Stack 2300H, 23FFH\n"),
    (1, 1, ";# STACK 2300H, 23FFH\n"),
    (1, 1, ";# stack 2300h, 23ffh\n"),
    (1, 1, ";# stack 2300H 23FFH\n"),
    (1, 1, ";# stack 2300H,, 23FFH\n"),
    (1, 1, ";# stack 2300H=23FFH\n"),
    (1, 1, ";# stack 2300H, 23FFH,\n"),
    (1, 1, ";# stack 2300H, 23FEH\n"),
    (1, 1, ";# stack 2301H, 23FFH\n"),
    (1, 1, ";# stack 02300H, 23FFH\n"),
    (1, 1, ";# stack 8960, 9215\n"),
    (1, 1, ";# stack 2300H, 23FFH ; region\n"),
    (1, 1, ";# stack 2300H, 23FFH\r\n"),
    (1, 1, ";# stack 2300H, 23FFH\r"),
    (1, 1, ";#\x0Bstack 2300H, 23FFH\n"),
    (1, 1, ";#\u{a0}stack 2300H, 23FFH\n"),
    (2, 2, ""),
    (2, 2, ";# routine\n"),
    (2, 2, ";# Routine FIVE\n"),
    (2, 2, ";# routine FIVE FIVE\n"),
    (2, 2, ";# routine FIVE,\n"),
    (2, 2, ";# routine FIVE:\n"),
    (2, 2, ";# routine FOUR\n"),
    (2, 2, ";# routine Five\n"),
    (2, 2, ";# routine FIVE\r\n"),
    (3, 3, ""),
    (3, 3, ";# post a = 5\n"),
    (3, 3, ";# post M = 5\n"),
    (3, 3, ";# post SP = 5\n"),
    (3, 3, ";# post AA = 5\n"),
    (3, 3, ";# post FLAGS = 5\n"),
    (3, 3, ";# post A == 5\n"),
    (3, 3, ";# post A 5\n"),
    (3, 3, ";# post A =\n"),
    (3, 3, ";# post = 5\n"),
    (3, 3, ";# post A , 5\n"),
    (3, 3, ";# post A <= 5\n"),
    (3, 3, ";# post 5 = A\n"),
    (3, 3, ";# post A = B\n"),
    (3, 3, ";# post A = 5H\n"),
    (3, 3, ";# post A = 0005\n"),
    (3, 3, ";# post A = -5\n"),
    (3, 3, ";# post A = 5 5\n"),
    (3, 3, ";# post (A = 5)\n"),
    (3, 3, ";# pre A = 5\n"),
    (3, 3, ";# post A = 5\n;# post A = 5\n"),
    (3, 4, ";# changes A\n;# post A = 5\n"),
    (4, 4, ""),
    (4, 4, ";# changes\n"),
    (4, 4, ";# changes A,\n"),
    (4, 4, ";# changes ,A\n"),
    (4, 4, ";# changes A B\n"),
    (4, 4, ";# changes A,,B\n"),
    (4, 4, ";# changes A=B\n"),
    (4, 4, ";# changes AB\n"),
    (4, 4, ";# changes a\n"),
    (4, 4, ";# changes A,M\n"),
    (4, 4, ";# changes A,FLAGS\n"),
    (4, 4, ";# changes A,HL\n"),
    (4, 4, ";# reads A\n;# changes A\n"),
    (4, 4, ";# changes A\n;# changes B\n"),
];

/// Lines of the program and the last line with others in their place, that break the form.
static BROKEN_PROGRAMS: [(usize, usize, &str); 63] = [
    (5, 5, ""),
    (5, 5, "MVI A,5\n"),
    (5, 5, "FIVE MVI A,5\n"),
    (5, 5, "FIVE : MVI A,5\n"),
    (5, 5, "FIVE:\nMVI A,5\n"),
    (5, 5, "\nFIVE: MVI A,5\n"),
    (5, 5, "FIVE: MVI A,5\n\n"),
    (5, 5, "five: MVI A,5\n"),
    (5, 5, "FIVES: MVI A,5\n"),
    (5, 5, "FIV: MVI A,5\n"),
    (5, 5, "FIVE: FIVE: MVI A,5\n"),
    (5, 5, "FIVE:: MVI A,5\n"),
    (5, 5, "FIVE: MVI A,5\nFIVE: MVI A,5\n"),
    (5, 5, "FIVE: mvi A,5\n"),
    (5, 5, "FIVE: MVI a,5\n"),
    (5, 5, "FIVE: MVIA,5\n"),
    (5, 5, "FIVE: MVI A 5\n"),
    (5, 5, "FIVE: MVI A=5\n"),
    (5, 5, "FIVE: MVI A,,5\n"),
    (5, 5, "FIVE: MVI A,\n"),
    (5, 5, "FIVE: MVI A\n"),
    (5, 5, "FIVE: MVI ,5\n"),
    (5, 5, "FIVE: MVI\n"),
    (5, 5, "FIVE: MVI A,5,5\n"),
    (5, 5, "FIVE: MVI A,5 RET\n"),
    (5, 5, "FIVE: MVI A,256\n"),
    (5, 5, "FIVE: MVI A,300\n"),
    (5, 5, "FIVE: MVI A,999\n"),
    (5, 5, "FIVE: MVI A,0005\n"),
    (5, 5, "FIVE: MVI A,5H\n"),
    (5, 5, "FIVE: MVI A,05H\n"),
    (5, 5, "FIVE: MVI A,-5\n"),
    (5, 5, "FIVE: MVI A,'5'\n"),
    (5, 5, "FIVE: MVI A,B\n"),
    (5, 5, "FIVE: MVI M,5\n"),
    (5, 5, "FIVE: MVI A,5 ; five\n"),
    (5, 5, "FIVE: MVI A,5\r\n"),
    (5, 5, "FIVE: MVI A,5\x0C\n"),
    (5, 5, "FIVE: NOP\n"),
    (5, 5, "FIVE: MVI A,5\nADD A\n"),
    (5, 5, "FIVE: MVI A,5\nMOV A,M\n"),
    (5, 5, "FIVE: MVI A,5\nMOV M,A\n"),
    (5, 5, "FIVE: MVI A,5\nMOV B,5\n"),
    (5, 5, "FIVE: MVI A,5\nMOV B A\n"),
    (5, 5, "FIVE: MVI A,5\nMOV B,A,A\n"),
    (5, 5, "FIVE: MVI A,5\nMOV A,B\n"),
    (5, 5, "FIVE: MOV A,B\nMVI B,5\n"),
    (5, 5, "FIVE: MOV A,A\nMVI A,5\n"),
    (5, 5, "FIVE: MVI A,5\nMOV B,C\nMOV C,A\n"),
    (6, 6, ""),
    (6, 6, "ret\n"),
    (6, 6, "RET A\n"),
    (6, 6, "RET,\n"),
    (6, 6, "RNZ\n"),
    (6, 6, "FIVE: RET\n"),
    (6, 6, "RET\nRET\n"),
    (6, 6, "RET\n\n"),
    (7, 7, ""),
    (7, 7, ";#end\n"),
    (7, 7, ";# END\n"),
    (7, 7, ";# end FIVE\n"),
    (7, 7, ";# end\n\n"),
    (7, 7, ";# end\n "),
];

#[test]
fn a_broken_rule_is_not_built(rt: HostRuntime) -> Result<(), Fail> {
    let alloc = rt.alloc();
    for (first, last, text) in BROKEN_ANNOTATIONS.iter().chain(BROKEN_PROGRAMS.iter()) {
        let source = source_with(alloc, *first, *last, text)?;
        check_source(&rt, alloc, &source, Status::Refused, "old", NOT_BUILT)?;
    }
    Ok(())
}

/// Lines of the accepted source with others in their place, that don't meet the annotations.
static UNMET: [(usize, usize, &str); 21] = [
    (3, 3, ";# post A = 6\n"),
    (3, 3, ";# post A = 0\n"),
    (3, 3, ";# post A = 255\n"),
    (3, 3, ";# post A = 256\n"),
    (3, 3, ";# post A = 261\n"),
    (3, 3, ";# post A = 999\n"),
    (3, 3, ";# post B = 5\n"),
    (3, 3, ";# post L = 0\n"),
    (4, 4, ";# changes B\n"),
    (4, 4, ";# changes B,C,D,E,H,L\n"),
    (5, 5, "FIVE: MVI A,6\n"),
    (5, 5, "FIVE: MVI B,5\n"),
    (5, 5, "FIVE: MVI A,5\nMVI A,6\n"),
    (5, 5, "FIVE: MVI A,5\nMVI B,5\n"),
    (5, 5, "FIVE: MVI L,0\nMVI A,5\n"),
    (5, 5, "FIVE: MVI A,5\nMOV B,A\n"),
    (5, 5, "FIVE: MVI A,5\nMOV B,A\nMVI A,6\n"),
    (4, 5, ";# changes A,B\nFIVE: MVI A,6\nMVI B,5\nMOV B,A\n"),
    (4, 5, ";# changes A,B\nFIVE: MVI A,5\nMVI B,6\nMOV A,B\n"),
    (4, 5, ";# changes A,B\nFIVE: MVI B,5\n"),
    (5, 6, "FIVE: RET\n"),
];

#[test]
fn unmet_annotations_are_an_open_condition(rt: HostRuntime) -> Result<(), Fail> {
    let alloc = rt.alloc();
    for (first, last, text) in &UNMET {
        let source = source_with(alloc, *first, *last, text)?;
        check_source(&rt, alloc, &source, Status::Refused, "old", OPEN)?;
    }
    Ok(())
}

/// Lines of the accepted source with others in their place, and the records of their image before the last.
static PROGRAMS: [(usize, usize, &str, &str); 14] = [
    (5, 5, "FIVE: MVI A,6\nMVI A,5\n", ":050000003E063E05C9AB\n"),
    (5, 5, "FIVE: MVI A,5\nMOV A,A\n", ":040000003E057FC971\n"),
    (
        4,
        5,
        ";# changes A,B\nFIVE: MVI B,5\nMOV A,B\n",
        ":04000000060578C9B0\n",
    ),
    (
        4,
        5,
        ";# changes B,A\nFIVE: MVI A,5\nMOV B,A\nMVI A,6\nMOV A,B\n",
        ":070000003E05473E0678C9EA\n",
    ),
    (
        4,
        5,
        ";# changes A,B\nFIVE: MVI A,5\nMVI B,6\nMOV B,A\n",
        ":060000003E05060647C99B\n",
    ),
    (
        3,
        5,
        ";# post A = 6\n;# changes A,B\nFIVE: MVI A,5\nMVI B,6\nMOV A,B\n",
        ":060000003E05060678C96A\n",
    ),
    (
        3,
        5,
        ";# post B = 6\n;# changes A,B\nFIVE: MVI A,5\nMVI B,6\nMOV A,B\n",
        ":060000003E05060678C96A\n",
    ),
    (
        3,
        5,
        ";# post A = 255\n;# changes A\nFIVE: MVI A,255\n",
        ":030000003EFFC9F7\n",
    ),
    (
        3,
        5,
        ";# post A = 000\n;# changes A\nFIVE: MVI A,0\n",
        ":030000003E00C9F6\n",
    ),
    (
        3,
        5,
        ";# post L = 1\n;# changes A,B,C,D,E,H,L\nFIVE: MVI A,1\nMOV B,A\nMOV C,B\nMOV D,C\nMOV E,D\nMOV H,E\nMOV L,H\nMOV A,L\n",
        ":0A0000003E014748515A636C7DC968\n",
    ),
    (
        3,
        5,
        ";# post B = 1\n;# changes A,B,C,D,E,H,L\nFIVE: MVI B,1\nMVI C,2\nMVI D,3\nMVI E,4\nMVI H,5\nMVI L,6\nMVI A,7\n",
        ":0F00000006010E0216031E0426052E063E07C932\n",
    ),
    (
        3,
        5,
        ";# post H = 5\n;# changes L,H,E,D,C,B,A\nFIVE: MVI B,1\nMVI C,2\nMVI D,3\nMVI E,4\nMVI H,5\nMVI L,6\nMVI A,7\n",
        ":0F00000006010E0216031E0426052E063E07C932\n",
    ),
    (
        3,
        5,
        ";# post E = 4\n;# changes L,H,E,D,C,B,A\nFIVE: MVI B,1\nMVI C,2\nMVI D,3\nMVI E,4\nMVI H,5\nMVI L,6\nMVI A,7\n",
        ":0F00000006010E0216031E0426052E063E07C932\n",
    ),
    (5, 7, "FIVE: MVI A,5\nRET\n;# end", ":030000003E05C9F1\n"),
];

#[test]
fn an_accepted_program_is_written_as_its_codes(rt: HostRuntime) -> Result<(), Fail> {
    let alloc = rt.alloc();
    for (first, last, text, records) in &PROGRAMS {
        let source = source_with(alloc, *first, *last, text)?;
        let image = format!(in alloc; "{records}:00000001FF\n")?;
        check_source(&rt, alloc, &source, Status::Done, &image, REPORT)?;
    }
    Ok(())
}

/// The image of 15 times `MVI B,1`, then `MVI A,5` and RET.
const SIXTEEN: &str =
    ":1000000006010601060106010601060106010601B8\n:1000100006010601060106010601060106013E056C\n:01002000C916\n:00000001FF\n";

#[test]
fn a_program_has_at_most_16_lines_before_ret(rt: HostRuntime) -> Result<(), Fail> {
    let alloc = rt.alloc();
    let fifteen = "MVI B,1\n".repeat(alloc, 15)?;
    let lines = format!(in alloc; ";# changes A,B\nFIVE: {fifteen}MVI A,5\n")?;
    let source = source_with(alloc, 4, 5, &lines)?;
    check_source(&rt, alloc, &source, Status::Done, SIXTEEN, REPORT)?;
    let lines = format!(in alloc; ";# changes A,B\nFIVE: {fifteen}MVI A,5\nMVI A,5\n")?;
    let source = source_with(alloc, 4, 5, &lines)?;
    check_source(&rt, alloc, &source, Status::Refused, "old", NOT_BUILT)?;
    let lines = format!(in alloc; ";# changes B\nFIVE: {fifteen}MVI A,5\n")?;
    let source = source_with(alloc, 4, 5, &lines)?;
    check_source(&rt, alloc, &source, Status::Refused, "old", OPEN)
}

/// Verifies the accepted source with one line filled up with blanks to 4,096 bytes, and with one byte more.
fn check_filled(rt: &impl Abort, alloc: Global, number: usize, end: &str) -> Result<(), Fail> {
    let Some(line) = FIVE.get(number.saturating_sub(1)) else {
        return Ok(());
    };
    let line = line.trim_end();
    let blanks = " ".repeat(alloc, 4096usize.saturating_sub(line.len()))?;
    let full = format!(in alloc; "{line}{blanks}{end}")?;
    let source = source_with(alloc, number, number, &full)?;
    check_source(rt, alloc, &source, Status::Done, FIVE_IMAGE, REPORT)?;
    let over = format!(in alloc; "{line}{blanks}\t{end}")?;
    let source = source_with(alloc, number, number, &over)?;
    check_source(rt, alloc, &source, Status::Refused, "old", NOT_BUILT)
}

#[test]
fn a_line_has_at_most_4096_bytes(rt: HostRuntime) -> Result<(), Fail> {
    let alloc = rt.alloc();
    for number in 1..8usize {
        check_filled(&rt, alloc, number, "\n")?;
    }
    check_filled(&rt, alloc, 7, "")
}

/// The accepted source with another name, and with another value in its postcondition if that is not to be met.
fn named(alloc: Global, name: &str, value: &str) -> Result<String, Fail> {
    let lines = format!(in alloc;
        ";# routine {name}\n;# post A = {value}\n;# changes A\n{name}: MVI A,5\n"
    )?;
    source_with(alloc, 2, 5, &lines)
}

/// Verifies the source under a name that is one, with its postcondition met and not.
fn check_name(rt: &impl Abort, alloc: Global, name: &str) -> Result<(), Fail> {
    let source = named(alloc, name, "5")?;
    check_source(rt, alloc, &source, Status::Done, FIVE_IMAGE, REPORT)?;
    let source = named(alloc, name, "6")?;
    let open = format!(in alloc; "refused Open {name}.1\n")?;
    check_source(rt, alloc, &source, Status::Refused, "old", &open)
}

/// Words that are no name: too short or too long, with another letter, or with a meaning of their own.
static NO_NAMES: [&str; 33] = [
    "FIV",
    "F",
    "A",
    "HLT",
    "FIVEFIVEFIVEFIVEFIVEFIVEFIVEFIVE",
    "Five",
    "five",
    "FIVe",
    "FIV5",
    "5IVE",
    "FI_VE",
    "FI?VE",
    "@FIVE",
    "FIVE[",
    "FIVÉ",
    "FI VE",
    "FI,VE",
    "CALL",
    "PUSH",
    "LDAX",
    "STAX",
    "SHLD",
    "LHLD",
    "XTHL",
    "SPHL",
    "PCHL",
    "XCHG",
    "TRUE",
    "FALSE",
    "ADDR",
    "BAND",
    "BXOR",
    "SOME",
];

#[test]
fn a_name_has_4_to_31_letters_and_no_other_meaning(rt: HostRuntime) -> Result<(), Fail> {
    let alloc = rt.alloc();
    let names = [
        "AAAA",
        "ZZZZ",
        "FIVES",
        "CALLS",
        "ACALL",
        "FALS",
        "FALSES",
        "MOVE",
        "SOMEX",
        "FIVEFIVEFIVEFIVEFIVEFIVEFIVEFIV",
    ];
    for name in names {
        check_name(&rt, alloc, name)?;
    }
    for name in &NO_NAMES {
        let source = named(alloc, name, "5")?;
        check_source(&rt, alloc, &source, Status::Refused, "old", NOT_BUILT)?;
    }
    Ok(())
}
