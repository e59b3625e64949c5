//! `asm`: images, reports, refusals of each kind, and faults.
use super::{END, carry_out, check_file, check_put, check_status, files_of};
use sp_base::MemSink;
use sp_cli::Status;
use std::alloc::Global;
use std::process::Abort;
use std::test::Fail;

/// A routine that clears sixteen cells. Its annotations are not read.
const CLEAR: &str =
    ";# stack 2300H, 23FFH\n;# bytes BUF, 2000H, 16\n;# routine CLEAR\nCLEAR: LXI H,2000H\n       MVI B,16\n       XRA A\n;# assert A = 0 and 1 <= B and B <= 16\nLOOP:  MOV M,A\n       INX H\n       DCR B\n       JNZ LOOP\n       RET\n;# end\n";

/// Sources with the records of their image, and their report.
static ASSEMBLED: [(&str, &str, &str); 6] = [
    (
        CLEAR,
        ":0D0000002100200610AF772305C20600C9BD\n",
        "assembled bytes=13 names=2\n",
    ),
    ("", "", "assembled bytes=0 names=0\n"),
    (
        "DB 'AAAAAAAAAAAAAAAAA'\n",
        ":1000000041414141414141414141414141414141E0\n:0100100041AE\n",
        "assembled bytes=17 names=0\n",
    ),
    ("DB -1\n", ":01000000FF00\n", "assembled bytes=1 names=0\n"),
    (
        "ORG 0FFFFH\nDB 1\n",
        ":01FFFF000100\n",
        "assembled bytes=1 names=0\n",
    ),
    (
        "X SET 1\nX SET 2\nY EQU X\nN: DB Y\nEND\n#",
        ":0100000002FD\n",
        "assembled bytes=1 names=3\n",
    ),
];

/// Sources that are refused, and the line of the refusal.
static REFUSED: [(&str, &str); 13] = [
    ("ORG 0FFFFH\nMVI A,1\n", "refused Asm 2 PastEnd\n"),
    ("DB 256\n", "refused Asm 1 Range\n"),
    ("NOP\nNOP\nNOP #\n", "refused Text 3 BadByte\n"),
    ("DB 'A\n", "refused Text 1 OpenQuote\n"),
    ("DB 12A\n", "refused Text 1 BadNumber\n"),
    ("NOP\nMOV M,M\n", "refused Asm 2 Syntax\n"),
    ("N: NOP\nN: NOP\n", "refused Asm 2 Duplicate\n"),
    ("ORG N\nN: NOP\n", "refused Asm 1 Later\n"),
    ("NOP\nJMP N\n", "refused Asm 2 Undefined\n"),
    ("DB 1/0\n", "refused Asm 1 ZeroDivisor\n"),
    ("DB 1\nORG 0\nDB 1\n", "refused Asm 3 Overlap\n"),
    ("DB 256\nN: NOP\nN: NOP\n", "refused Asm 3 Duplicate\n"),
    ("N: NOP\nN: NOP\nDB '\n", "refused Text 3 OpenQuote\n"),
];

/// Assembles a source, and compares what IMG holds afterwards and what was put.
fn check_asm(
    rt: &impl Abort,
    alloc: Global,
    source: &str,
    status: Status,
    image: &str,
    text: &str,
) -> Result<(), Fail> {
    let mut files = files_of(alloc, source, "")?;
    let mut out = MemSink::new(alloc);
    let ended = carry_out(alloc, "asm SRC IMG", &mut files, &mut out)?;
    check_status(rt, text, ended, status);
    check_put(rt, text, &out, text);
    check_file(rt, text, &files, "IMG", image);
    check_file(rt, text, &files, "SRC", source);
    check_file(rt, text, &files, "OTHER", "kept");
    Ok(())
}

#[test]
fn a_source_is_assembled(rt: HostRuntime) -> Result<(), Fail> {
    let alloc = rt.alloc();
    for (source, records, report) in &ASSEMBLED {
        let image = format!(in alloc; "{records}{END}")?;
        check_asm(&rt, alloc, source, Status::Done, &image, report)?;
    }
    Ok(())
}

#[test]
fn a_source_is_refused_at_its_line(rt: HostRuntime) -> Result<(), Fail> {
    let alloc = rt.alloc();
    for (source, text) in &REFUSED {
        check_asm(&rt, alloc, source, Status::Refused, "old", text)?;
    }
    Ok(())
}

#[test]
fn a_source_past_a_limit_is_refused(rt: HostRuntime) -> Result<(), Fail> {
    let alloc = rt.alloc();
    let long = " ".repeat(alloc, 4097)?;
    check_asm(
        &rt,
        alloc,
        &long,
        Status::Refused,
        "old",
        "refused Text 1 LongLine\n",
    )?;
    let open = "(".repeat(alloc, 65)?;
    let close = ")".repeat(alloc, 65)?;
    let deep = format!(in alloc; "DB {open}1{close}\n")?;
    check_asm(
        &rt,
        alloc,
        &deep,
        Status::Refused,
        "old",
        "refused Asm 1 TooDeep\n",
    )?;
    let large = "\n".repeat(alloc, 1_048_577)?;
    check_asm(
        &rt,
        alloc,
        &large,
        Status::Refused,
        "old",
        "refused TooLarge source\n",
    )
}

#[test]
fn an_image_can_take_the_place_of_its_source(rt: HostRuntime) -> Result<(), Fail> {
    let alloc = rt.alloc();
    let mut files = files_of(alloc, "DB -1\n", "")?;
    let mut out = MemSink::new(alloc);
    for status in [Status::Done, Status::Refused] {
        let ended = carry_out(alloc, "asm SRC SRC", &mut files, &mut out)?;
        check_status(&rt, "", ended, status);
        check_file(&rt, "", &files, "SRC", ":01000000FF00\n:00000001FF\n");
    }
    check_file(&rt, "", &files, "IMG", "old");
    Ok(())
}

/// The calls of the files and of the sink that fail, with the bytes that each keeps; and the status, what IMG holds
/// afterwards and what was put.
static FAULTS: [(u64, u64, usize, Status, &str, &str); 7] = [
    (1, 1, 9, Status::ReadFault, "old", ""),
    (2, 1, 0, Status::WriteFault, "", ""),
    (2, 1, 10, Status::WriteFault, ":01000000F", ""),
    (
        3,
        1,
        0,
        Status::SinkFault,
        ":01000000FF00\n:00000001FF\n",
        "",
    ),
    (
        3,
        1,
        9,
        Status::SinkFault,
        ":01000000FF00\n:00000001FF\n",
        "assembled",
    ),
    (
        3,
        2,
        9,
        Status::Done,
        ":01000000FF00\n:00000001FF\n",
        "assembled bytes=1 names=0\n",
    ),
    (
        2,
        2,
        99,
        Status::WriteFault,
        ":01000000FF00\n:00000001FF\n",
        "",
    ),
];

#[test]
fn each_call_of_asm_can_fail(rt: HostRuntime) -> Result<(), Fail> {
    let alloc = rt.alloc();
    for (call, put, kept, status, image, text) in &FAULTS {
        let mut files = files_of(alloc, "DB -1\n", "")?;
        files.fail(*call, *kept)?;
        let mut out = MemSink::new(alloc);
        out.fail(*put, *kept)?;
        let ended = carry_out(alloc, "asm SRC IMG", &mut files, &mut out)?;
        assert_eq!(rt; ended, *status, "{call} {kept}");
        check_file(&rt, text, &files, "IMG", image);
        check_put(&rt, image, &out, text);
        check_file(&rt, text, &files, "SRC", "DB -1\n");
    }
    Ok(())
}
