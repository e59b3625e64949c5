//! `check`: units that are sound, refusals of each kind in their order, and faults.
use super::{carry_out, check_file, check_put, check_status, files_of};
use sp_base::MemSink;
use sp_cli::Status;
use std::alloc::Global;
use std::process::Abort;
use std::test::Fail;

/// The line that begins each source here.
const STACK: &str = ";# stack 2300H, 23FFH\n";

/// Sources after the line of the stack region, with what `check` puts.
static CHECKED: [(&str, &str); 22] = [
    ("", "sound routines=0 instructions=0\n"),
    (
        ";# routine ORD\n;# pre B <= C\n;# post A < C + 1\n;# reads B, C\n;# changes A\nORD: MOV A,B\n RET\n;# end\n",
        "sound routines=1 instructions=2\n",
    ),
    (
        ";# routine START\n;# start\n;# changes A\n;# depth 2\nSTART: LXI SP,2400H\n CALL FIVE\n;# assert A = 5\nHERE: JMP HERE\n;# end\n;# routine FIVE\n;# post A = 5\n;# changes A\nFIVE: MVI A,5\n RET\n;# end\n",
        "sound routines=2 instructions=5\n",
    ),
    ("NOP #\n", "refused Text 2 BadByte\n"),
    ("MOV M,M\n", "refused Asm 2 Syntax\n"),
    (";# stack 1\n", "refused Note 2 Syntax\n"),
    (
        ";# routine R\n;# pre A\nR: RET\n;# end\n",
        "refused Note 3 Sort\n",
    ),
    ("NOP\n", "refused Unit 2 OutsideRoutine\n"),
    (";# routine R\nS: RET\n;# end\n", "refused Unit 2 Unknown\n"),
    (
        ";# routine R\nR: JMP 0FFFFH\n;# end\n",
        "refused Struct 3 JumpOut\n",
    ),
    (
        ";# routine R\nR: NOP\n;# end\n",
        "refused Struct 3 FallsOff\n",
    ),
    (
        ";# routine R\nR: CALL 5\n RET\n;# end\n",
        "refused Struct 3 CallOut\n",
    ),
    (
        ";# routine ONE\n;# depth 2\nONE: CALL TWO\n RET\n;# end\n;# routine TWO\n;# depth 2\nTWO: CALL ONE\n RET\n;# end\n",
        "refused Struct 4 Recursion\n",
    ),
    (
        ";# routine R\n;# depth 2\nR: PUSH B\n RET\n;# end\n",
        "refused Struct 5 Depth 2 0\n",
    ),
    (
        ";# routine R\n;# changes B, C\nR: POP B\n RET\n;# end\n",
        "refused Struct 5 Depth -2 0\n",
    ),
    (
        ";# routine LOOP\n;# reads B\n;# changes B, FLAGS\nLOOP: DCR B\n JNZ LOOP\n RET\n;# end\n",
        "refused Struct 6 UncutLoop\n",
    ),
    (
        ";# routine R\n;# reads A\nR: STA 0\n RET\n;# end\n",
        "refused Struct 4 CodeWritten\n",
    ),
    (
        ";# routine R\n;# changes A\nR: MOV A,B\n RET\n;# end\n",
        "refused Flow 4 Uses B\n",
    ),
    (
        ";# routine R\n;# changes A\nR: LDA 0A0FFH\n RET\n;# end\n",
        "refused Flow 4 Uses A0FF\n",
    ),
    (
        ";# routine R\n;# reads A\nR: STA 2000H\n RET\n;# end\n",
        "refused Flow 4 Writes 2000\n",
    ),
    (
        ";# routine R\n;# reads A\nR: OUT 5\n RET\n;# end\n",
        "refused Flow 4 Port 05\n",
    ),
    (
        ";# routine R\n;# depth 2\nR: CALL T\n RET\n;# end\n;# routine T\n;# reads CY\nT: RET\n;# end\n",
        "refused Flow 4 CallsReads CY\n",
    ),
];

/// Checks a source, and compares what is put. No file changes.
fn check_source(
    rt: &impl Abort,
    alloc: Global,
    source: &str,
    status: Status,
    text: &str,
) -> Result<(), Fail> {
    let mut files = files_of(alloc, source, "")?;
    let mut out = MemSink::new(alloc);
    let ended = carry_out(alloc, "check SRC", &mut files, &mut out)?;
    check_put(rt, source, &out, text);
    check_status(rt, source, ended, status);
    check_file(rt, source, &files, "SRC", source);
    check_file(rt, source, &files, "IMG", "old");
    Ok(())
}

#[test]
fn a_source_is_sound_or_refused(rt: HostRuntime) -> Result<(), Fail> {
    let alloc = rt.alloc();
    for (below, text) in &CHECKED {
        let source = format!(in alloc; "{STACK}{below}")?;
        let status = if text.starts_with("sound") {
            Status::Done
        } else {
            Status::Refused
        };
        check_source(&rt, alloc, &source, status, text)?;
    }
    check_source(&rt, alloc, "", Status::Refused, "refused Unit 0 NoStack\n")
}

#[test]
fn faults_and_missing_files_of_check(rt: HostRuntime) -> Result<(), Fail> {
    let alloc = rt.alloc();
    let mut files = files_of(alloc, STACK, "")?;
    let mut out = MemSink::new(alloc);
    let ended = carry_out(alloc, "check NONE", &mut files, &mut out)?;
    check_status(&rt, "missing", ended, Status::Refused);
    check_put(&rt, "missing", &out, "refused Missing source\n");
    files.fail(2, 0)?;
    let ended = carry_out(alloc, "check SRC", &mut files, &mut out)?;
    check_status(&rt, "read", ended, Status::ReadFault);
    out.fail(2, 5)?;
    let ended = carry_out(alloc, "check SRC", &mut files, &mut out)?;
    check_status(&rt, "put", ended, Status::SinkFault);
    check_put(&rt, "put", &out, "refused Missing source\nsound");
    Ok(())
}
