//! `run`: texts of runs, refusals of each kind, and faults.
use super::{carry_out, check_file, check_put, check_status, image_of};
use sp_base::MemSink;
use sp_cli::Status;
use std::alloc::Global;
use std::process::Abort;
use std::test::Fail;

/// The state after `MVI A,5` and RET.
const RETURNED: &str =
    "A=05 B=00 C=00 D=00 E=00 H=00 L=00 S=0 Z=0 AC=0 P=0 CY=0 SP=0002 PC=053E steps=2 running\n";

/// Texts of images with option words, and the text of their run.
static RAN: [(&str, &str, &str); 9] = [
    (
        ":0100000008F7\n:00000001FF\n",
        "",
        "A=00 B=00 C=00 D=00 E=00 H=00 L=00 S=0 Z=0 AC=0 P=0 CY=0 SP=0000 PC=0000 steps=0 stuck 08\n",
    ),
    (
        ":0100000027D8\n:00000001FF\n",
        " --set A=9BH --steps 1",
        "A=01 B=00 C=00 D=00 E=00 H=00 L=00 S=0 Z=0 AC=1 P=0 CY=1 SP=0000 PC=0001 steps=1 running\n",
    ),
    (
        ":0100000027D8\n:00000001FF\n",
        " --steps=01 --set a=9bh",
        "A=01 B=00 C=00 D=00 E=00 H=00 L=00 S=0 Z=0 AC=1 P=0 CY=1 SP=0000 PC=0001 steps=1 running\n",
    ),
    (
        ":0D0000002100200610AF772305C20600C9BD\n:00000001FF\n",
        " --steps 67",
        "A=00 B=00 C=00 D=00 E=00 H=20 L=10 S=0 Z=1 AC=1 P=1 CY=0 SP=0000 PC=000C steps=67 running\n",
    ),
    (":030000003E05C9F1\n:00000001FF\n", " --steps 2", RETURNED),
    (
        ":030000003e05c9f1\r\n:00000001ff\r\n",
        " --steps 2",
        RETURNED,
    ),
    (":030000003E05C9F1\n:00000001FF", " --steps 2", RETURNED),
    (
        ":05000000DB01D3A07636\n:00000001FF\n",
        " --set IN=7 --set IN=8",
        "out A0 07\nA=07 B=00 C=00 D=00 E=00 H=00 L=00 S=0 Z=0 AC=0 P=0 CY=0 SP=0000 PC=0004 steps=3 halted\n",
    ),
    (
        ":00000001FF\n",
        " --pc 65535",
        "A=00 B=00 C=00 D=00 E=00 H=00 L=00 S=0 Z=0 AC=0 P=0 CY=0 SP=0000 PC=270F steps=10000 running\n",
    ),
];

/// Texts that are refused, and the line of the refusal.
static REFUSED: [(&str, &str); 8] = [
    (":0100000008F7\n", "refused Image NoEnd\n"),
    (":0100000008F7", "refused Image NoEnd\n"),
    ("", "refused Image NoEnd\n"),
    (":0100000008F8\n", "refused Image 1 BadSum\n"),
    (":030000003", "refused Image 1 BadRecord\n"),
    (
        ":0100000008F7\n:0100000008F7\n:00000001FF\n",
        "refused Image 2 Overlap\n",
    ),
    (":00000001FF\n\n:00000001FF\n", "refused Image 3 AfterEnd\n"),
    ("\n:00000001FF\n", "refused Image 1 BadRecord\n"),
];

/// Runs what IMG holds, and compares what was put. No file changes.
fn check_run(
    rt: &impl Abort,
    alloc: Global,
    image: &str,
    options: &str,
    status: Status,
    text: &str,
) -> Result<(), Fail> {
    let mut files = image_of(alloc, image)?;
    let mut out = MemSink::new(alloc);
    let line = format!(in alloc; "run IMG{options}")?;
    let ended = carry_out(alloc, &line, &mut files, &mut out)?;
    check_status(rt, text, ended, status);
    check_put(rt, text, &out, text);
    check_file(rt, text, &files, "IMG", image);
    Ok(())
}

#[test]
fn an_image_is_run_under_its_options(rt: HostRuntime) -> Result<(), Fail> {
    let alloc = rt.alloc();
    for (image, options, text) in &RAN {
        check_run(&rt, alloc, image, options, Status::Done, text)?;
    }
    Ok(())
}

#[test]
fn a_text_that_is_no_image_is_refused(rt: HostRuntime) -> Result<(), Fail> {
    let alloc = rt.alloc();
    for (image, text) in &REFUSED {
        check_run(&rt, alloc, image, "", Status::Refused, text)?;
    }
    Ok(())
}

#[test]
fn a_text_past_the_limit_is_refused(rt: HostRuntime) -> Result<(), Fail> {
    let alloc = rt.alloc();
    let large = "\n".repeat(alloc, 1_048_577)?;
    check_run(
        &rt,
        alloc,
        &large,
        "",
        Status::Refused,
        "refused TooLarge image\n",
    )
}

/// The calls of the files and of the sink that fail, with the bytes that each keeps; and the status and what was put.
static FAULTS: [(u64, u64, usize, Status, &str); 5] = [
    (1, 1, 9, Status::ReadFault, ""),
    (2, 1, 0, Status::SinkFault, ""),
    (2, 1, 10, Status::SinkFault, "A=05 B=00 "),
    (2, 1, 999, Status::SinkFault, RETURNED),
    (2, 2, 10, Status::Done, RETURNED),
];

#[test]
fn each_call_of_run_can_fail(rt: HostRuntime) -> Result<(), Fail> {
    let alloc = rt.alloc();
    for (call, put, kept, status, text) in &FAULTS {
        let mut files = image_of(alloc, ":030000003E05C9F1\n:00000001FF\n")?;
        files.fail(*call, *kept)?;
        let mut out = MemSink::new(alloc);
        out.fail(*put, *kept)?;
        let ended = carry_out(alloc, "run IMG --steps 2", &mut files, &mut out)?;
        assert_eq!(rt; ended, *status, "{call} {kept}");
        check_put(&rt, text, &out, text);
    }
    Ok(())
}
