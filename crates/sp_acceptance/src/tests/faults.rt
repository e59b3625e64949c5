//! Faults of the files and of the sink, at each call and with each number of bytes kept.
use super::{
    FIVE_IMAGE, OPEN, REPORT, carry_out_words, check_file, check_put, check_status, files_of, five,
    source_with, verify,
};
use sp_base::MemSink;
use sp_cli::Status;
use std::alloc::Global;
use std::process::Abort;
use std::test::Fail;

/// The bytes that a faulty call keeps of a text.
fn front(text: &str, kept: usize) -> &[u8] {
    let bytes = text.as_bytes();
    &bytes[..kept.min(bytes.len())]
}

/// What a call of the files, or of the sink, that fails leaves.
#[derive(Clone, Copy)]
struct Fault<'a> {
    source: &'a str,
    /// The calls that fail, with the bytes that each keeps.
    calls: &'a [(u64, usize)],
    puts: &'a [(u64, usize)],
}

/// Verifies a source with faults, and compares what is left.
fn check_fault(
    rt: &impl Abort,
    alloc: Global,
    fault: &Fault<'_>,
    status: Status,
    image: &[u8],
    taken: &[u8],
) -> Result<(), Fail> {
    let mut files = files_of(alloc, fault.source, "")?;
    for (call, kept) in fault.calls {
        files.fail(*call, *kept)?;
    }
    let mut out = MemSink::new(alloc);
    for (put, kept) in fault.puts {
        out.fail(*put, *kept)?;
    }
    check_status(
        rt,
        fault.source,
        verify(alloc, &mut files, &mut out)?,
        status,
    );
    assert_eq!(rt; (files.contents("IMG"), out.taken()), (Some(image), taken));
    check_file(rt, "", &files, "SRC", fault.source);
    check_file(rt, "", &files, "SCRIPTS", "");
    check_file(rt, "", &files, "OTHER", "kept");
    Ok(())
}

#[test]
fn a_failing_read_leaves_all_as_it_was(rt: HostRuntime) -> Result<(), Fail> {
    let alloc = rt.alloc();
    let five = five(alloc)?;
    let six = source_with(alloc, 3, 3, ";# post A = 6\n")?;
    for source in [five.as_str(), six.as_str(), "NOP\n", ""] {
        for calls in [
            [(1, 0), (9, 0)],
            [(2, 0), (9, 0)],
            [(1, 9), (2, 9)],
            [(2, 3), (3, 3)],
        ] {
            let fault = Fault {
                source,
                calls: &calls,
                puts: &[(1, 3)],
            };
            check_fault(&rt, alloc, &fault, Status::ReadFault, b"old", b"")?;
        }
    }
    Ok(())
}

#[test]
fn a_failing_write_leaves_a_front_of_the_image(rt: HostRuntime) -> Result<(), Fail> {
    let alloc = rt.alloc();
    let source = five(alloc)?;
    for kept in 0..32usize {
        let fault = Fault {
            source: &source,
            calls: &[(3, kept)],
            puts: &[(1, 3)],
        };
        let image = front(FIVE_IMAGE, kept);
        check_fault(&rt, alloc, &fault, Status::WriteFault, image, b"")?;
    }
    Ok(())
}

#[test]
fn a_failing_put_leaves_a_front_of_the_text(rt: HostRuntime) -> Result<(), Fail> {
    let alloc = rt.alloc();
    let five = five(alloc)?;
    let six = source_with(alloc, 3, 3, ";# post A = 6\n")?;
    for kept in 0..60usize {
        let puts = [(1, kept)];
        let accepted = Fault {
            source: &five,
            calls: &[],
            puts: &puts,
        };
        let taken = front(REPORT, kept);
        let image = FIVE_IMAGE.as_bytes();
        check_fault(&rt, alloc, &accepted, Status::SinkFault, image, taken)?;
        let open = Fault {
            source: &six,
            calls: &[(3, 0)],
            puts: &puts,
        };
        let taken = front(OPEN, kept);
        check_fault(&rt, alloc, &open, Status::SinkFault, b"old", taken)?;
    }
    Ok(())
}

#[test]
fn calls_that_are_not_made_do_not_fail(rt: HostRuntime) -> Result<(), Fail> {
    let alloc = rt.alloc();
    let five = five(alloc)?;
    let fault = Fault {
        source: &five,
        calls: &[(4, 0), (0, 0)],
        puts: &[(2, 0), (0, 0)],
    };
    let (image, report) = (FIVE_IMAGE.as_bytes(), REPORT.as_bytes());
    check_fault(&rt, alloc, &fault, Status::Done, image, report)?;
    let six = source_with(alloc, 3, 3, ";# post A = 6\n")?;
    let fault = Fault {
        source: &six,
        calls: &[(3, 0)],
        puts: &[(2, 0)],
    };
    check_fault(&rt, alloc, &fault, Status::Refused, b"old", OPEN.as_bytes())
}

#[test]
fn a_fault_comes_before_what_the_file_would_say(rt: HostRuntime) -> Result<(), Fail> {
    let alloc = rt.alloc();
    let names = [
        (["NONE", "SCRIPTS"], 1, Status::ReadFault),
        (["NONE", "SCRIPTS"], 2, Status::Refused),
        (["SRC", "NONE"], 1, Status::ReadFault),
        (["SRC", "NONE"], 2, Status::ReadFault),
        (["SRC", "NONE"], 3, Status::Refused),
    ];
    for ([source, scripts], call, status) in names {
        let words = ["verify", source, scripts, "IMG"];
        let mut files = files_of(alloc, &five(alloc)?, "")?;
        files.fail(call, 0)?;
        let mut out = MemSink::new(alloc);
        let ended = carry_out_words(alloc, &words, &mut files, &mut out)?;
        check_status(&rt, source, ended, status);
        assert_eq!(rt;
            out.taken().is_empty(),
            status == Status::ReadFault,
            "{call}"
        );
        check_file(&rt, source, &files, "IMG", "old");
    }
    Ok(())
}

#[test]
fn calls_are_counted_from_one_command_to_the_next(rt: HostRuntime) -> Result<(), Fail> {
    let alloc = rt.alloc();
    let mut files = files_of(alloc, &five(alloc)?, "")?;
    let mut out = MemSink::new(alloc);
    files.fail(4, 0)?;
    files.fail(7, 10)?;
    out.fail(2, 4)?;
    let statuses = [
        Status::Done,
        Status::ReadFault,
        Status::WriteFault,
        Status::SinkFault,
        Status::Done,
    ];
    let images = [FIVE_IMAGE, FIVE_IMAGE, ":030000003", FIVE_IMAGE, FIVE_IMAGE];
    for (status, image) in statuses.into_iter().zip(images) {
        check_status(&rt, image, verify(alloc, &mut files, &mut out)?, status);
        check_file(&rt, "", &files, "IMG", image);
    }
    let taken = format!(in alloc; "{REPORT}acce{REPORT}")?;
    check_put(&rt, "", &out, &taken);
    Ok(())
}

#[test]
fn a_failing_put_leaves_a_front_of_the_usage_line(rt: HostRuntime) -> Result<(), Fail> {
    let alloc = rt.alloc();
    for (kept, taken) in [(0, ""), (1, "u"), (7, "usage: "), (16, "usage: space8080")] {
        let mut files = files_of(alloc, &five(alloc)?, "")?;
        let mut out = MemSink::new(alloc);
        out.fail(1, kept)?;
        let ended = carry_out_words(alloc, &["verify"], &mut files, &mut out)?;
        check_status(&rt, taken, ended, Status::SinkFault);
        check_put(&rt, taken, &out, taken);
        check_file(&rt, taken, &files, "IMG", "old");
    }
    Ok(())
}
