ghost use Rattle.std.specs.Prelude.{◌<◌, length};

use sp_base::{Image, Line, Loc, Memory, Refused, Reg};
use sp_hex::{HexKind, load, read, write};
use sp_machine::Machine;
use std::alloc::Global;
use std::process::Abort;
use std::test::Fail;

/// Writes the bytes from an address on, and compares the text.
fn check_written(
    rt: &impl Abort,
    alloc: Global,
    address: u16,
    bytes: &[u8],
    text: &str,
) -> Result<(), Fail> {
    let mut image = Image::new(alloc);
    let mut a = address;
    for byte in bytes {
        image.set(a, *byte)?;
        a = a.wrapping_add(1);
    }
    assert_eq!(rt; write(alloc, &image)?.as_slice(), text.as_bytes());
    Ok(())
}

/// An address, the bytes from there on, and the text of their image.
static WRITTEN: [(u16, &[u8], &str); 9] = [
    (0, &[], ":00000001FF\n"),
    (0, &[0x3E, 5, 0xC9], ":030000003E05C9F1\n:00000001FF\n"),
    (
        0,
        &[5, 0xC2, 0, 0, 0xC9],
        ":0500000005C20000C96B\n:00000001FF\n",
    ),
    (
        0,
        &[
            0x21, 0, 0x20, 6, 0x10, 0xAF, 0x77, 0x23, 5, 0xC2, 6, 0, 0xC9,
        ],
        ":0D0000002100200610AF772305C20600C9BD\n:00000001FF\n",
    ),
    (0, &[0xFF], ":01000000FF00\n:00000001FF\n"),
    (0xFFFF, &[1], ":01FFFF000100\n:00000001FF\n"),
    (
        0,
        &[b'A'; 17],
        ":1000000041414141414141414141414141414141E0\n:0100100041AE\n:00000001FF\n",
    ),
    (
        0xFFFF,
        &[1, 2],
        ":0100000002FD\n:01FFFF000100\n:00000001FF\n",
    ),
    (
        0x1234,
        &[0x10; 16],
        ":1012340010101010101010101010101010101010AA\n:00000001FF\n",
    ),
];

#[test]
fn runs_are_written_in_records_of_16_bytes(rt: HostRuntime) -> Result<(), Fail> {
    for (address, bytes, text) in &WRITTEN {
        check_written(&rt, rt.alloc(), *address, bytes, text)?;
    }
    Ok(())
}

/// Reads a text that stands for these bytes from address 0 on.
fn check_read(rt: &impl Abort, alloc: Global, text: &str, bytes: &[u8]) -> Result<(), Fail>
    requires { length text.now < 4294967295 }
{
    let image = read(alloc, text.as_bytes())?;
    assert_eq!(rt; image.len() as usize, bytes.len(), "{text}");
    let mut a = 0u16;
    for byte in bytes {
        assert_eq!(rt; image.get(a), Some(*byte), "{text}");
        a = a.wrapping_add(1);
    }
    Ok(())
}

#[test]
fn a_text_is_read(rt: HostRuntime) -> Result<(), Fail> {
    let alloc = rt.alloc();
    let texts = [
        ":00000001FF",
        ":00123401B9\n",
        ":00000001FF\n\n\r\n\n",
        ":0000000000\n:00123400BA\n:00FFFF0002\n:00000001FF",
    ];
    for text in texts {
        check_read(&rt, alloc, text, b"")?;
    }
    let texts = [
        ":030000003E05C9F1\n:00000001FF\n",
        ":030000003E05C9F1\n:00000001FF",
        ":030000003e05c9f1\r\n:00000001ff\r\n",
        ":01000200C934\n:020000003e05BB\n:00000001fF",
    ];
    for text in texts {
        check_read(&rt, alloc, text, &[0x3e, 5, 0xc9])?;
    }
    Ok(())
}

/// Texts whose first line isn't a record.
static NO_RECORDS: [&str; 21] = [
    "\n:00000001FF",
    ":",
    ":030000003",
    "0100000008F7",
    ":0100000008F",
    ":01000000G8F7",
    ":0200000008F6",
    ":0000000008F8",
    ":0200000008F7",
    ":0100000108F6",
    ":020000021000EC",
    ":0400000300003800C1",
    ":020000040800F2",
    ":04000005000000CD2A",
    ":000000FF01",
    ":02FFFF000102FD",
    ":0100000008F7\r:00000001FF\n",
    ":00000001FF\r",
    " :00000001FF",
    ":00000001FF ",
    ":0000000G\n:0100000008F8",
];

/// Texts with the lines at which they are refused, and how.
static REFUSED: [(&str, u32, HexKind); 13] = [
    ("", 0, HexKind::NoEnd),
    (":0100000008F7", 0, HexKind::NoEnd),
    (":0100000008F7\n", 0, HexKind::NoEnd),
    (":0100000008F8", 1, HexKind::BadSum),
    (":00000001FE", 1, HexKind::BadSum),
    (":0100000008F8\nx", 1, HexKind::BadSum),
    (":0100000008F7\n:0100000008F8", 2, HexKind::BadSum),
    (
        ":0100000008F7\n:0100000008F7\n:00000001FF",
        2,
        HexKind::Overlap,
    ),
    (":0100010008F6\r\n:020000000708EF\r\nx", 2, HexKind::Overlap),
    (":00000001FF\nx", 2, HexKind::AfterEnd),
    (":00000001FF\n \n", 2, HexKind::AfterEnd),
    (":00000001FF\n\n:00000001FF", 3, HexKind::AfterEnd),
    (
        ":0100000008F7\n:00000001FF\n:0100000008F7\n:00000001FF\n",
        3,
        HexKind::AfterEnd,
    ),
];

fn check_refused(rt: &impl Abort, alloc: Global, text: &str, line: u32, kind: HexKind) {
    assert!(rt; text.len() < 10_000);
    let refusal = Refused::At(Line(line), kind);
    assert_eq!(rt; read(alloc, text.as_bytes()).err(), Some(refusal), "{text}");
}

#[test]
fn a_text_is_refused_at_its_lowest_line(rt: HostRuntime) {
    let alloc = rt.alloc();
    for text in &NO_RECORDS {
        check_refused(&rt, alloc, text, 1, HexKind::BadRecord);
    }
    for (text, line, kind) in &REFUSED {
        check_refused(&rt, alloc, text, *line, *kind);
    }
}

#[test]
fn a_cut_text_is_refused(rt: HostRuntime) {
    let text = b":030000003E05C9F1\n:00000001FF\n";
    for kept in 0..text.len() {
        let image = read(rt.alloc(), &text[..kept]);
        assert_eq!(rt; image.is_ok(), kept == 29);
    }
}

/// An image of runs of bytes, each with its first address. Address 0 comes after FFFFH.
fn image_of(alloc: Global, runs: &[(u16, &[u8])]) -> Result<Image, Memory> {
    let mut image = Image::new(alloc);
    for (address, bytes) in runs {
        let mut a = *address;
        for byte in *bytes {
            image.set(a, *byte)?;
            a = a.wrapping_add(1);
        }
    }
    Ok(image)
}

/// A machine with E5H in each cell, and other values than those of a new machine in its other parts.
fn used_machine(alloc: Global) -> Result<Machine, Memory> {
    let mut machine = Machine::new(alloc)?;
    // HLT
    machine.set_cell(0, 0x76);
    let _ = machine.step(0);
    for a in 0..65536u32 {
        machine.set_cell(a as u16, 0xE5);
    }
    for (r, value) in [
        (Reg::B, 1),
        (Reg::C, 2),
        (Reg::D, 3),
        (Reg::E, 4),
        (Reg::H, 5),
        (Reg::L, 6),
        (Reg::A, 7),
    ] {
        machine.set_reg(r, value);
    }
    for f in [Loc::S, Loc::Z, Loc::Ac, Loc::P, Loc::Cy] {
        machine.set_flag(f, 1);
    }
    machine.set_sp(0x2400);
    machine.set_pc(0x1234);
    Ok(machine)
}

/// Whether the machine has what `used_machine` puts into its parts other than memory.
fn is_used(machine: &Machine) -> bool {
    let registers = [
        machine.reg(Reg::B),
        machine.reg(Reg::C),
        machine.reg(Reg::D),
        machine.reg(Reg::E),
        machine.reg(Reg::H),
        machine.reg(Reg::L),
        machine.reg(Reg::A),
    ];
    let flags = [
        machine.flag(Loc::S),
        machine.flag(Loc::Z),
        machine.flag(Loc::Ac),
        machine.flag(Loc::P),
        machine.flag(Loc::Cy),
    ];
    registers == [1, 2, 3, 4, 5, 6, 7]
        && flags == [1; 5]
        && machine.sp() == 0x2400
        && machine.pc() == 0x1234
        && machine.halted()
}

/// How many cells of memory have other bytes than E5H.
fn changed_cells(machine: &Machine) -> u32 {
    let mut count = 0u32;
    for a in 0..65536u32 {
        if machine.cell(a as u16) != 0xE5 {
            count = count.wrapping_add(1);
        }
    }
    count
}

/// Images as runs, and the bytes that stand at addresses once the image is loaded. No byte of an image is E5H.
static LOADED: [(&[(u16, &[u8])], u32, &[(u16, u8)]); 6] = [
    (&[], 0, &[(0, 0xE5), (0xFFFF, 0xE5)]),
    (&[(0, &[0])], 1, &[(0, 0), (1, 0xE5), (0xFFFF, 0xE5)]),
    (&[(0xFFFF, &[0xC9])], 1, &[(0xFFFF, 0xC9), (0, 0xE5)]),
    (
        &[(0x00FE, &[1, 2, 3, 4])],
        4,
        &[
            (0xFD, 0xE5),
            (0xFE, 1),
            (0xFF, 2),
            (0x100, 3),
            (0x101, 4),
            (0x102, 0xE5),
        ],
    ),
    (
        &[(0xFFFE, &[1, 2, 3])],
        3,
        &[(0xFFFD, 0xE5), (0xFFFE, 1), (0xFFFF, 2), (0, 3), (1, 0xE5)],
    ),
    (
        &[(0x8000, &[5, 6]), (0, &[7]), (0x8004, &[8])],
        4,
        &[
            (0, 7),
            (0x8000, 5),
            (0x8001, 6),
            (0x8002, 0xE5),
            (0x8003, 0xE5),
            (0x8004, 8),
        ],
    ),
];

#[test]
fn an_image_is_loaded(rt: HostRuntime) -> Result<(), Fail> {
    let alloc = rt.alloc();
    for (runs, changed, cells) in &LOADED {
        let image = image_of(alloc, runs)?;
        let mut machine = used_machine(alloc)?;
        // The second time changes nothing.
        for _ in 0..2 {
            load(&image, &mut machine);
            assert_eq!(rt; changed_cells(&machine), *changed);
            for (a, byte) in *cells {
                assert_eq!(rt; machine.cell(*a), *byte, "{a}");
            }
            assert!(rt; is_used(&machine));
        }
    }
    Ok(())
}

#[test]
fn an_image_is_loaded_over_another(rt: HostRuntime) -> Result<(), Fail> {
    let alloc = rt.alloc();
    let mut machine = used_machine(alloc)?;
    load(&image_of(alloc, &[(0xFE, &[1, 2, 3, 4])])?, &mut machine);
    load(
        &image_of(alloc, &[(0x100, &[5]), (0x102, &[6])])?,
        &mut machine,
    );
    let cells = [
        (0xFD, 0xE5),
        (0xFE, 1),
        (0xFF, 2),
        (0x100, 5),
        (0x101, 4),
        (0x102, 6),
        (0x103, 0xE5),
    ];
    for (a, byte) in cells {
        assert_eq!(rt; machine.cell(a), byte, "{a}");
    }
    assert_eq!(rt; changed_cells(&machine), 5);
    assert!(rt; is_used(&machine));
    Ok(())
}
