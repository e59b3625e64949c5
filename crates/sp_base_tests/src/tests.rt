use sp_base::{
    Files, Image, Loc, MemFiles, MemSink, Name, ReadRefusal, Reg, Sink, WriteRefusal, first_row,
};
use std::test::Fail;

#[test]
fn an_image_keeps_bytes_by_address(rt: HostRuntime) -> Result<(), Fail> {
    let mut image = Image::new(rt.alloc());
    assert_eq!(rt; image.next(0), None);
    image.set(65_535, 7)?;
    image.set(3, 1)?;
    image.set(3, 2)?;
    assert_eq!(rt; image.len(), 2);
    assert_eq!(rt; image.get(3), Some(2));
    assert_eq!(rt; image.get(4), None);
    assert_eq!(rt; image.next(3), Some((3, 2)));
    assert_eq!(rt; image.next(4), Some((65_535, 7)));
    assert_eq!(rt; image.next(65_536), None);
    Ok(())
}

#[test]
fn bytes_are_placed_up_to_one_that_is_there(rt: HostRuntime) -> Result<(), Fail> {
    let mut image = Image::new(rt.alloc());
    assert_eq!(rt; image.place(0xFFFE, &[8, 9]), Ok(true));
    assert_eq!(rt; image.place(0, &[]), Ok(true));
    assert_eq!(rt; image.len(), 2);
    assert_eq!(rt; image.get(0xFFFE), Some(8));
    assert_eq!(rt; image.get(0xFFFF), Some(9));
    assert_eq!(rt; image.place(0xFFFD, &[1, 2, 3]), Ok(false));
    assert_eq!(rt; image.len(), 3);
    assert_eq!(rt; image.get(0xFFFD), Some(1));
    assert_eq!(rt; image.get(0xFFFE), Some(8));
    Ok(())
}

#[test]
fn bytes_are_shown_by_rising_address(rt: HostRuntime) -> Result<(), Fail> {
    let mut image = Image::new(rt.alloc());
    assert_eq!(rt; image.add(0xFFFF, 7), Ok(true));
    assert_eq!(rt; image.add(3, 1), Ok(true));
    assert_eq!(rt; image.add(3, 2), Ok(false));
    let copy = image.copy()?;
    image.set(3, 9)?;
    let mut cells = copy.cells();
    assert_eq!(rt; cells.next().map(|(a, byte)| (*a, *byte)), Some((3, 1)));
    assert_eq!(rt;
        cells.next().map(|(a, byte)| (*a, *byte)),
        Some((0xFFFF, 7))
    );
    assert!(rt; cells.next().is_none());
    Ok(())
}

/// Texts that aren't empty, with their first line and the size of its row.
static FIRST_LINES: [(&[u8], &[u8], usize); 6] = [
    (b"A\r\nB", b"A", 3),
    (b"A\nB", b"A", 2),
    (b"A\rB\r", b"A\rB\r", 4),
    (b"\r\r\n", b"\r", 3),
    (b"\n", b"", 1),
    (b"AB", b"AB", 2),
];

#[test]
fn a_line_ends_at_a_line_feed(rt: HostRuntime) {
    for (text, line, size) in &FIRST_LINES {
        assert!(rt; !text.is_empty());
        let row = first_row(text);
        assert_eq!(rt; (row.line(), row.size()), (*line, *size));
    }
}

#[test]
fn a_name_has_at_most_31_bytes(rt: HostRuntime) {
    let long = [b'A'; 32];
    assert!(rt; Name::new(&long).is_none());
    let name = Name::new(&long[..31]);
    assert_eq!(rt; name.map(|name| name.as_slice().len()), Some(31));
    assert!(rt; Name::new(b"FIVE") == Name::new(b"FIVE"));
    assert!(rt; Name::new(b"FIVE") != Name::new(b"FIV"));
    assert_eq!(rt; Loc::from(Reg::A), Loc::A);
}

#[test]
fn files_in_memory_fail_where_they_are_to(rt: HostRuntime) -> Result<(), Fail> {
    let alloc = rt.alloc();
    let mut files = MemFiles::new(alloc);
    files.add("a", b"old")?;
    files.add("a", b"four")?;
    files.fail(2, 0)?;
    files.fail(4, 9)?;
    files.fail(4, 2)?;
    files.fail(5, 9)?;
    assert_eq!(rt; files.read(alloc, "a", 4)?.as_slice(), b"four".as_slice());
    assert_eq!(rt; files.read(alloc, "b", 4).err(), Some(ReadRefusal::Failed));
    assert_eq!(rt; files.read(alloc, "b", 4).err(), Some(ReadRefusal::Missing));
    assert_eq!(rt; files.write("b", b"xyz"), Err(WriteRefusal::Failed));
    assert_eq!(rt; files.contents("b"), Some(b"xy".as_slice()));
    assert_eq!(rt; files.write("b", b"uvw"), Err(WriteRefusal::Failed));
    assert_eq!(rt; files.contents("b"), Some(b"uvw".as_slice()));
    assert_eq!(rt;
        files.read(alloc, "a", 3).err(),
        Some(ReadRefusal::TooLarge)
    );
    assert_eq!(rt; files.write("b", b""), Ok(()));
    assert_eq!(rt; files.contents("b"), Some(b"".as_slice()));
    assert_eq!(rt; files.contents("c"), None);
    Ok(())
}

#[test]
fn a_sink_in_memory_fails_where_it_is_to(rt: HostRuntime) -> Result<(), Fail> {
    let mut sink = MemSink::new(rt.alloc());
    sink.fail(2, 1)?;
    assert_eq!(rt; sink.put(b"ab"), Ok(()));
    assert_eq!(rt; sink.put(b"cd"), Err(WriteRefusal::Failed));
    assert_eq!(rt; sink.put(b"ef"), Ok(()));
    assert_eq!(rt; sink.taken(), b"abcef".as_slice());
    Ok(())
}
