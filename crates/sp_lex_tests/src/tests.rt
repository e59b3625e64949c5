use sp_base::{Line, Refused};
use sp_lex::{LineKind, Lines, TextKind, TokenKind, characters, lines, name, number};
use std::alloc::Global;
use std::process::Abort;
use std::test::Fail;

fn line_mark(kind: LineKind) -> char {
    match kind {
        LineKind::Empty => '-',
        LineKind::Statement => '.',
        LineKind::Annotation => ';',
    }
}

fn token_mark(kind: TokenKind) -> char {
    match kind {
        TokenKind::Name => 'n',
        TokenKind::Number => '1',
        TokenKind::Text => 't',
        TokenKind::Symbol => 's',
    }
}

/// The kinds of lines and their tokens, as a text.
fn kinds(alloc: Global, lines: &Lines) -> Result<String, Fail> {
    let mut text = String::new(alloc);
    for line in lines.as_slice() {
        text.push(line_mark(line.kind))?;
        for token in line.tokens.as_slice() {
            text.push(token_mark(token.kind))?;
        }
    }
    Ok(text)
}

fn fault_word(kind: TextKind) -> &'static str {
    match kind {
        TextKind::LongLine => "long",
        TextKind::BadByte => "byte",
        TextKind::OpenQuote => "quote",
        TextKind::BadNumber => "number",
    }
}

/// The kinds of a source's lines and tokens, or its refusal, as a text.
fn shape(rt: &impl Abort, alloc: Global, source: &[u8]) -> Result<String, Fail> {
    assert!(rt; source.len() < 10_000);
    match lines(alloc, source) {
        Ok(lines) => kinds(alloc, &lines),
        Err(Refused::At(Line(n), kind)) => Ok(format!(in alloc; "{} {n}", fault_word(kind))?),
        Err(Refused::Memory) => Ok(String::from_str(alloc, "memory")?),
    }
}

/// Sources with the kinds of their lines and tokens, or their refusals.
static SHAPES: [(&[u8], &str); 62] = [
    (b"", ""),
    (b"\n", "-"),
    (b"\r\n\n", "--"),
    (b"FIVE: MVI A,5 ; five\n      RET", ".nsnns1.n"),
    (b"\tNOP\t;\xc3\xa9; ' \xff", ".n"),
    (b"; only \x80\n  \t", "--"),
    (b"A\r", "byte 1"),
    (b"A\r\r\n", "byte 1"),
    (b";a\rb\n", "byte 1"),
    (b";a\x7f", "byte 1"),
    (b";a\x1f", "byte 1"),
    (b"A\x7f", "byte 1"),
    (b"\xc3", "byte 1"),
    (b"'\xc3'", "byte 1"),
    (b"'\x01", "byte 1"),
    (b"'a\tb'", ".t"),
    (b"''", ".t"),
    (b"''''", ".t"),
    (b"'''", "quote 1"),
    (b"A\nDB 'abc", "quote 2"),
    (b"DB ';' ; '", ".nt"),
    (b"DB 'a;b", "quote 1"),
    (b"DB 'it''s','x'", ".ntst"),
    (b"1B 0BH 12Q 17O 9D 0FFFFH 0ffffh 1H", ".11111111"),
    (b"1H0", "number 1"),
    (b"2B", "number 1"),
    (b"8O", "number 1"),
    (b"1A", "number 1"),
    (b"65535 65536", "number 1"),
    (b"65535 177777Q 1111111111111111B", ".111"),
    (b"10000H", "number 1"),
    (b"99999999999999999999999999", "number 1"),
    (b"1@ 1?", ".1n1n"),
    (b"1_", "byte 1"),
    (b"?@9z @ _", "byte 1"),
    (b"?@9z @ a1", ".nnn"),
    (b"$:,+-*/()", ".sssssssss"),
    (b"=", "byte 1"),
    (b"A[", "byte 1"),
    (b"<", "byte 1"),
    (b"~ ", "byte 1"),
    (b"\"", "byte 1"),
    (b"ABCDEFGHIJKLMNOPQRSTUVWXYZ01234", ".n"),
    (b"ABCDEFGHIJKLMNOPQRSTUVWXYZ012345", "byte 1"),
    (b" ;# $:,+-*/()[]~=< >", ";sssssssssssssss"),
    (b";#<-> <- -> <= >= <> .. < -", ";ssssssssss"),
    (b";#<->1", ";s1"),
    (b";#<=>", ";ss"),
    (b";#.", "byte 1"),
    (b";#...", "byte 1"),
    (b";#", ";"),
    (b";# a ; \xff;#", ";n"),
    (b"; # a", "-"),
    (b"A ;# b", ".n"),
    (b";# 9223372036854775807 65536", ";11"),
    (b";# 9223372036854775808", "number 1"),
    (b"A\n end \xff", "byte 2"),
    (b"A\n eNd 1\n\x01", ".n.n1"),
    (b"END: \n\x01", ".ns"),
    (b"L1: END\n\x01", "byte 2"),
    (b";# end\n1H0 '", "quote 2"),
    (b"1H0 '\n\x01", "quote 1"),
];

#[test]
fn lines_and_tokens_have_their_kinds(rt: HostRuntime) -> Result<(), Fail> {
    for (source, want) in &SHAPES {
        let found = shape(&rt, rt.alloc(), source)?;
        assert_eq!(rt; found.as_str(), *want, "at {source:?}");
    }
    Ok(())
}

#[test]
fn a_line_has_at_most_4096_bytes(rt: HostRuntime) -> Result<(), Fail> {
    let mut source = Vec::new(rt.alloc());
    for _ in 0..4_096 {
        source.push(b' ')?;
    }
    source.extend_from_slice(b"\r\n")?;
    let found = shape(&rt, rt.alloc(), source.as_slice())?;
    assert_eq!(rt; found.as_str(), "-");
    source.extend_from_slice(source.clone()?.as_slice())?;
    source.pop();
    source.pop();
    source.extend_from_slice(b"\x01")?;
    let found = shape(&rt, rt.alloc(), source.as_slice())?;
    assert_eq!(rt; found.as_str(), "long 2");
    Ok(())
}

#[test]
fn tokens_have_places_and_values(rt: HostRuntime) -> Result<(), Fail> {
    let source = b"\n Name ,12Q\r\n;# <->";
    let lines = lines(rt.alloc(), source)?;
    let mut places = Vec::new(rt.alloc());
    for line in lines.as_slice() {
        for token in line.tokens.as_slice() {
            places.push((token.start, token.end))?;
        }
    }
    assert_eq!(rt;
        places.as_slice(),
        [(2, 6), (7, 8), (8, 11), (16, 19)].as_slice()
    );
    Ok(())
}

/// Numbers as they are written, with their values.
static NUMBERS: [(&[u8], Option<u64>); 9] = [
    (b"0BH", Some(11)),
    (b"1b", Some(1)),
    (b"12q", Some(10)),
    (b"12D", Some(12)),
    (b"0FFFFh", Some(65_535)),
    (b"9223372036854775807", Some(9_223_372_036_854_775_807)),
    (b"9223372036854775808", None),
    (b"1H0", None),
    (b"H", None),
];

#[test]
fn numbers_have_values(rt: HostRuntime) -> Result<(), Fail> {
    for (text, want) in &NUMBERS {
        assert_eq!(rt; number(text), *want, "at {text:?}");
    }
    Ok(())
}

#[test]
fn names_and_texts_are_read(rt: HostRuntime) -> Result<(), Fail> {
    assert_eq!(rt;
        name(b"l@op?1").map(|name| name.as_slice() == b"L@OP?1".as_slice()),
        Some(true)
    );
    assert!(rt; name(&[b'A'; 32]).is_none());
    assert_eq!(rt;
        characters(rt.alloc(), b"'it''s'''")?.as_slice(),
        b"it's'".as_slice()
    );
    assert_eq!(rt; characters(rt.alloc(), b"''")?.as_slice(), b"".as_slice());
    Ok(())
}
