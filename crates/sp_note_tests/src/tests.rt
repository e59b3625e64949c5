use sp_base::{Line, Refused};
use sp_lex::lines;
use sp_note::{NoteKind, read_notes};
use std::alloc::Global;
use std::process::Abort;
use std::test::Fail;

fn kind_word(kind: NoteKind) -> &'static str {
    match kind {
        NoteKind::Syntax => "syntax",
        NoteKind::TooDeep => "deep",
        NoteKind::Sort => "sort",
        NoteKind::Wide => "wide",
    }
}

/// Whether the annotations of a source are read, or how they are refused, as a text.
fn shown(rt: &impl Abort, alloc: Global, source: &[u8]) -> Result<String, Fail> {
    assert!(rt; source.len() < 10_000);
    let lines = lines(alloc, source)?;
    match read_notes(alloc, source, &lines) {
        Ok(_) => Ok(String::from_str(alloc, "ok")?),
        Err(Refused::At(Line(n), kind)) => Ok(format!(in alloc; "{} {n}", kind_word(kind))?),
        Err(Refused::Memory) => Ok(String::from_str(alloc, "memory")?),
    }
}

/// Lines at the edges of the grammar, of its limit on nesting, of sorts and of bounds.
static LINES: [(&[u8], &str); 64] = [
    (b";# stack 2300H, 23FFH", "ok"),
    (b";# stack 2300H", "syntax 1"),
    (b";# stack 1, 2, 3", "syntax 1"),
    (b";# byte CNT, 2010H", "ok"),
    (b";# byte LEN, 2010H", "syntax 1"),
    (b";# word PTR, $", "syntax 1"),
    (b";# bytes BUF, 2000H, 16", "ok"),
    (b";# bytes BUF, 2000H", "syntax 1"),
    (b";# routine FIVE", "ok"),
    (b";# routine MVI", "syntax 1"),
    (b";# start", "ok"),
    (
        b";# stack 2300H, 23FFH\n;# routine FIVE\n;# post B\n;# changes A\nFIVE: MVI A,5\n RET\n;# end",
        "sort 3",
    ),
    (b";# byte TOTAL, 2010H", "syntax 1"),
    (b";# start 1", "syntax 1"),
    (b";# reads A, BC, CY, FLAGS, BUF", "ok"),
    (b";# reads", "syntax 1"),
    (b";# changes A,", "syntax 1"),
    (b";# changes SP", "syntax 1"),
    (b";# ins 1, 2", "ok"),
    (b";# outs", "syntax 1"),
    (
        b";# depth (((((((((((((((((((((((((((((((((((((((((((((((((((((((((((((((((1)))))))))))))))))))))))))))))))))))))))))))))))))))))))))))))))))",
        "deep 1",
    ),
    (
        b";# ins (((((((((((((((((((((((((((((((((((((((((((((((((((((((((((((((((1))))))))))))))))))))))))))))))))))))))))))))))))))))))))))))))))), 1 2",
        "syntax 1",
    ),
    (b";# end", "ok"),
    (b";#", "syntax 1"),
    (b";# pres true", "syntax 1"),
    (b"NOP\n;# assert A", "sort 2"),
    (
        b";# pre ((((((((((((((((((((((((((((((((((((((((((((((((((((((((((((((((A = 5))))))))))))))))))))))))))))))))))))))))))))))))))))))))))))))))",
        "ok",
    ),
    (
        b";# pre (((((((((((((((((((((((((((((((((((((((((((((((((((((((((((((((((A = 5)))))))))))))))))))))))))))))))))))))))))))))))))))))))))))))))))",
        "deep 1",
    ),
    (
        b";# pre not not not not not not not not not not not not not not not not not not not not not not not not not not not not not not not not not not not not not not not not not not not not not not not not not not not not not not not not not not not not not not not not true",
        "ok",
    ),
    (
        b";# pre not not not not not not not not not not not not not not not not not not not not not not not not not not not not not not not not not not not not not not not not not not not not not not not not not not not not not not not not not not not not not not not not not true",
        "deep 1",
    ),
    (
        b";# pre -----------------------------------------------------------------1 = 1",
        "deep 1",
    ),
    (
        b";# pre true -> true -> true -> true -> true -> true -> true -> true -> true -> true -> true -> true -> true -> true -> true -> true -> true -> true -> true -> true -> true -> true -> true -> true -> true -> true -> true -> true -> true -> true -> true -> true -> true -> true -> true -> true -> true -> true -> true -> true -> true -> true -> true -> true -> true -> true -> true -> true -> true -> true -> true -> true -> true -> true -> true -> true -> true -> true -> true -> true -> true -> true -> true -> true -> true",
        "ok",
    ),
    (
        b";# pre true -> true -> true -> true -> true -> true -> true -> true -> true -> true -> true -> true -> true -> true -> true -> true -> true -> true -> true -> true -> true -> true -> true -> true -> true -> true -> true -> true -> true -> true -> true -> true -> true -> true -> true -> true -> true -> true -> true -> true -> true -> true -> true -> true -> true -> true -> true -> true -> true -> true -> true -> true -> true -> true -> true -> true -> true -> true -> true -> true -> true -> true -> true -> true -> true -> true",
        "deep 1",
    ),
    (
        b";# pre mem[mem[mem[mem[mem[mem[mem[mem[mem[mem[mem[mem[mem[mem[mem[mem[mem[mem[mem[mem[mem[mem[mem[mem[mem[mem[mem[mem[mem[mem[mem[mem[mem[mem[mem[mem[mem[mem[mem[mem[mem[mem[mem[mem[mem[mem[mem[mem[mem[mem[mem[mem[mem[mem[mem[mem[mem[mem[mem[mem[mem[mem[mem[mem[mem[0]]]]]]]]]]]]]]]]]]]]]]]]]]]]]]]]]]]]]]]]]]]]]]]]]]]]]]]]]]]]]]]]] = 0",
        "deep 1",
    ),
    (
        b";# pre BUF[BUF[BUF[BUF[BUF[BUF[BUF[BUF[BUF[BUF[BUF[BUF[BUF[BUF[BUF[BUF[BUF[BUF[BUF[BUF[BUF[BUF[BUF[BUF[BUF[BUF[BUF[BUF[BUF[BUF[BUF[BUF[BUF[BUF[BUF[BUF[BUF[BUF[BUF[BUF[BUF[BUF[BUF[BUF[BUF[BUF[BUF[BUF[BUF[BUF[BUF[BUF[BUF[BUF[BUF[BUF[BUF[BUF[BUF[BUF[BUF[BUF[BUF[BUF[BUF[0]]]]]]]]]]]]]]]]]]]]]]]]]]]]]]]]]]]]]]]]]]]]]]]]]]]]]]]]]]]]]]]]] = 0",
        "deep 1",
    ),
    (
        b";# pre par(par(par(par(par(par(par(par(par(par(par(par(par(par(par(par(par(par(par(par(par(par(par(par(par(par(par(par(par(par(par(par(par(par(par(par(par(par(par(par(par(par(par(par(par(par(par(par(par(par(par(par(par(par(par(par(par(par(par(par(par(par(par(par(par(0))))))))))))))))))))))))))))))))))))))))))))))))))))))))))))))))) = 0",
        "deep 1",
    ),
    (
        b";# pre band(band(band(band(band(band(band(band(band(band(band(band(band(band(band(band(band(band(band(band(band(band(band(band(band(band(band(band(band(band(band(band(band(band(band(band(band(band(band(band(band(band(band(band(band(band(band(band(band(band(band(band(band(band(band(band(band(band(band(band(band(band(band(band(band(1, 1), 1), 1), 1), 1), 1), 1), 1), 1), 1), 1), 1), 1), 1), 1), 1), 1), 1), 1), 1), 1), 1), 1), 1), 1), 1), 1), 1), 1), 1), 1), 1), 1), 1), 1), 1), 1), 1), 1), 1), 1), 1), 1), 1), 1), 1), 1), 1), 1), 1), 1), 1), 1), 1), 1), 1), 1), 1), 1), 1), 1), 1), 1), 1), 1) = 1",
        "deep 1",
    ),
    (
        b";# pre total(1, total(1, total(1, total(1, total(1, total(1, total(1, total(1, total(1, total(1, total(1, total(1, total(1, total(1, total(1, total(1, total(1, total(1, total(1, total(1, total(1, total(1, total(1, total(1, total(1, total(1, total(1, total(1, total(1, total(1, total(1, total(1, total(1, total(1, total(1, total(1, total(1, total(1, total(1, total(1, total(1, total(1, total(1, total(1, total(1, total(1, total(1, total(1, total(1, total(1, total(1, total(1, total(1, total(1, total(1, total(1, total(1, total(1, total(1, total(1, total(1, total(1, total(1, total(1, total(1, 1))))))))))))))))))))))))))))))))))))))))))))))))))))))))))))))))) = 1",
        "deep 1",
    ),
    (
        b";# pre for all I in 0..0: for all I in 0..0: for all I in 0..0: for all I in 0..0: for all I in 0..0: for all I in 0..0: for all I in 0..0: for all I in 0..0: for all I in 0..0: for all I in 0..0: for all I in 0..0: for all I in 0..0: for all I in 0..0: for all I in 0..0: for all I in 0..0: for all I in 0..0: for all I in 0..0: for all I in 0..0: for all I in 0..0: for all I in 0..0: for all I in 0..0: for all I in 0..0: for all I in 0..0: for all I in 0..0: for all I in 0..0: for all I in 0..0: for all I in 0..0: for all I in 0..0: for all I in 0..0: for all I in 0..0: for all I in 0..0: for all I in 0..0: for all I in 0..0: for all I in 0..0: for all I in 0..0: for all I in 0..0: for all I in 0..0: for all I in 0..0: for all I in 0..0: for all I in 0..0: for all I in 0..0: for all I in 0..0: for all I in 0..0: for all I in 0..0: for all I in 0..0: for all I in 0..0: for all I in 0..0: for all I in 0..0: for all I in 0..0: for all I in 0..0: for all I in 0..0: for all I in 0..0: for all I in 0..0: for all I in 0..0: for all I in 0..0: for all I in 0..0: for all I in 0..0: for all I in 0..0: for all I in 0..0: for all I in 0..0: for all I in 0..0: for all I in 0..0: for all I in 0..0: for all I in 0..0: for all I in 0..0: true",
        "deep 1",
    ),
    (
        b";# pre ((((((((((((((((((((((((((((((((((((((((((((((((((((((((((((((((addr(BUF) = 1))))))))))))))))))))))))))))))))))))))))))))))))))))))))))))))))",
        "deep 1",
    ),
    (
        b";# pre (((((((((((((((((((((((((((((((((((((((((((((((((((((((((((((((((A)))))))))))))))))))))))))))))))))))))))))))))))))))))))))))))))))",
        "deep 1",
    ),
    (
        b";# pre (((((((((((((((((((((((((((((((((((((((((((((((((((((((((((((((((A = 5))))))))))))))))))))))))))))))))))))))))))))))))))))))))))))))))",
        "syntax 1",
    ),
    (b";# pre A = 1 -> B", "sort 1"),
    (b";# pre A = B = C", "syntax 1"),
    (b";# pre not A = 5", "ok"),
    (b";# pre 1 + not A", "syntax 1"),
    (b";# pre true and for all I in 0..1: I = 0 or true", "ok"),
    (b";# pre for all I in 0..1: for some I in I..2: I = 0", "ok"),
    (b";# pre for all STK1 in 0..1: true", "syntax 1"),
    (b";# pre STK0 = STK01 + STK32767 + STK32768", "ok"),
    (b";# pre 9223372036854775807 = 0", "ok"),
    (
        b";# pre 1125899906842624 * 1125899906842623 + 1125899906842623 > 0",
        "ok",
    ),
    (
        b";# pre 1125899906842624 * 1125899906842623 + 1125899906842624 > 0",
        "wide 1",
    ),
    (
        b";# pre mem[1125899906842624 * 1125899906842624] = 0",
        "wide 1",
    ),
    (
        b";# pre for all I in 0..1125899906842624: I * 1125899906842624 = 0",
        "wide 1",
    ),
    (
        b";# pre for all I in 0..1125899906842624: true and I * I = 0",
        "wide 1",
    ),
    (
        b";# pre (for all I in 0..1125899906842624: true) and I * I = 0",
        "ok",
    ),
    (
        b";# pre A = 1 and 1125899906842624 * 1125899906842624",
        "sort 1",
    ),
    (
        b";# pre total(0, 1) + total~(0, 1) + mem~[0] + BUF~[1] + A~ + HL~ + CNT~ = 0",
        "ok",
    ),
    (b";# pre total = 1", "syntax 1"),
    (b";# pre band(A, bor(B, bxor(C, par(D)))) = -(-1)", "ok"),
    (
        b";# pre A <> 5 <-> B < 3 or C >= 2 and D <= 1 -> E > 0",
        "ok",
    ),
    (b";# pre ", "syntax 1"),
    (b";# pre A = 'A'", "syntax 1"),
];

#[test]
fn lines_are_read_or_refused(rt: HostRuntime) -> Result<(), Fail> {
    for (source, want) in &LINES {
        let found = shown(&rt, rt.alloc(), source)?;
        assert_eq!(rt; found.as_str(), *want, "at {source:?}");
    }
    Ok(())
}
