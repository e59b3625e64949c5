ghost use Rattle.sp_lex.specs.Reading.{AreLines};
ghost use Rattle.sp_lex.specs.Readers.{AreIn};

use indexmap::IndexMap;
use sp_base::Name;
use sp_expr::{Expr, ExprRefusal, ParseRefusal, Setting, Symbols, parse, parse_in, value};
use sp_lex::{Lines, Token, lines};
use std::alloc::Global;
use std::process::Abort;
use std::test::Fail;

/// The tokens of the first line.
fn first_tokens<'a>(lines: &'a Lines, source: &[u8]) -> &'a [Token]
    requires { AreLines source.now lines.now }
    ensures { AreIn source.now result.now }
{
    match lines.as_slice().first() {
        Some(line) => line.tokens.as_slice(),
        None => &[],
    }
}

fn symbols(alloc: Global) -> Result<Symbols, Fail> {
    let mut names = IndexMap::new(alloc);
    let table: [(&[u8], u16); 3] = [(b"FIVE", 5), (b"HIGH", 0xFF00), (b"ZERO", 0)];
    for (name, value) in table {
        let name = Name::new(name).ok_or("a long name")?;
        names.insert(name, value)?;
    }
    Ok(names)
}

/// The value of an expression, or why there is none.
fn answer_shown(alloc: Global, answer: Result<Expr, ParseRefusal>) -> Result<String, Fail> {
    match answer {
        Ok(e) => value_shown(alloc, &e),
        Err(ParseRefusal::Syntax) => Ok(String::from_str(alloc, "syntax")?),
        Err(ParseRefusal::TooDeep) => Ok(String::from_str(alloc, "too deep")?),
        Err(ParseRefusal::Memory) => Ok(String::from_str(alloc, "memory")?),
    }
}

/// What is answered of the first line of a source, as a part of a statement.
fn shown(rt: &impl Abort, alloc: Global, source: &[u8]) -> Result<String, Fail> {
    assert!(rt; source.len() < 10_000);
    let lines = lines(alloc, source)?;
    let tokens = first_tokens(&lines, source);
    answer_shown(alloc, parse(alloc, source, tokens))
}

/// The same of what stands after `;#` on an annotation line.
fn shown_of_annotation(rt: &impl Abort, alloc: Global, source: &[u8]) -> Result<String, Fail> {
    assert!(rt; source.len() < 10_000);
    let lines = lines(alloc, source)?;
    let tokens = first_tokens(&lines, source);
    answer_shown(alloc, parse_in(alloc, Setting::Annotation, source, tokens))
}

/// The value of an expression at address 1234H, or its refusal.
fn value_shown(alloc: Global, e: &Expr) -> Result<String, Fail> {
    let names = symbols(alloc)?;
    match &value(e, &names, 0x1234) {
        Ok(value) => Ok(format!(in alloc; "{value}")?),
        Err(ExprRefusal::Undefined(name)) => {
            let len = name.as_slice().len();
            Ok(format!(in alloc; "undefined {len}")?)
        }
        Err(ExprRefusal::ZeroDivisor) => Ok(String::from_str(alloc, "zero divisor")?),
    }
}

/// Expressions at address 1234H, with their values or refusals.
static VALUES: [(&[u8], &str); 70] = [
    (b"", "syntax"),
    (b"0BH", "11"),
    (b"$", "4660"),
    (b"five + 1", "6"),
    (b"'A'+1", "66"),
    (b"''''", "39"),
    (b"''", "syntax"),
    (b"'AB'", "syntax"),
    (b"-6/2", "65533"),
    (b"-7/2", "65533"),
    (b"+5", "5"),
    (b"2-1-1", "0"),
    (b"2+3*4", "14"),
    (b"(2+3)*4", "20"),
    (b"100/10/5", "2"),
    (b"100/(10/5)", "50"),
    (b"7 MOD 4 * 2", "6"),
    (b"1 SHL 2 + 1", "5"),
    (b"1 SHL 15", "32768"),
    (b"1 SHL 16", "0"),
    (b"1 SHL 65535", "0"),
    (b"3 SHL 15", "32768"),
    (b"0FFFFH SHR 15", "1"),
    (b"0FFFFH SHR 16", "0"),
    (b"0FFFFH SHR 65535", "0"),
    (b"HIGH * HIGH", "0"),
    (b"0FFFFH + 1", "0"),
    (b"0 - 1", "65535"),
    (b"300 * 300", "24464"),
    (b"NOT 1", "65534"),
    (b"NOT NOT 1", "1"),
    (b"NOT -1", "0"),
    (b"NOT 1 + 1", "65533"),
    (b"NOT 0 AND 12", "12"),
    (b"1 OR 2 AND 4", "1"),
    (b"2 AND 4 OR 1", "1"),
    (b"6 XOR 3 OR 8", "13"),
    (b"1 OR 1 XOR 1", "0"),
    (b"1 XOR 1 OR 1", "1"),
    (b"1 XOR (1 OR 1)", "0"),
    (b"1 AND NOT 0", "1"),
    (b"5 AND -1", "5"),
    (b"1 + NOT 2", "syntax"),
    (b"--1", "syntax"),
    (b"2*-1", "syntax"),
    (b"2*(-1)", "65534"),
    (b"1 -", "syntax"),
    (b"1 2", "syntax"),
    (b"(1", "syntax"),
    (b"1)", "syntax"),
    (b"()", "syntax"),
    (b"NOT", "syntax"),
    (b"1 NOT", "syntax"),
    (b"AND 1", "syntax"),
    (b"*1", "syntax"),
    (b"1,2", "syntax"),
    (b"MOV", "syntax"),
    (b"a", "syntax"),
    (b"psw", "syntax"),
    (b"M", "syntax"),
    (b"SP", "syntax"),
    (b"DB", "syntax"),
    (b"LEN", "undefined 3"),
    (b"1/0 + ABC + ABCD", "undefined 3"),
    (b"ABCD + ABC/ZERO", "undefined 4"),
    (b"1/0", "zero divisor"),
    (b"1 MOD ZERO", "zero divisor"),
    (b"0*(1/0)", "zero divisor"),
    (b"1 SHL 0 - 1", "0"),
    (b"- 1 SHL 1", "65534"),
];

#[test]
fn expressions_have_their_values(rt: HostRuntime) -> Result<(), Fail> {
    for (source, want) in &VALUES {
        let found = shown(&rt, rt.alloc(), source)?;
        assert_eq!(rt; found.as_str(), *want, "at {source:?}");
    }
    Ok(())
}

/// Expressions on annotation lines.
static ANNOTATIONS: [(&[u8], &str); 10] = [
    (b";# five + 1", "6"),
    (b";# 65541", "5"),
    (b";# 6 XOR 3 SHL 1", "0"),
    (b";# NOT 1 MOD 2", "65534"),
    (b";# $", "syntax"),
    (b";# len", "syntax"),
    (b";# bc + 1", "syntax"),
    (b";# stk1", "syntax"),
    (b";# stk01", "undefined 5"),
    (b";# pchl", "syntax"),
];

#[test]
fn annotations_have_other_words(rt: HostRuntime) -> Result<(), Fail> {
    for (source, want) in &ANNOTATIONS {
        let found = shown_of_annotation(&rt, rt.alloc(), source)?;
        assert_eq!(rt; found.as_str(), *want, "at {source:?}");
    }
    Ok(())
}

/// Front, count, middle, end and value: the front and the end stand as often as the count says.
static NESTED: [(&[u8], usize, &[u8], &[u8], &str); 13] = [
    (b"(", 64, b"7", b")", "7"),
    (b"(", 65, b"7", b")", "too deep"),
    (b"(", 2_000, b"7", b")", "too deep"),
    (b"(", 2_000, b"7 7", b")", "syntax"),
    (b"(", 65, b"7)", b")", "syntax"),
    (b"NOT ", 64, b"7", b"", "7"),
    (b"NOT ", 65, b"7", b"", "too deep"),
    (b"NOT ", 65, b"", b"", "syntax"),
    (b"NOT(", 32, b"7", b")", "7"),
    (b"NOT(", 33, b"7", b")", "too deep"),
    (b"", 70, b"0", b" AND NOT 0", "0"),
    (b"1+", 1_000, b"1", b"", "1001"),
    (b"", 1_000, b"1001", b"-1", "1"),
];

fn repeated(
    alloc: Global,
    front: &[u8],
    count: usize,
    middle: &[u8],
    end: &[u8],
) -> Result<Vec<u8>, Fail> {
    let mut text = Vec::new(alloc);
    for _ in 0..count {
        text.extend_from_slice(front)?;
    }
    text.extend_from_slice(middle)?;
    for _ in 0..count {
        text.extend_from_slice(end)?;
    }
    Ok(text)
}

#[test]
fn nesting_is_limited_and_length_is_not(rt: HostRuntime) -> Result<(), Fail> {
    let alloc = rt.alloc();
    for (front, count, middle, end, want) in &NESTED {
        let source = repeated(alloc, front, *count, middle, end)?;
        let found = shown(&rt, alloc, source.as_slice())?;
        assert_eq!(rt; found.as_str(), *want, "at {count} of {front:?}");
    }
    Ok(())
}
