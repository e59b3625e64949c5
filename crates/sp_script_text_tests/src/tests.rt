use crate::files::{LINES, STEPS, WHOLE};
use bumpalo::Bump;
use sp_base::{Line, Name, Refused};
use sp_lex::name;
use sp_script_text::{
    NoSuch, ScriptKind, Scripts, StepRefusal, known, read_scripts, read_step, rule_of,
};
use std::alloc::Global;
use std::process::Abort;
use std::test::Fail;

/// How a text is read, or how it is refused.
fn shown(rt: &impl Abort, alloc: Global, text: &[u8]) -> Result<String, Fail> {
    assert!(rt; text.len() < 100_000);
    match read_scripts(alloc, text) {
        Ok(_) => Ok(String::from_str(alloc, "read")?),
        Err(Refused::At(Line(n), ScriptKind::Syntax)) => Ok(format!(in alloc; "syntax {n}")?),
        Err(Refused::At(Line(n), ScriptKind::Duplicate)) => Ok(format!(in alloc; "duplicate {n}")?),
        Err(Refused::Memory) => Ok(String::from_str(alloc, "memory")?),
    }
}

#[test]
fn lines_are_read_or_refused(rt: HostRuntime) -> Result<(), Fail> {
    for (text, answer) in &LINES {
        assert_eq!(&rt; shown(&rt, rt.alloc(), text)?.as_str(), *answer);
    }
    Ok(())
}

#[test]
fn files_are_read_or_refused(rt: HostRuntime) -> Result<(), Fail> {
    for (text, answer) in &WHOLE {
        assert_eq!(&rt; shown(&rt, rt.alloc(), text)?.as_str(), *answer);
    }
    Ok(())
}

/// A script that cuts `true` within so many `(not ..)`.
fn nested(alloc: Global, depth: usize) -> Result<String, Fail> {
    let mut text = String::from_str(alloc, "script ORD.1\ncut ")?;
    for _ in 0..depth {
        text.push_str("(not ")?;
    }
    text.push_str("true")?;
    for _ in 0..depth {
        text.push_str(")")?;
    }
    text.push_str("\nend\n")?;
    Ok(text)
}

/// Depths, and how the script is read: a formula is at most 2,000 deep.
static DEPTHS: [(usize, &str); 4] = [
    (0, "read"),
    (1_999, "read"),
    (2_000, "syntax 2"),
    (2_001, "syntax 2"),
];

#[test]
fn formulas_are_at_most_2000_deep(rt: HostRuntime) -> Result<(), Fail> {
    for (depth, answer) in &DEPTHS {
        let text = nested(rt.alloc(), *depth)?;
        assert_eq!(&rt; shown(&rt, rt.alloc(), text.as_bytes())?.as_str(), *answer);
    }
    Ok(())
}

/// The rule of the step that a line is.
fn rule_named(alloc: Global, line: &[u8]) -> &'static str {
    let arena = Bump::new(alloc);
    match read_step(alloc, line, &arena) {
        Ok(step) => rule_of(step).name(),
        Err(StepRefusal::Syntax) => "none",
        Err(StepRefusal::Memory) => "memory",
    }
}

#[test]
fn lines_are_steps_or_none(rt: HostRuntime) -> Result<(), Fail> {
    for (line, rule) in &STEPS {
        assert_eq!(&rt; rule_named(rt.alloc(), line), *rule);
    }
    Ok(())
}

/// The scripts of a text that is in the grammar.
fn scripts(rt: &impl Abort, alloc: Global, text: &[u8]) -> Result<Scripts, Fail> {
    assert!(rt; text.len() < 10_000);
    match read_scripts(alloc, text) {
        Ok(scripts) => Ok(scripts),
        Err(_) => panic!(rt; "the text isn't read"),
    }
}

fn name_of(rt: &impl Abort, word: &[u8]) -> Result<Name, Fail> {
    match name(word) {
        Some(name) => Ok(name),
        None => panic!(rt; "a long name"),
    }
}

/// Scripts for three conditions, one of them without steps.
static THREE: &[u8] =
    b"script ORD.1\nlinear 1 1 h1\n\nsimp\nend\n-- x\nscript b.2\nend\nscript B.12\nfix\nend\n";

/// Conditions, and the lines of the script for each: the first line, its steps and `end`.
static FOUND: [(&[u8], u64, &[u32]); 8] = [
    (b"ord", 1, &[1, 2, 4, 5]),
    (b"ORD", 2, &[]),
    (b"ORD", 0, &[]),
    (b"B", 2, &[7, 8]),
    (b"B", 12, &[9, 10, 11]),
    (b"B", 1, &[]),
    (b"B", 4_294_967_298, &[]),
    (b"", 1, &[]),
];

/// The lines of the script for a condition.
fn lines_of(rt: &impl Abort, alloc: Global, word: &[u8], number: u64) -> Result<Vec<u32>, Fail> {
    let all = scripts(rt, alloc, THREE)?;
    let mut lines = Vec::new(alloc);
    if let Some(script) = all.find(name_of(rt, word)?, number) {
        lines.push(script.line.0)?;
        for step in script.steps.as_slice() {
            lines.push(step.line.0)?;
        }
        lines.push(script.end.0)?;
    }
    Ok(lines)
}

#[test]
fn scripts_are_found_by_their_conditions(rt: HostRuntime) -> Result<(), Fail> {
    for (word, number, lines) in &FOUND {
        assert_eq!(&rt;
            lines_of(&rt, rt.alloc(), word, *number)?.as_slice(),
            *lines
        );
    }
    Ok(())
}

/// How many conditions two routines have, and the line of the first script of `THREE` for another; 0 where there is none.
static COUNTS: [(&[u8], u64, &[u8], u64, u32); 8] = [
    (b"ORD", 1, b"B", 12, 0),
    (b"B", 12, b"ORD", 1, 0),
    (b"ORD", 5, b"B", 13, 0),
    (b"ORD", 0, b"B", 12, 1),
    (b"ORD", 1, b"B", 11, 9),
    (b"ORD", 1, b"B", 1, 7),
    (b"ORD", 1, b"BB", 12, 7),
    (b"A", 9, b"B", 1, 1),
];

#[test]
fn scripts_of_other_conditions_are_named(rt: HostRuntime) -> Result<(), Fail> {
    for (one, most, other, number, line) in &COUNTS {
        let all = scripts(&rt, rt.alloc(), THREE)?;
        let counts = [(name_of(&rt, one)?, *most), (name_of(&rt, other)?, *number)];
        let unknown = match known(&all, &counts) {
            Ok(()) => 0,
            Err(NoSuch { line: Line(n) }) => n,
        };
        assert_eq!(&rt; unknown, *line);
    }
    Ok(())
}
