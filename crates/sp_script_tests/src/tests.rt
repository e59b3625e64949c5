use crate::clearing::{ROWS, Row};
use crate::ordering::{ANSWERS, STOPPED};
use bumpalo::Bump;
use sp_base::{Image, Line};
use sp_fdl::read;
use sp_lex::name;
use sp_script::{Proved, ScriptRefusal, Scripts, check, read_scripts};
use sp_term::{Cond, MemFrame, Term, Var};
use std::alloc::Global;
use std::process::Abort;
use std::test::Fail;

/// The terms that texts stand for.
fn terms<'a>(
    rt: &impl Abort,
    alloc: Global,
    texts: &[&str],
    arena: &'a Bump,
) -> Result<Vec<&'a Term<'a>>, Fail> {
    let mut out = Vec::new(alloc);
    for text in texts {
        match read(alloc, text.as_bytes(), arena) {
            Ok(t) => out.push(t)?,
            Err(_) => panic!(rt; "{text}"),
        }
    }
    Ok(out)
}

/// The scripts of a text that is in the grammar.
fn scripts(rt: &impl Abort, alloc: Global, text: &[u8]) -> Result<Scripts, Fail> {
    assert!(rt; text.len() < 100_000);
    match read_scripts(alloc, text) {
        Ok(scripts) => Ok(scripts),
        Err(_) => panic!(rt; "the text isn't read"),
    }
}

/// The name of a rule with the line of its step, or the line of `end`, or that the condition is shown.
fn shown(alloc: Global, answer: Result<Proved, ScriptRefusal>) -> Result<String, Fail> {
    match answer {
        Ok(Proved) => Ok(String::from_str(alloc, "proved")?),
        Err(ScriptRefusal::Step(Line(n), rule)) => Ok(format!(in alloc;
            "step {n} {}",
            rule.name()
        )?),
        Err(ScriptRefusal::Unfinished(Line(n))) => Ok(format!(in alloc; "unfinished {n}")?),
        Err(ScriptRefusal::Memory) => Ok(String::from_str(alloc, "memory")?),
    }
}

/// What the script of a text for a condition is answered with.
fn checked<'a>(
    rt: &impl Abort,
    alloc: Global,
    c: Cond<'a>,
    image: &Image,
    text: &[u8],
    title: (&[u8], u64),
    arena: &'a Bump,
) -> Result<String, Fail> {
    let all = scripts(rt, alloc, text)?;
    let Some(name) = name(title.0) else {
        panic!(rt; "a long name");
    };
    match all.find(name, title.1) {
        Some(script) => shown(alloc, check(alloc, c, image, script, arena)),
        None => panic!(rt; "no script for the condition"),
    }
}

/// The answer on a script for `(b~ < (c~ + 1))` under `(b~ <= c~)`. The image has MOV A,B and RET.
fn order(rt: &impl Abort, alloc: Global, text: &[u8]) -> Result<String, Fail> {
    let arena = Bump::new(alloc);
    let hyps = terms(rt, alloc, &["(b~ <= c~)"], &arena)?;
    let goals = terms(rt, alloc, &["(b~ < (c~ + 1))"], &arena)?;
    let c = Cond {
        hyps: hyps.as_slice(),
        goals: goals.as_slice(),
        frames: &[],
    };
    let mut image = Image::new(alloc);
    image.set(0, 0x78)?;
    image.set(1, 0xC9)?;
    checked(rt, alloc, c, &image, text, (b"ORD", 1), &arena)
}

#[test]
fn scripts_for_an_order(rt: HostRuntime) -> Result<(), Fail> {
    for (text, answer) in &ANSWERS {
        assert_eq!(&rt;
            order(&rt, rt.alloc(), text.as_bytes())?.as_str(),
            *answer,
            "{text}"
        );
    }
    Ok(())
}

#[test]
fn each_rule_stops_at_its_line(rt: HostRuntime) -> Result<(), Fail> {
    for (text, answer) in &STOPPED {
        assert_eq!(&rt;
            order(&rt, rt.alloc(), text.as_bytes())?.as_str(),
            *answer,
            "{text}"
        );
    }
    Ok(())
}

/// The answer on a script for a condition of the routine that clears an area of 16 bytes at 2000H.
fn clearing(rt: &impl Abort, alloc: Global, row: &Row) -> Result<String, Fail> {
    let arena = Bump::new(alloc);
    let hyps = terms(rt, alloc, row.hypotheses, &arena)?;
    let goals = terms(rt, alloc, row.goals, &arena)?;
    let earlier = terms(rt, alloc, &["mem~"], &arena)?;
    let Some(earlier) = earlier.get(0) else {
        panic!(rt; "no memory");
    };
    let frames = [MemFrame {
        variable: Var::Mem,
        earlier: *earlier,
        areas: &[(0x2000, 0x200F)],
    }];
    let c = Cond {
        hyps: hyps.as_slice(),
        goals: goals.as_slice(),
        frames: &frames,
    };
    let image = Image::new(alloc);
    let title: (&[u8], u64) = (b"CLEAR", row.number);
    checked(rt, alloc, c, &image, row.script.as_bytes(), title, &arena)
}

#[test]
fn scripts_for_a_loop(rt: HostRuntime) -> Result<(), Fail> {
    for row in &ROWS {
        assert_eq!(&rt;
            clearing(&rt, rt.alloc(), row)?.as_str(),
            row.answer,
            "{}",
            row.script
        );
    }
    Ok(())
}

/// A script that cuts so many times, each time with one more subgoal.
fn cuts(alloc: Global, count: usize) -> Result<String, Fail> {
    let mut text = String::from_str(alloc, "script ORD.1\n")?;
    for _ in 0..count {
        text.push_str("cut true\n")?;
    }
    text.push_str("end\n")?;
    Ok(text)
}

/// Numbers of cuts, and the answer: at most 4,096 subgoals stand together.
static CUTS: [(usize, &str); 2] = [(4_095, "unfinished 4097"), (4_096, "step 4097 cut")];

#[test]
fn at_most_4096_subgoals(rt: HostRuntime) -> Result<(), Fail> {
    for (count, answer) in &CUTS {
        let text = cuts(rt.alloc(), *count)?;
        assert_eq!(&rt; order(&rt, rt.alloc(), text.as_bytes())?.as_str(), *answer);
    }
    Ok(())
}
