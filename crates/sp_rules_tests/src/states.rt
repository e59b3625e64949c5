//! States made from texts, and printed.

use crate::calls::Call;
use bumpalo::Bump;
use bumpalo::collections::into_bump_slice;
use sp_base::Image;
use sp_fdl::{print, read};
use sp_rules::{After, Goals, Subgoal};
use sp_steps::RuleRefusal;
use sp_term::{Cond, MemFrame, Term, Var};
use std::alloc::Global;
use std::process::Abort;
use std::test::Fail;

/// A condition, steps that are done first, the step, and the subgoals after it, such as `(a = 0), (b = 1) |- (c = 0)`,
/// divided by `; `, or `NoApply`.
pub struct Row {
    pub hypotheses: &'static [&'static str],
    pub goals: &'static [&'static str],
    pub before: &'static [Call],
    pub step: Call,
    pub after: &'static str,
}

/// The most subgoals that are printed.
const SHOWN: u8 = 4;

/// The term that a text stands for.
pub fn term<'a>(
    rt: &impl Abort,
    alloc: Global,
    text: &str,
    arena: &'a Bump,
) -> Result<&'a Term<'a>, Fail> {
    match read(alloc, text.as_bytes(), arena) {
        Ok(t) => Ok(t),
        Err(_) => panic!(rt; "{text}"),
    }
}

/// The terms that texts stand for.
fn terms<'a>(
    rt: &impl Abort,
    alloc: Global,
    texts: &[&str],
    arena: &'a Bump,
) -> Result<Vec<&'a Term<'a>, &'a Bump>, Fail> {
    let mut list = Vec::new(arena);
    for text in texts {
        list.push(term(rt, alloc, text, arena)?)?;
    }
    Ok(list)
}

/// How the memories of every state are related: `mem` to `mem~` outside two areas, `mem_1` to a memory with a store
/// outside one area, and `mem_3` is `mem_1`.
fn frames<'a>(
    rt: &impl Abort,
    alloc: Global,
    arena: &'a Bump,
) -> Result<Vec<MemFrame<'a>, &'a Bump>, Fail> {
    let mut list = Vec::new(arena);
    list.push(MemFrame {
        variable: Var::Mem,
        earlier: term(rt, alloc, "mem~", arena)?,
        areas: &[(8192, 8207), (8224, 8225)],
    })?;
    list.push(MemFrame {
        variable: Var::MemAfter(1),
        earlier: term(rt, alloc, "update(mem,[8200],b)", arena)?,
        areas: &[(8224, 8225)],
    })?;
    list.push(MemFrame {
        variable: Var::MemAfter(3),
        earlier: term(rt, alloc, "mem_1", arena)?,
        areas: &[],
    })?;
    Ok(list)
}

/// The image of every state.
pub fn image(alloc: Global) -> Result<Image, Fail> {
    let mut image = Image::new(alloc);
    image.set(0, 7)?;
    image.set(1, 255)?;
    image.set(2, 0)?;
    image.set(8300, 99)?;
    image.set(65_535, 1)?;
    Ok(image)
}

/// The first state of a condition, with so many hypotheses `(z = 1)` after those that are given.
pub fn start<'a>(
    rt: &impl Abort,
    alloc: Global,
    hypotheses: &[&str],
    more: u32,
    goals: &[&str],
    arena: &'a Bump,
) -> Result<Goals<'a>, Fail> {
    let mut hyps = terms(rt, alloc, hypotheses, arena)?;
    let repeated = term(rt, alloc, "(z = 1)", arena)?;
    for _ in 0..more {
        hyps.push(repeated)?;
    }
    let condition = Cond {
        hyps: into_bump_slice(hyps),
        goals: into_bump_slice(terms(rt, alloc, goals, arena)?),
        frames: into_bump_slice(frames(rt, alloc, arena)?),
    };
    Ok(Goals::new(alloc, condition, arena)?)
}

/// The hypotheses divided by commas, and the goal after `|- `.
fn show_one(alloc: Global, text: &mut Vec<u8>, subgoal: &Subgoal<'_>) -> Result<(), Fail> {
    let mut divider = "";
    for h in &subgoal.hypotheses {
        text.extend_from_slice(divider.as_bytes())?;
        text.extend_from_slice(&print(alloc, h)?)?;
        divider = ", ";
    }
    if !subgoal.hypotheses.is_empty() {
        text.push(b' ')?;
    }
    text.extend_from_slice("|- ".as_bytes())?;
    text.extend_from_slice(&print(alloc, subgoal.goal)?)?;
    Ok(())
}

/// The subgoals, divided by semicolons.
fn show_all(alloc: Global, text: &mut Vec<u8>, goals: Goals<'_>) -> Result<(), Fail> {
    let mut rest = goals;
    let mut divider = "";
    for _ in 0..SHOWN {
        let Some((first, others)) = rest.take_first()? else {
            return Ok(());
        };
        text.extend_from_slice(divider.as_bytes())?;
        show_one(alloc, text, &first)?;
        rest = others;
        divider = "; ";
    }
    text.extend_from_slice(" ..".as_bytes())?;
    Ok(())
}

/// What a call answers: subgoals, or `NoApply`.
pub fn show(alloc: Global, after: After<'_>) -> Result<Vec<u8>, Fail> {
    let mut text = Vec::new(alloc);
    match after {
        Ok(goals) => show_all(alloc, &mut text, goals)?,
        Err(RuleRefusal::NoApply) => text.extend_from_slice("NoApply".as_bytes())?,
        Err(RuleRefusal::Memory) => text.extend_from_slice("Memory".as_bytes())?,
    }
    Ok(text)
}
