//! Steps with their terms as texts, and the calls of the rules.

use crate::states::term;
use bumpalo::Bump;
use sp_base::Image;
use sp_rules::{
    After, Case, Goals, at, bitof, bits, cases, choose, close, cut, divmod, empty, fix, frame,
    give, induct, intro, last, linear, over, pick, range, read, rewrite, rom, side, simp, split,
    unpack, use_both,
};
use sp_steps::Side;
use std::alloc::Global;
use std::process::Abort;
use std::test::Fail;

#[derive(Clone, Copy)]
pub enum Call {
    Logic(Logic),
    Quantified(Quantified),
    Equation(Equation),
    Number(Number),
    Cells(Cells),
}

#[derive(Clone, Copy)]
pub enum Logic {
    Close(u32),
    Split,
    Intro,
    Side(Side),
    Unpack(u32),
    UseBoth(u32, u32),
    CasesOf(u32),
    CasesOn(&'static str),
    Cut(&'static str),
}

#[derive(Clone, Copy)]
pub enum Quantified {
    Fix,
    At(u32, &'static str),
    Give(&'static str),
    Pick(u32),
    Induct,
    Choose(&'static str),
}

#[derive(Clone, Copy)]
pub enum Equation {
    Simp(Option<u32>),
    Rewrite(u32, Option<u32>, bool),
    Linear(i64, &'static [(i64, u32)]),
}

#[derive(Clone, Copy)]
pub enum Number {
    DivMod(&'static str, i64),
    Range(&'static str),
    Bits(&'static str),
    BitOf(i64, &'static str),
}

#[derive(Clone, Copy)]
pub enum Cells {
    Read(&'static str),
    Rom(&'static str, i64),
    Frame(&'static str, &'static str),
    Empty(&'static str),
    Last(&'static str),
    Over(&'static str),
}

/// What calls need besides subgoals.
#[derive(Clone, Copy)]
pub struct Place<'a, 'b> {
    pub alloc: Global,
    pub arena: &'a Bump,
    pub image: &'b Image,
}

/// The answer of a step's call.
pub fn perform<'a>(
    rt: &impl Abort,
    place: Place<'a, '_>,
    goals: Goals<'a>,
    call: Call,
) -> Result<After<'a>, Fail> {
    match call {
        Call::Logic(step) => on_logic(rt, place, goals, step),
        Call::Quantified(step) => on_quantifiers(rt, place, goals, step),
        Call::Equation(step) => Ok(on_equations(place.arena, goals, step)),
        Call::Number(step) => on_numbers(rt, place, goals, step),
        Call::Cells(step) => on_cells(rt, place, goals, step),
    }
}

fn on_logic<'a>(
    rt: &impl Abort,
    place: Place<'a, '_>,
    goals: Goals<'a>,
    step: Logic,
) -> Result<After<'a>, Fail> {
    let arena = place.arena;
    Ok(match step {
        Logic::Close(k) => close(arena, goals, k),
        Logic::Split => split(arena, goals),
        Logic::Intro => intro(arena, goals),
        Logic::Side(s) => side(arena, goals, s),
        Logic::Unpack(k) => unpack(arena, goals, k),
        Logic::UseBoth(k, j) => use_both(arena, goals, k, j),
        Logic::CasesOf(k) => cases(arena, goals, Case::Hyp(k)),
        Logic::CasesOn(p) => {
            let p = term(rt, place.alloc, p, arena)?;
            cases(arena, goals, Case::Formula(p))
        }
        Logic::Cut(p) => cut(arena, goals, term(rt, place.alloc, p, arena)?),
    })
}

fn on_quantifiers<'a>(
    rt: &impl Abort,
    place: Place<'a, '_>,
    goals: Goals<'a>,
    step: Quantified,
) -> Result<After<'a>, Fail> {
    let arena = place.arena;
    Ok(match step {
        Quantified::Fix => fix(arena, goals),
        Quantified::At(k, x) => at(arena, goals, k, term(rt, place.alloc, x, arena)?),
        Quantified::Give(x) => give(arena, goals, term(rt, place.alloc, x, arena)?),
        Quantified::Pick(k) => pick(arena, goals, k),
        Quantified::Induct => induct(arena, goals),
        Quantified::Choose(x) => choose(arena, goals, term(rt, place.alloc, x, arena)?),
    })
}

fn on_equations<'a>(arena: &'a Bump, goals: Goals<'a>, step: Equation) -> After<'a> {
    match step {
        Equation::Simp(k) => simp(arena, goals, k),
        Equation::Rewrite(k, j, back) => rewrite(arena, goals, k, j, back),
        Equation::Linear(n, by) => linear(arena, goals, n, by),
    }
}

fn on_numbers<'a>(
    rt: &impl Abort,
    place: Place<'a, '_>,
    goals: Goals<'a>,
    step: Number,
) -> Result<After<'a>, Fail> {
    let arena = place.arena;
    Ok(match step {
        Number::DivMod(x, c) => divmod(arena, goals, term(rt, place.alloc, x, arena)?, c),
        Number::Range(x) => range(arena, goals, term(rt, place.alloc, x, arena)?),
        Number::Bits(x) => bits(arena, goals, term(rt, place.alloc, x, arena)?),
        Number::BitOf(k, x) => bitof(arena, goals, k, term(rt, place.alloc, x, arena)?),
    })
}

fn on_cells<'a>(
    rt: &impl Abort,
    place: Place<'a, '_>,
    goals: Goals<'a>,
    step: Cells,
) -> Result<After<'a>, Fail> {
    let arena = place.arena;
    Ok(match step {
        Cells::Read(x) => read(arena, goals, term(rt, place.alloc, x, arena)?),
        Cells::Rom(m, c) => {
            let m = term(rt, place.alloc, m, arena)?;
            rom(arena, goals, m, c, place.image)
        }
        Cells::Frame(m, x) => {
            let m = term(rt, place.alloc, m, arena)?;
            frame(arena, goals, m, term(rt, place.alloc, x, arena)?)
        }
        Cells::Empty(x) => empty(arena, goals, term(rt, place.alloc, x, arena)?),
        Cells::Last(x) => last(arena, goals, term(rt, place.alloc, x, arena)?),
        Cells::Over(x) => over(arena, goals, term(rt, place.alloc, x, arena)?),
    })
}
