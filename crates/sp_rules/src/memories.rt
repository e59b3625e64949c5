//! Rules on memories: a cell after a store, a byte of the image, and what a call or a routine leaves as it was.

ghost use Rattle.std.specs.Prelude.{◌≡◌, map, option_map, IfOk};
ghost use Rattle.sp_term.specs.Tree.{Element};
ghost use Rattle.sp_term.specs.Free.{var_eq};
ghost use Rattle.sp_term.specs.Conditions.{change_of};
ghost use Rattle.sp_steps.specs.Steps.{Read, Rom, Frame};
ghost use Rattle.sp_steps.specs.Rows.{read_cell, loaded, loaded_byte, byte_at, is_known_memory, unchanged, change_for, change_of_memory, away, away_from, outside};
ghost use Rattle.sp_steps.specs.Next.{Applies};
ghost use Rattle.sp_rules.specs.code.Work.{IsWork, changes_of};
ghost use Rattle.sp_rules.specs.code.Outcome.{Becomes, carried};

use crate::formulas::{built, equal_where, number};
use crate::goals::{After, Goals};
use crate::work::{Work, enter};
use bumpalo::Bump;
use sp_base::{Image, Memory};
use sp_steps::RuleRefusal;
use sp_term::{Kind, MemFrame, Term, Var, make};

/// `read X`, where X is `element(update(m,[x],v),[y])`: `((x = y) -> (X = v))` and
/// `((not (x = y)) -> (X = element(m,[y])))` are added.
pub fn read<'a>(arena: &'a Bump, goals: Goals<'a>, x: &'a Term<'a>) -> After<'a>
    ensures { Applies (Read x.now) goals.entry result }
{
    let (work, goal) = enter(goals)?;
    read_at(arena, work, goal, x)
}

fn read_at<'a>(arena: &'a Bump, work: Work<'a>, goal: &'a Term<'a>, x: &'a Term<'a>) -> After<'a>
    requires { IsWork work }
    ensures { Becomes result (carried (read_cell x.now goal.now) work.entry) }
{
    match x.kind() {
        Kind::Element(m, y) => read_update(arena, work, goal, x, m, y),
        _ => Err(RuleRefusal::NoApply),
    }
}

fn read_update<'a>(
    arena: &'a Bump,
    work: Work<'a>,
    goal: &'a Term<'a>,
    x: &'a Term<'a>,
    m: &'a Term<'a>,
    y: &'a Term<'a>,
) -> After<'a>
    requires work { IsWork work }
    requires cell { x.now ≡ Element m.now y.now }
    ensures { Becomes result (carried (read_cell x.now goal.now) work.entry) }
{
    match m.kind() {
        Kind::Update(before, place, v) => {
            let here = make(arena, Kind::Equal(place, y))?;
            let stored = equal_where(arena, here, x, v)?;
            let elsewhere = make(arena, Kind::Not(here))?;
            let old = make(arena, Kind::Element(before, y))?;
            let kept = equal_where(arena, elsewhere, x, old)?;
            work.add_two(arena, stored, kept, goal)
        }
        _ => Err(RuleRefusal::NoApply),
    }
}

#[tactic(auto, using(sp_term::proofs::VarLemmas::eq_is_var_eq))]
fn is_variable(v: Var, w: Var) -> bool
    ensures { result ≡ var_eq v w }
{
    v == w
}

/// How a memory variable is related to the memory before it, if it is.
fn frame_for<'a>(v: Var, frames: &'a [MemFrame<'a>]) -> Option<MemFrame<'a>>
    ensures { option_map change_of result ≡ change_for v (map change_of frames.now) }
{
    for frame in frames {
        if is_variable(v, frame.variable) {
            return Some(*frame);
        }
    }
    None
}

/// How a memory is related to the memory before it, where it is a variable that has one.
fn frame_of<'a>(m: &Term, frames: &'a [MemFrame<'a>]) -> Option<MemFrame<'a>>
    ensures { option_map change_of result ≡ change_of_memory m.now (map change_of frames.now) }
{
    match m.kind() {
        Kind::Variable(v) => frame_for(*v, frames),
        _ => None,
    }
}

/// Whether a memory is `mem~` or a variable that is related to the memory before it.
fn is_known<'a>(m: &Term, frames: &'a [MemFrame<'a>]) -> bool
    ensures { result ≡ is_known_memory m.now (map change_of frames.now) }
{
    match m.kind() {
        Kind::Variable(v) => is_variable(*v, Var::MemEntry) || frame_for(*v, frames).is_some(),
        _ => false,
    }
}

/// The image's byte at a number, if it is an address that has one.
fn byte_of(image: &Image, c: i64) -> Option<u8>
    ensures { result ≡ byte_at image.now c }
{
    if c < 0 {
        return None;
    }
    // 65,536, at which no image has a byte, stands for all greater numbers.
    let from = c.min(65_536) as u32;
    match image.next(from) {
        Some((a, byte)) => {
            if u32::from(a) == from {
                Some(byte)
            } else {
                None
            }
        }
        None => None,
    }
}

/// `rom M c`, where M is a memory variable of the condition and c an address that has a byte in the image:
/// `(element(M,[c]) = byte)` is added.
pub fn rom<'a>(
    arena: &'a Bump,
    goals: Goals<'a>,
    m: &'a Term<'a>,
    c: i64,
    image: &Image,
) -> After<'a>
    ensures { Applies (Rom m.now c image.now) goals.entry result }
{
    let (work, goal) = enter(goals)?;
    rom_at(arena, work, goal, m, c, image)
}

fn rom_at<'a>(
    arena: &'a Bump,
    work: Work<'a>,
    goal: &'a Term<'a>,
    m: &'a Term<'a>,
    c: i64,
    image: &Image,
) -> After<'a>
    requires { IsWork work }
    ensures { Becomes result (carried (loaded (changes_of work.entry) m.now c image.now goal.now) work.entry) }
{
    if is_known(m, work.frames()) {
        add_byte(arena, work, goal, m, c, byte_of(image, c))
    } else {
        Err(RuleRefusal::NoApply)
    }
}

fn add_byte<'a>(
    arena: &'a Bump,
    work: Work<'a>,
    goal: &'a Term<'a>,
    m: &'a Term<'a>,
    c: i64,
    byte: Option<u8>,
) -> After<'a>
    requires { IsWork work }
    ensures { Becomes result (carried (loaded_byte m.now c byte goal.now) work.entry) }
{
    let Some(byte) = byte else {
        return Err(RuleRefusal::NoApply);
    };
    let at = number(arena, c)?;
    let cell = make(arena, Kind::Element(m, at))?;
    let value = number(arena, i64::from(byte))?;
    let added = built(arena, Kind::Equal(cell, value))?;
    work.add_one(arena, added, goal)
}

/// `frame M X`, where M is `mem` or a `mem_j` of the condition and m the memory before it:
/// `(Q -> (element(M,[X]) = element(m,[X])))` is added, where Q says that X lies in none of the areas.
pub fn frame<'a>(arena: &'a Bump, goals: Goals<'a>, m: &'a Term<'a>, x: &'a Term<'a>) -> After<'a>
    ensures { Applies (Frame m.now x.now) goals.entry result }
{
    let (work, goal) = enter(goals)?;
    frame_at(arena, work, goal, m, x)
}

fn frame_at<'a>(
    arena: &'a Bump,
    work: Work<'a>,
    goal: &'a Term<'a>,
    m: &'a Term<'a>,
    x: &'a Term<'a>,
) -> After<'a>
    requires { IsWork work }
    ensures { Becomes result (carried (unchanged m.now (change_of_memory m.now (changes_of work.entry)) x.now goal.now) work.entry) }
{
    let Some(frame) = frame_of(m, work.frames()) else {
        return Err(RuleRefusal::NoApply);
    };
    let apart = outside_all(arena, x, frame.areas)?;
    let now = make(arena, Kind::Element(m, x))?;
    let before = make(arena, Kind::Element(frame.earlier, x))?;
    let added = equal_where(arena, apart, now, before)?;
    work.add_one(arena, added, goal)
}

/// `((x < low) or (high < x))`
fn outside_one<'a>(
    arena: &'a Bump,
    x: &'a Term<'a>,
    area: (u16, u16),
) -> Result<&'a Term<'a>, Memory>
    ensures { IfOk result (λ t. t.now ≡ away x.now area) }
{
    let low = number(arena, i64::from(area.0))?;
    let high = number(arena, i64::from(area.1))?;
    let below = make(arena, Kind::Less(x, low))?;
    let above = make(arena, Kind::Less(high, x))?;
    make(arena, Kind::Or(below, above))
}

/// That x lies in none of the areas: `true` without areas, else one formula an area, joined by `and` to the right.
fn outside_all<'a>(
    arena: &'a Bump,
    x: &'a Term<'a>,
    areas: &[(u16, u16)],
) -> Result<&'a Term<'a>, Memory>
    ensures { IfOk result (λ t. t.now ≡ outside x.now areas.now) }
{
    match areas.split_first() {
        Some((first, rest)) => outside_each(arena, x, *first, rest),
        None => make(arena, Kind::Truth(true)),
    }
}

fn outside_each<'a>(
    arena: &'a Bump,
    x: &'a Term<'a>,
    area: (u16, u16),
    areas: &[(u16, u16)],
) -> Result<&'a Term<'a>, Memory>
    ensures { IfOk result (λ t. t.now ≡ away_from x.now area areas.now) }
{
    let one = outside_one(arena, x, area)?;
    match areas.split_first() {
        Some((next, rest)) => {
            let others = outside_each(arena, x, *next, rest)?;
            make(arena, Kind::And(one, others))
        }
        None => Ok(one),
    }
}
