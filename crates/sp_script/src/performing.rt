//! One step as the call of its rule.
ghost use Rattle.sp_steps.specs.Next.{Applies};
ghost use Rattle.sp_script_text.specs.Steps.{seen};
ghost use Rattle.sp_script_meaning.specs.Checking.{rule_step};

use crate::places::Place;
use sp_rules::{
    After, Case, Goals, at, bitof, bits, cases, choose, close, cut, divmod, empty, fix, frame,
    give, induct, intro, last, linear, over, pick, range, read, rewrite, rom, side, simp, split,
    unpack, use_both,
};
use sp_script_text::Step;
use sp_steps::Side;

/// The subgoals after a step.
pub fn perform<'a>(place: Place<'a, '_>, goals: Goals<'a>, step: Step<'a>) -> After<'a>
    ensures { Applies (rule_step place.entry.image.now (seen step.entry)) goals.entry result }
{
    let arena = place.arena;
    match step {
        Step::Close(k) => close(arena, goals, k),
        Step::Simp(k) => simp(arena, goals, k),
        Step::Split => split(arena, goals),
        Step::Intro => intro(arena, goals),
        Step::SideLeft => side(arena, goals, Side::Left),
        Step::SideRight => side(arena, goals, Side::Right),
        Step::Unpack(k) => unpack(arena, goals, k),
        Step::UseBoth(k, j) => use_both(arena, goals, k, j),
        Step::CasesOf(k) => cases(arena, goals, Case::Hyp(k)),
        Step::CasesBy(p) => cases(arena, goals, Case::Formula(p)),
        Step::Cut(p) => cut(arena, goals, p),
        Step::Fix => fix(arena, goals),
        Step::At(k, x) => at(arena, goals, k, x),
        Step::Give(x) => give(arena, goals, x),
        Step::Pick(k) => pick(arena, goals, k),
        Step::Induct => induct(arena, goals),
        Step::Rewrite(k, j, back) => rewrite(arena, goals, k, j, back),
        Step::Linear(n, by) => linear(arena, goals, n, by),
        Step::DivMod(x, c) => divmod(arena, goals, x, c),
        Step::Range(x) => range(arena, goals, x),
        Step::Read(x) => read(arena, goals, x),
        Step::Rom(m, c) => rom(arena, goals, m, c, place.image),
        Step::Frame(m, x) => frame(arena, goals, m, x),
        Step::Bits(x) => bits(arena, goals, x),
        Step::BitOf(k, x) => bitof(arena, goals, k, x),
        Step::Choose(x) => choose(arena, goals, x),
        Step::Empty(x) => empty(arena, goals, x),
        Step::Last(x) => last(arena, goals, x),
        Step::Over(x) => over(arena, goals, x),
    }
}
