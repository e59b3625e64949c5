ghost use Rattle.std.specs.Prelude.{◌≡◌};
ghost use Rattle.sp_script_text.specs.Steps.{seen, rule_of};

use crate::rule::Rule;
use sp_term::Term;

/// A step of a script. A hypothesis is named by its number, which is 1 at least; terms are of the sort that their place
/// asks.
#[derive(Clone, Copy)]
pub enum Step<'a> {
    Close(u32),
    /// The hypothesis, or None for the goal.
    Simp(Option<u32>),
    Split,
    Intro,
    SideLeft,
    SideRight,
    Unpack(u32),
    UseBoth(u32, u32),
    CasesOf(u32),
    CasesBy(&'a Term<'a>),
    Cut(&'a Term<'a>),
    Fix,
    At(u32, &'a Term<'a>),
    Give(&'a Term<'a>),
    Pick(u32),
    Induct,
    /// The equation, the hypothesis to rewrite, or None for the goal, and whether `back` stands at the end.
    Rewrite(u32, Option<u32>, bool),
    /// The goal's multiplier, and the hypotheses, each after its multiplier.
    Linear(i64, &'a [(i64, u32)]),
    DivMod(&'a Term<'a>, i64),
    Range(&'a Term<'a>),
    Read(&'a Term<'a>),
    Rom(&'a Term<'a>, i64),
    Frame(&'a Term<'a>, &'a Term<'a>),
    Bits(&'a Term<'a>),
    BitOf(i64, &'a Term<'a>),
    Choose(&'a Term<'a>),
    Empty(&'a Term<'a>),
    Last(&'a Term<'a>),
    Over(&'a Term<'a>),
}

/// The rule of a step.
pub fn rule_of(step: Step<'_>) -> Rule
    ensures { result ≡ rule_of (seen step.entry) }
{
    match step {
        Step::Close(_) => Rule::Close,
        Step::Simp(_) => Rule::Simp,
        Step::Split => Rule::Split,
        Step::Intro => Rule::Intro,
        Step::SideLeft | Step::SideRight => Rule::Side,
        Step::Unpack(_) => Rule::Unpack,
        Step::UseBoth(_, _) => Rule::UseBoth,
        Step::CasesOf(_) | Step::CasesBy(_) => Rule::Cases,
        Step::Cut(_) => Rule::Cut,
        Step::Fix => Rule::Fix,
        Step::At(_, _) => Rule::At,
        Step::Give(_) => Rule::Give,
        Step::Pick(_) => Rule::Pick,
        Step::Induct => Rule::Induct,
        Step::Rewrite(_, _, _) => Rule::Rewrite,
        Step::Linear(_, _) => Rule::Linear,
        Step::DivMod(_, _) => Rule::DivMod,
        Step::Range(_) => Rule::Range,
        Step::Read(_) => Rule::Read,
        Step::Rom(_, _) => Rule::Rom,
        Step::Frame(_, _) => Rule::Frame,
        Step::Bits(_) => Rule::Bits,
        Step::BitOf(_, _) => Rule::BitOf,
        Step::Choose(_) => Rule::Choose,
        Step::Empty(_) => Rule::Empty,
        Step::Last(_) => Rule::Last,
        Step::Over(_) => Rule::Over,
    }
}
