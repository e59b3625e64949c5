ghost use Rattle.std.specs.Prelude.{◌≡◌, IfOk, IfErr};
ghost use Rattle.sp_script_text.specs.declared.refusal.StepRefusal.TheVariants.{Syntax};
ghost use Rattle.sp_script_text.specs.Steps as steps;
ghost use Rattle.sp_script_text.specs.Steps.{seen};
ghost use Rattle.sp_script_text.specs.StepTexts.{IsStep};
ghost use Rattle.sp_script_text.specs.code.Answers.{Gives, GivesValue};
ghost use Rattle.sp_script_text.specs.code.Arguments.{next_named, named_of, is_back};
ghost use Rattle.sp_script_text.specs.code.Stepping.{alone, simp, side_named, side, cases, rewrite_by, rewrite_after, rewrite, linear, step_of, command_step, line_step};

use crate::arguments::{
    Place, formula, hypothesis, hypothesis_and_int, int_and_number, last_formula, last_hypothesis,
    last_int, memory_and_int, memory_and_number, next_hypothesis, next_number, number_and_int,
    two_hypotheses,
};
use crate::refusal::StepRefusal;
use crate::rule::{Rule, rule_named};
use crate::step::Step;
use crate::words::{after_space, split_word, trimmed};
use bumpalo::Bump;
use bumpalo::collections::into_bump_slice;
use std::alloc::Global;

/// A step without arguments.
fn alone<'a>(step: Step<'a>, text: &[u8]) -> Result<Step<'a>, StepRefusal>
    ensures { GivesValue seen result (alone (seen step.entry) text.now) }
{
    match text {
        [] => Ok(step),
        [_, ..] => Err(StepRefusal::Syntax),
    }
}

fn simp<'a>(text: &[u8]) -> Result<Step<'a>, StepRefusal>
    ensures { GivesValue seen result (simp text.now) }
{
    if text.is_empty() {
        return Ok(Step::Simp(None));
    }
    let k = last_hypothesis(text)?;
    Ok(Step::Simp(Some(k)))
}

#[tactic(auto, unfolding(crate::specs::code::Stepping::side))]
fn side<'a>(text: &[u8]) -> Result<Step<'a>, StepRefusal>
    ensures { GivesValue seen result (side text.now) }
{
    let word = after_space(text)?;
    if word == b"left".as_slice() {
        Ok(Step::SideLeft)
    } else if word == b"right".as_slice() {
        Ok(Step::SideRight)
    } else {
        Err(StepRefusal::Syntax)
    }
}

#[tactic(auto, unfolding(crate::specs::code::Stepping::cases))]
fn cases<'a>(place: Place<'a>, text: &[u8]) -> Result<Step<'a>, StepRefusal>
    ensures { Gives seen result (cases text.now) }
{
    let text = after_space(text)?;
    match hypothesis(text) {
        Some(k) => Ok(Step::CasesOf(k)),
        None => {
            let p = formula(place, text)?;
            Ok(Step::CasesBy(p))
        }
    }
}

/// Whether `back` stands at the end.
#[tactic(auto, unfolding(crate::specs::code::Arguments::is_back))]
fn is_back(text: &[u8]) -> Result<bool, StepRefusal>
    ensures { GivesValue (λ b. b) result (is_back text.now) }
{
    if text.is_empty() {
        return Ok(false);
    }
    let word = after_space(text)?;
    if word == b"back".as_slice() {
        Ok(true)
    } else {
        Err(StepRefusal::Syntax)
    }
}

/// After the equation and the blanks that follow it.
#[tactic(auto, unfolding(crate::specs::code::Stepping::rewrite_by))]
fn rewrite_by<'a>(k: u32, text: &[u8]) -> Result<Step<'a>, StepRefusal>
    ensures { GivesValue seen result (rewrite_by k text.now) }
{
    if text == b"back".as_slice() {
        return Ok(Step::Rewrite(k, None, true));
    }
    let (word, rest) = split_word(text);
    match hypothesis(word) {
        Some(j) => {
            let back = is_back(rest)?;
            Ok(Step::Rewrite(k, Some(j), back))
        }
        None => Err(StepRefusal::Syntax),
    }
}

#[tactic(auto, unfolding(crate::specs::code::Stepping::rewrite))]
fn rewrite<'a>(text: &[u8]) -> Result<Step<'a>, StepRefusal>
    ensures { GivesValue seen result (rewrite text.now) }
{
    let (k, rest) = next_hypothesis(text)?;
    if rest.is_empty() {
        return Ok(Step::Rewrite(k, None, false));
    }
    rewrite_by(k, after_space(rest)?)
}

/// A hypothesis after its multiplier, and what follows.
#[tactic(auto, unfolding(crate::specs::code::Arguments::next_named))]
fn next_named<'t>(place: Place<'_>, text: &'t [u8]) -> Result<((i64, u32), &'t [u8]), StepRefusal>
    ensures { Gives (λ p. (p.0, p.1.now)) result (next_named text.now) }
{
    let (n, rest) = next_number(place, text)?;
    let (k, rest) = next_hypothesis(rest)?;
    Ok(((n, k), rest))
}

/// Hypotheses, each after its multiplier.
#[tactic(auto, using(crate::proofs::ListLemmas::named_begin, crate::proofs::ListLemmas::named_goes_on, crate::proofs::ListLemmas::named_shorter, crate::proofs::ListLemmas::named_refused, crate::proofs::ListLemmas::named_all))]
fn named<'a>(place: Place<'a>, text: &[u8]) -> Result<&'a [(i64, u32)], StepRefusal>
    ensures { Gives (λ ps. ps.now) result (named_of text.now) }
{
    let mut named = Vec::new(place.arena);
    let mut rest = text;
    while !rest.is_empty() {
        match next_named(place, rest) {
            Ok((one, after)) => {
                named.push(one)?;
                rest = after;
            }
            Err(refusal) => return Err(refusal),
        }
    }
    Ok(into_bump_slice(named))
}

#[tactic(auto, unfolding(crate::specs::code::Stepping::linear))]
fn linear<'a>(place: Place<'a>, text: &[u8]) -> Result<Step<'a>, StepRefusal>
    ensures { Gives seen result (linear text.now) }
{
    let (n, rest) = next_number(place, text)?;
    let by = named(place, rest)?;
    Ok(Step::Linear(n, by))
}

/// The step of a rule with these arguments.
fn step_of<'a>(place: Place<'a>, rule: Rule, text: &[u8]) -> Result<Step<'a>, StepRefusal>
    ensures { Gives seen result (step_of rule text.now) }
{
    match rule {
        Rule::Close => Ok(Step::Close(last_hypothesis(text)?)),
        Rule::Simp => simp(text),
        Rule::Split => alone(Step::Split, text),
        Rule::Intro => alone(Step::Intro, text),
        Rule::Side => side(text),
        Rule::Unpack => Ok(Step::Unpack(last_hypothesis(text)?)),
        Rule::UseBoth => {
            let (k, j) = two_hypotheses(text)?;
            Ok(Step::UseBoth(k, j))
        }
        Rule::Cases => cases(place, text),
        Rule::Cut => Ok(Step::Cut(last_formula(place, text)?)),
        Rule::Fix => alone(Step::Fix, text),
        Rule::At => {
            let (k, x) = hypothesis_and_int(place, text)?;
            Ok(Step::At(k, x))
        }
        Rule::Give => Ok(Step::Give(last_int(place, text)?)),
        Rule::Pick => Ok(Step::Pick(last_hypothesis(text)?)),
        Rule::Induct => alone(Step::Induct, text),
        Rule::Rewrite => rewrite(text),
        Rule::Linear => linear(place, text),
        Rule::DivMod => {
            let (x, c) = int_and_number(place, text)?;
            Ok(Step::DivMod(x, c))
        }
        Rule::Range => Ok(Step::Range(last_int(place, text)?)),
        Rule::Read => Ok(Step::Read(last_int(place, text)?)),
        Rule::Rom => {
            let (m, c) = memory_and_number(place, text)?;
            Ok(Step::Rom(m, c))
        }
        Rule::Frame => {
            let (m, x) = memory_and_int(place, text)?;
            Ok(Step::Frame(m, x))
        }
        Rule::Bits => Ok(Step::Bits(last_int(place, text)?)),
        Rule::BitOf => {
            let (k, x) = number_and_int(place, text)?;
            Ok(Step::BitOf(k, x))
        }
        Rule::Choose => Ok(Step::Choose(last_int(place, text)?)),
        Rule::Empty => Ok(Step::Empty(last_int(place, text)?)),
        Rule::Last => Ok(Step::Last(last_int(place, text)?)),
        Rule::Over => Ok(Step::Over(last_int(place, text)?)),
    }
}

/// The step that a line without blanks at its ends is.
#[tactic(auto, unfolding(crate::specs::code::Stepping::command_step))]
fn command_step<'a>(place: Place<'a>, text: &[u8]) -> Result<Step<'a>, StepRefusal>
    ensures { Gives seen result (command_step text.now) }
{
    let (word, rest) = split_word(text);
    match rule_named(word) {
        Some(rule) => step_of(place, rule, rest),
        None => Err(StepRefusal::Syntax),
    }
}

#[tactic(auto, unfolding(crate::specs::code::Stepping::line_step))]
fn line_step<'a>(place: Place<'a>, line: &[u8]) -> Result<Step<'a>, StepRefusal>
    ensures { Gives seen result (line_step line.now) }
{
    command_step(place, trimmed(line))
}

/// The step that a line is, as `close h1`, with its terms in the arena. It is refused with Syntax exactly where the line
/// is none.
#[tactic(auto, using(crate::proofs::StepLemmas::line_is, crate::proofs::StepLemmas::line_none))]
pub fn read_step<'a>(alloc: Global, line: &[u8], arena: &'a Bump) -> Result<Step<'a>, StepRefusal>
    ensures ok { IfOk result (λ step. IsStep (seen step) line.now) }
    ensures syntax { IfErr result (λ e. e ≡ Syntax → (step : steps.Step) → ¬ IsStep step line.now) }
{
    line_step(Place { alloc, arena }, line)
}
