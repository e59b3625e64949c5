//! The arguments of steps. What stands for nothing of the kind that is asked is Syntax.
ghost use Rattle.std.specs.Prelude.{◌≡◌};
ghost use Rattle.sp_fdl.specs.code.Reading.{read_of};
ghost use Rattle.sp_script_text.specs.code.Answers.{Gives, GivesValue};
ghost use Rattle.sp_script_text.specs.code.Arguments.{formula_of, int_of, memory_of, number_of, hypothesis_of, last_formula, last_int, last_hypothesis, next_hypothesis, next_number, int_and_number, memory_and_number, memory_and_int, two_hypotheses, hypothesis_and_int, number_and_int};

use crate::digits::number_of as name_number;
use crate::refusal::StepRefusal;
use crate::roots::{is_formula, is_int, is_memory, literal};
use crate::splitting::after_memory;
use crate::words::{after_space, split_last_word, split_word, trim_end};
use bumpalo::Bump;
use sp_term::Term;
use std::alloc::Global;

/// Where the terms of a step are made.
#[derive(Clone, Copy)]
pub struct Place<'a> {
    pub alloc: Global,
    pub arena: &'a Bump,
}

/// The term that a text stands for.
#[tactic(auto, using(crate::proofs::TermLemmas::read_some, crate::proofs::TermLemmas::read_none))]
fn term<'a>(place: Place<'a>, text: &[u8]) -> Result<&'a Term<'a>, StepRefusal>
    ensures { Gives (λ t. t.now) result (read_of text.now) }
{
    let t = sp_fdl::read(place.alloc, text, place.arena)?;
    Ok(t)
}

#[tactic(auto, unfolding(crate::specs::code::Arguments::formula_of))]
pub(crate) fn formula<'a>(place: Place<'a>, text: &[u8]) -> Result<&'a Term<'a>, StepRefusal>
    ensures { Gives (λ t. t.now) result (formula_of text.now) }
{
    let t = term(place, text)?;
    if is_formula(t) {
        Ok(t)
    } else {
        Err(StepRefusal::Syntax)
    }
}

#[tactic(auto, unfolding(crate::specs::code::Arguments::int_of))]
fn int<'a>(place: Place<'a>, text: &[u8]) -> Result<&'a Term<'a>, StepRefusal>
    ensures { Gives (λ t. t.now) result (int_of text.now) }
{
    let t = term(place, text)?;
    if is_int(t) {
        Ok(t)
    } else {
        Err(StepRefusal::Syntax)
    }
}

#[tactic(auto, unfolding(crate::specs::code::Arguments::memory_of))]
fn memory<'a>(place: Place<'a>, text: &[u8]) -> Result<&'a Term<'a>, StepRefusal>
    ensures { Gives (λ t. t.now) result (memory_of text.now) }
{
    let t = term(place, text)?;
    if is_memory(t) {
        Ok(t)
    } else {
        Err(StepRefusal::Syntax)
    }
}

/// A number of 64 bits. Its text is that of a literal.
#[tactic(auto, unfolding(crate::specs::code::Arguments::number_of))]
fn number(place: Place<'_>, text: &[u8]) -> Result<i64, StepRefusal>
    ensures { Gives (λ n. n) result (number_of text.now) }
{
    let t = term(place, text)?;
    match literal(t) {
        Some(n) => Ok(n),
        None => Err(StepRefusal::Syntax),
    }
}

/// The number of a hypothesis, as 12 of `h12`.
#[tactic(auto, unfolding(crate::specs::code::Arguments::hypothesis_of))]
pub(crate) fn hypothesis(text: &[u8]) -> Option<u32>
    ensures { result ≡ hypothesis_of text.now }
{
    match text {
        [b'h', digits @ ..] => name_number(digits),
        _ => None,
    }
}

#[tactic(auto, unfolding(crate::specs::code::Arguments::last_formula))]
pub(crate) fn last_formula<'a>(place: Place<'a>, text: &[u8]) -> Result<&'a Term<'a>, StepRefusal>
    ensures { Gives (λ t. t.now) result (last_formula text.now) }
{
    formula(place, after_space(text)?)
}

#[tactic(auto, unfolding(crate::specs::code::Arguments::last_int))]
pub(crate) fn last_int<'a>(place: Place<'a>, text: &[u8]) -> Result<&'a Term<'a>, StepRefusal>
    ensures { Gives (λ t. t.now) result (last_int text.now) }
{
    int(place, after_space(text)?)
}

#[tactic(auto, unfolding(crate::specs::code::Arguments::last_hypothesis))]
pub(crate) fn last_hypothesis(text: &[u8]) -> Result<u32, StepRefusal>
    ensures { GivesValue (λ k. k) result (last_hypothesis text.now) }
{
    match hypothesis(after_space(text)?) {
        Some(k) => Ok(k),
        None => Err(StepRefusal::Syntax),
    }
}

/// A hypothesis, and what follows it.
#[tactic(auto, unfolding(crate::specs::code::Arguments::next_hypothesis))]
pub(crate) fn next_hypothesis(text: &[u8]) -> Result<(u32, &[u8]), StepRefusal>
    ensures { GivesValue (λ p. (p.0, p.1.now)) result (next_hypothesis text.now) }
{
    let (word, rest) = split_word(after_space(text)?);
    match hypothesis(word) {
        Some(k) => Ok((k, rest)),
        None => Err(StepRefusal::Syntax),
    }
}

/// A number, and what follows it.
#[tactic(auto, unfolding(crate::specs::code::Arguments::next_number))]
pub(crate) fn next_number<'t>(
    place: Place<'_>,
    text: &'t [u8],
) -> Result<(i64, &'t [u8]), StepRefusal>
    ensures { Gives (λ p. (p.0, p.1.now)) result (next_number text.now) }
{
    let (word, rest) = split_word(after_space(text)?);
    let n = number(place, word)?;
    Ok((n, rest))
}

#[tactic(auto, unfolding(crate::specs::code::Arguments::int_and_number))]
pub(crate) fn int_and_number<'a>(
    place: Place<'a>,
    text: &[u8],
) -> Result<(&'a Term<'a>, i64), StepRefusal>
    ensures { Gives (λ p. (p.0.now, p.1)) result (int_and_number text.now) }
{
    let (front, word) = split_last_word(after_space(text)?);
    let x = int(place, trim_end(front))?;
    let n = number(place, word)?;
    Ok((x, n))
}

#[tactic(auto, unfolding(crate::specs::code::Arguments::memory_and_number))]
pub(crate) fn memory_and_number<'a>(
    place: Place<'a>,
    text: &[u8],
) -> Result<(&'a Term<'a>, i64), StepRefusal>
    ensures { Gives (λ p. (p.0.now, p.1)) result (memory_and_number text.now) }
{
    let (front, word) = split_last_word(after_space(text)?);
    let m = memory(place, trim_end(front))?;
    let n = number(place, word)?;
    Ok((m, n))
}

#[tactic(auto, unfolding(crate::specs::code::Arguments::memory_and_int))]
pub(crate) fn memory_and_int<'a>(
    place: Place<'a>,
    text: &[u8],
) -> Result<(&'a Term<'a>, &'a Term<'a>), StepRefusal>
    ensures { Gives (λ p. (p.0.now, p.1.now)) result (memory_and_int text.now) }
{
    let both = after_space(text)?;
    let Some(rest) = after_memory(both) else {
        return Err(StepRefusal::Syntax);
    };
    let (front, _) = both.split_at(both.len() - rest.len());
    let m = memory(place, front)?;
    let x = last_int(place, rest)?;
    Ok((m, x))
}

#[tactic(auto, unfolding(crate::specs::code::Arguments::two_hypotheses))]
pub(crate) fn two_hypotheses(text: &[u8]) -> Result<(u32, u32), StepRefusal>
    ensures { GivesValue (λ p. (p.0, p.1)) result (two_hypotheses text.now) }
{
    let (k, rest) = next_hypothesis(text)?;
    let j = last_hypothesis(rest)?;
    Ok((k, j))
}

#[tactic(auto, unfolding(crate::specs::code::Arguments::hypothesis_and_int))]
pub(crate) fn hypothesis_and_int<'a>(
    place: Place<'a>,
    text: &[u8],
) -> Result<(u32, &'a Term<'a>), StepRefusal>
    ensures { Gives (λ p. (p.0, p.1.now)) result (hypothesis_and_int text.now) }
{
    let (k, rest) = next_hypothesis(text)?;
    let x = last_int(place, rest)?;
    Ok((k, x))
}

#[tactic(auto, unfolding(crate::specs::code::Arguments::number_and_int))]
pub(crate) fn number_and_int<'a>(
    place: Place<'a>,
    text: &[u8],
) -> Result<(i64, &'a Term<'a>), StepRefusal>
    ensures { Gives (λ p. (p.0, p.1.now)) result (number_and_int text.now) }
{
    let (n, rest) = next_number(place, text)?;
    let x = last_int(place, rest)?;
    Ok((n, x))
}
