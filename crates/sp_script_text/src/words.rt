//! Words and the blanks between them. A word is a longest run of bytes other than space and tab.
ghost use Rattle.std.specs.Prelude.{◌≡◌, ◌≤◌, length, reverse};
ghost use Rattle.std.specs.List.{prefix_len};
ghost use Rattle.sp_fdl.specs.Text.{is_blank};
ghost use Rattle.sp_fdl.specs.code.Tokens.{after_blanks};
ghost use Rattle.sp_script_text.specs.code.Words.{is_solid, word_of, after_word, after_space, trim_end, trimmed, last_word, before_last_word};
ghost use Rattle.sp_script_text.specs.code.Answers.{GivesText};

use crate::refusal::StepRefusal;

/// A blank is a space or a tab.
pub(crate) fn is_blank(byte: u8) -> bool
    ensures { result ≡ is_blank byte }
{
    byte == b' ' || byte == b'\t'
}

fn blanks_len(text: &[u8]) -> usize
    ensures value { result ≡ prefix_len is_blank text.now }
    ensures within { result ≤ length text.now }
{
    text.iter().take_while(|byte| is_blank(**byte)).count()
}

fn word_len(text: &[u8]) -> usize
    ensures value { result ≡ prefix_len is_solid text.now }
    ensures within { result ≤ length text.now }
{
    text.iter().take_while(|byte| !is_blank(**byte)).count()
}

fn end_blanks_len(text: &[u8]) -> usize
    ensures value { result ≡ prefix_len is_blank (reverse text.now) }
    ensures within { result ≤ length text.now }
{
    text.iter()
        .rev()
        .take_while(|byte| is_blank(**byte))
        .count()
}

fn last_word_len(text: &[u8]) -> usize
    ensures value { result ≡ prefix_len is_solid (reverse text.now) }
    ensures within { result ≤ length text.now }
{
    text.iter()
        .rev()
        .take_while(|byte| !is_blank(**byte))
        .count()
}

/// A text after the blanks at its front.
#[tactic(auto, using(sp_fdl::proofs::TakenLemmas::after_blanks_is))]
pub(crate) fn after_blanks(text: &[u8]) -> &[u8]
    ensures { result.now ≡ after_blanks text.now }
{
    let (_, rest) = text.split_at(blanks_len(text));
    rest
}

/// The word at the front, and what follows it.
#[tactic(auto, using(sp_fdl::proofs::TakenLemmas::taken_is, sp_fdl::proofs::TakenLemmas::dropped_is))]
pub(crate) fn split_word(text: &[u8]) -> (&[u8], &[u8])
    ensures word { result.0.now ≡ word_of text.now }
    ensures rest { result.1.now ≡ after_word text.now }
{
    text.split_at(word_len(text))
}

/// What follows the blanks at the front, of which there is one at least.
#[tactic(auto, unfolding(crate::specs::code::Words::after_space))]
pub(crate) fn after_space(text: &[u8]) -> Result<&[u8], StepRefusal>
    ensures { GivesText result (after_space text.now) }
{
    match text {
        [first, rest @ ..] if is_blank(*first) => Ok(after_blanks(rest)),
        _ => Err(StepRefusal::Syntax),
    }
}

/// A text without the blanks at its end.
#[tactic(auto, unfolding(crate::specs::code::Words::trim_end), using(crate::proofs::WordLemmas::take_before))]
pub(crate) fn trim_end(text: &[u8]) -> &[u8]
    ensures { result.now ≡ trim_end text.now }
{
    let (front, _) = text.split_at(text.len() - end_blanks_len(text));
    front
}

/// A text without the blanks at its two ends.
#[tactic(auto, unfolding(crate::specs::code::Words::trimmed))]
pub(crate) fn trimmed(text: &[u8]) -> &[u8]
    ensures { result.now ≡ trimmed text.now }
{
    trim_end(after_blanks(text))
}

/// What stands before the word at the end, and this word.
#[tactic(auto, unfolding(crate::specs::code::Words::last_word, crate::specs::code::Words::before_last_word), using(crate::proofs::WordLemmas::take_before, crate::proofs::WordLemmas::drop_before))]
pub(crate) fn split_last_word(text: &[u8]) -> (&[u8], &[u8])
    ensures front { result.0.now ≡ before_last_word text.now }
    ensures word { result.1.now ≡ last_word text.now }
{
    text.split_at(text.len() - last_word_len(text))
}
