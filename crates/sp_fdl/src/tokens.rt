ghost use Rattle.std.specs.Prelude.{◌≡◌, ◌≤◌, length};
ghost use Rattle.std.specs.List.{prefix_len};
ghost use Rattle.sp_fdl.specs.Text.{is_blank, is_run};
ghost use Rattle.sp_fdl.specs.code.Tokens.{GivesText, after_blanks, run_of, after_run, after_first, after_mark, after_dots};

use crate::refusal::FdlRefusal;

/// A blank is a space or a tab.
fn is_blank(byte: u8) -> bool
    ensures { result ≡ is_blank byte }
{
    byte == b' ' || byte == b'\t'
}

/// A run is made of letters, digits, `_` and `~`.
fn is_run(byte: u8) -> bool
    ensures { result ≡ is_run byte }
{
    byte.is_ascii_alphanumeric() || byte == b'_' || byte == b'~'
}

fn blanks_len(text: &[u8]) -> usize
    ensures value { result ≡ prefix_len is_blank text.now }
    ensures within { result ≤ length text.now }
{
    text.iter().take_while(|byte| is_blank(**byte)).count()
}

fn run_len(text: &[u8]) -> usize
    ensures value { result ≡ prefix_len is_run text.now }
    ensures within { result ≤ length text.now }
{
    text.iter().take_while(|byte| is_run(**byte)).count()
}

/// A text after the blanks that it begins with.
#[tactic(auto, using(crate::proofs::TakenLemmas::after_blanks_is))]
pub(crate) fn after_blanks(text: &[u8]) -> &[u8]
    ensures { result.now ≡ after_blanks text.now }
{
    let (_, rest) = text.split_at(blanks_len(text));
    rest
}

/// The longest run that a text begins with, and what follows.
#[tactic(auto, using(crate::proofs::TakenLemmas::run_of_is, crate::proofs::TakenLemmas::after_run_is))]
pub(crate) fn split_run(text: &[u8]) -> (&[u8], &[u8])
    ensures run { result.0.now ≡ run_of text.now }
    ensures rest { result.1.now ≡ after_run text.now }
{
    text.split_at(run_len(text))
}

/// What follows a mark at the front.
pub(crate) fn after_first(text: &[u8], mark: u8) -> Result<&[u8], FdlRefusal>
    ensures { GivesText result (after_first mark text.now) }
{
    match text {
        [first, rest @ ..] if *first == mark => Ok(rest),
        _ => Err(FdlRefusal::Syntax),
    }
}

/// What follows a mark, which may stand after blanks.
#[tactic(auto, unfolding(crate::specs::code::Tokens::after_mark))]
pub(crate) fn after_mark(text: &[u8], mark: u8) -> Result<&[u8], FdlRefusal>
    ensures { GivesText result (after_mark mark text.now) }
{
    after_first(after_blanks(text), mark)
}

/// What follows two dots, which may stand after blanks.
#[tactic(auto, unfolding(crate::specs::code::Tokens::after_dots))]
pub(crate) fn after_dots(text: &[u8]) -> Result<&[u8], FdlRefusal>
    ensures { GivesText result (after_dots text.now) }
{
    let text = after_mark(text, b'.')?;
    after_first(text, b'.')
}
