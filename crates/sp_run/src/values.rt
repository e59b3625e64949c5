//! The values of options. Numbers are written as the assembler's are: with a digit in front, and a last letter for
//! the base.
ghost use Rattle.std.specs.Prelude.{◌≡◌, ◌≤◌, ℕ};
ghost use Rattle.std.specs.List.{list_all};
ghost use Rattle.std.specs.Char.{is_ascii_digit};
ghost use Rattle.sp_lex.specs.Numbers.{at_most, number_of};
ghost use Rattle.sp_run.specs.Values.{byte_of, word_of, bit_of, count_of};

/// The most steps that `--steps` names.
const MOST_STEPS: u64 = 1_000_000;

/// The number that a text stands for, if it is at most a limit.
fn value_within(limit: u64, text: &[u8]) -> Option<u64>
    requires { limit ≤ 9223372036854775807 }
    ensures { result ≡ at_most limit (number_of text.now) }
{
    let value = sp_lex::number(text)?;
    if value <= limit { Some(value) } else { None }
}

/// A number from 0 to 255.
pub fn byte_value(text: &[u8]) -> Option<u8>
    ensures { result ≡ byte_of text.now }
{
    Some(value_within(255, text)? as u8)
}

/// A number from 0 to 65,535.
pub fn word_value(text: &[u8]) -> Option<u16>
    ensures { result ≡ word_of text.now }
{
    Some(value_within(65_535, text)? as u16)
}

/// A number that is 0 or 1.
pub fn bit_value(text: &[u8]) -> Option<bool>
    ensures { result ≡ bit_of text.now }
{
    Some(value_within(1, text)? == 1)
}

fn has_digits_alone(text: &[u8]) -> bool
    ensures { result ≡ list_all is_ascii_digit text.now }
{
    text.iter().all(|byte| byte.is_ascii_digit())
}

/// A number of steps, in decimal digits alone.
pub fn count_value(text: &[u8]) -> Option<u32>
    ensures { result ≡ count_of text.now }
{
    if has_digits_alone(text) {
        Some(value_within(MOST_STEPS, text)? as u32)
    } else {
        None
    }
}
