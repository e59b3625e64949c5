ghost use Rattle.std.specs.Prelude.{◌≡◌, ◌+◌, ◌*◌, ◌<◌, Some, length, is_some};
ghost use Rattle.std.specs.Option.{ForSome};
ghost use Rattle.sp_lex.specs.Numbers.{digit_of, suffix_base, at_most, value_from, value_with, number_of, limit_of};

/// The largest number of a statement.
const STATEMENT_LIMIT: u64 = 65_535;

/// The largest number of an annotation.
const ANNOTATION_LIMIT: u64 = 9_223_372_036_854_775_807;

/// The value of a digit, letters of either case being the digits from 10 on; 36 for other bytes.
fn digit_of(byte: u8) -> u64
    ensures { result ≡ digit_of byte }
{
    if byte.is_ascii_digit() {
        u64::from(byte - b'0')
    } else if byte.is_ascii_alphabetic() {
        u64::from(byte.to_ascii_uppercase() - 55)
    } else {
        36
    }
}

/// The base that a number's last character names.
fn suffix_base(last: u8) -> Option<u64>
    ensures value { result ≡ suffix_base last }
    ensures based { ForSome result (λ base. 0 < base) }
{
    let last = last.to_ascii_uppercase();
    if last == b'H' {
        Some(16)
    } else if last == b'O' || last == b'Q' {
        Some(8)
    } else if last == b'D' {
        Some(10)
    } else if last == b'B' {
        Some(2)
    } else {
        None
    }
}

fn with_digit(limit: u64, base: u64, value: u64, digit: u64) -> Option<u64>
    ensures { result ≡ at_most limit (Some (value * base + digit)) }
{
    let product = value.checked_mul(base)?;
    let sum = product.checked_add(digit)?;
    if sum <= limit { Some(sum) } else { None }
}

fn value_in(limit: u64, base: u64, digits: &[u8]) -> Option<u64>
    requires { 0 < base }
    ensures { result ≡ at_most limit (value_from base 0 digits.now) }
{
    let mut value = 0;
    for byte in digits {
        let digit = digit_of(*byte);
        if digit >= base {
            return None;
        }
        let Some(next) = with_digit(limit, base, value, digit) else {
            return None;
        };
        value = next;
    }
    Some(value)
}

fn value_with(limit: u64, base: Option<u64>, text: &[u8]) -> Option<u64>
    requires based { ForSome base (λ base. 0 < base) }
    requires some { 0 < length text.now }
    ensures { result ≡ at_most limit (value_with base text.now) }
{
    match base {
        Some(base) => value_in(limit, base, &text[..text.len() - 1]),
        None => value_in(limit, 10, text),
    }
}

#[tactic(auto, unfolding(crate::specs::Numbers::number_of))]
fn number_within(limit: u64, text: &[u8]) -> Option<u64>
    ensures { result ≡ at_most limit (number_of text.now) }
{
    match text {
        [first, rest @ ..] if first.is_ascii_digit() => {
            value_with(limit, suffix_base(text[rest.len()]), text)
        }
        _ => None,
    }
}

/// Whether a number token has a value within the limit of its kind of line.
pub(crate) fn is_number(annotation: bool, text: &[u8]) -> bool
    ensures { result ≡ is_some (at_most (limit_of annotation) (number_of text.now)) }
{
    let limit = if annotation {
        ANNOTATION_LIMIT
    } else {
        STATEMENT_LIMIT
    };
    number_within(limit, text).is_some()
}

/// The value of a number as it is written, if it is one and at most 9,223,372,036,854,775,807. Its last letter names
/// its base: H hexadecimal, O or Q octal, D decimal, B binary. So `0BH` is 11 and `1B` is 1.
pub fn number(text: &[u8]) -> Option<u64>
    ensures { result ≡ at_most 9223372036854775807 (number_of text.now) }
{
    number_within(ANNOTATION_LIMIT, text)
}
