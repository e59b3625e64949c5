ghost use Rattle.std.specs.Prelude.{◌≡◌, ◌<◌, ◌≤◌, IfSome, take, drop};
ghost use Rattle.sp_words.specs.code.Slots.{with_digit, number_after, slot_number, slot_named};

/// The number with one digit more, if that is a digit and the number at most 32,767.
fn with_digit(number: u16, digit: u8) -> Option<u16>
    requires { number ≤ 32767 }
    ensures value { result ≡ with_digit number digit }
    ensures small { IfSome result (λ next. next ≤ 32767) }
{
    if !digit.is_ascii_digit() {
        return None;
    }
    let next = u32::from(number) * 10 + u32::from(digit - b'0');
    if next <= 32_767 {
        Some(next as u16)
    } else {
        None
    }
}

/// The number of decimal digits, at most 32,767.
fn number_of(digits: &[u8]) -> Option<u16>
    ensures { result ≡ number_after 0 digits.now }
{
    let mut number = 0;
    for digit in digits {
        let Some(next) = with_digit(number, *digit) else {
            return None;
        };
        number = next;
    }
    Some(number)
}

/// The number of decimal digits, from 1 to 32,767 and without leading zeros.
fn slot_number(digits: &[u8]) -> Option<u16>
    ensures { result ≡ slot_number digits.now }
{
    match digits {
        [] | [b'0', ..] => None,
        [_, ..] => number_of(digits),
    }
}

/// The k of a word `STKk`.
pub(crate) fn slot_named(word: &[u8]) -> Option<u16>
    ensures { result ≡ slot_named word.now }
{
    if word.len() < 3 {
        return None;
    }
    let (front, digits) = word.split_at(3);
    if front == b"STK".as_slice() {
        slot_number(digits)
    } else {
        None
    }
}
