ghost use Rattle.std.specs.Prelude.{◌≡◌, ◌*◌, ◌+◌, ◌≤◌, Some, IfSome};
ghost use Rattle.sp_fdl.specs.code.Numbers.{digit_of, value_from, at_most, name_number, literal, negative_literal};

/// The value of a digit; 10 for other bytes.
fn digit_of(byte: u8) -> u64
    ensures { result ≡ digit_of byte }
{
    if byte.is_ascii_digit() {
        u64::from(byte - b'0')
    } else {
        10
    }
}

fn with_digit(limit: u64, value: u64, digit: u64) -> Option<u64>
    ensures { result ≡ at_most limit (Some (value * 10 + digit)) }
{
    let product = value.checked_mul(10)?;
    let sum = product.checked_add(digit)?;
    if sum <= limit { Some(sum) } else { None }
}

/// The value of decimal digits, up to a limit.
fn value_of(limit: u64, digits: &[u8]) -> Option<u64>
    ensures value { result ≡ at_most limit (value_from 0 digits.now) }
    ensures within { IfSome result (λ value. value ≤ limit) }
{
    let mut value = 0;
    for byte in digits {
        let digit = digit_of(*byte);
        if digit >= 10 {
            return None;
        }
        let Some(next) = with_digit(limit, value, digit) else {
            return None;
        };
        value = next;
    }
    Some(value)
}

/// The number of a name: from 1 to 4294967295, without leading zeros.
#[tactic(auto, unfolding(crate::specs::code::Numbers::name_number))]
pub(crate) fn name_number(digits: &[u8]) -> Option<u32>
    ensures { result ≡ name_number digits.now }
{
    match digits {
        [] => None,
        [first, ..] => {
            if *first == b'0' {
                return None;
            }
            let value = value_of(4_294_967_295, digits)?;
            Some(value as u32)
        }
    }
}

/// A literal of these digits.
#[tactic(auto, unfolding(crate::specs::code::Numbers::literal))]
pub(crate) fn literal(digits: &[u8]) -> Option<i64>
    ensures { result ≡ literal digits.now }
{
    match digits {
        [] => None,
        [_, ..] => {
            let value = value_of(9_223_372_036_854_775_807, digits)?;
            Some(value as i64)
        }
    }
}

/// The literal of a minus and these digits.
#[tactic(auto, unfolding(crate::specs::code::Numbers::negative_literal))]
pub(crate) fn negative_literal(digits: &[u8]) -> Option<i64>
    ensures { result ≡ negative_literal digits.now }
{
    match digits {
        [] => None,
        [_, ..] => {
            let value = value_of(9_223_372_036_854_775_808, digits)?;
            let value = -i128::from(value);
            Some(value as i64)
        }
    }
}
