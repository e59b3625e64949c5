ghost use Rattle.std.specs.Prelude.{◌≡◌, ◌*◌, ◌+◌, ◌≤◌, Some, IfSome};
ghost use Rattle.sp_fdl.specs.code.Numbers.{digit_of, value_from, at_most, name_number};

/// The greatest number of a hypothesis or a condition.
const GREATEST: u64 = 4_294_967_295;

/// The value of a digit; 10 for other bytes.
fn digit_of(byte: u8) -> u64
    ensures { result ≡ digit_of byte }
{
    if byte.is_ascii_digit() {
        u64::from(byte - b'0')
    } else {
        10
    }
}

fn with_digit(value: u64, digit: u64) -> Option<u64>
    requires small { value ≤ 4294967295 }
    requires digit { digit ≤ 10 }
    ensures { result ≡ at_most 4294967295 (Some (value * 10 + digit)) }
{
    let sum = value * 10 + digit;
    if sum <= GREATEST { Some(sum) } else { None }
}

/// The value of decimal digits, up to the greatest number.
fn value_of(digits: &[u8]) -> Option<u64>
    ensures value { result ≡ at_most 4294967295 (value_from 0 digits.now) }
    ensures within { IfSome result (λ value. value ≤ 4294967295) }
{
    let mut value = 0;
    for byte in digits {
        let digit = digit_of(*byte);
        if digit >= 10 {
            return None;
        }
        let Some(next) = with_digit(value, digit) else {
            return None;
        };
        value = next;
    }
    Some(value)
}

/// A number from 1 to 4294967295 in decimal digits without leading zeros.
#[tactic(auto, unfolding(sp_fdl::specs::code::Numbers::name_number))]
pub(crate) fn number_of(digits: &[u8]) -> Option<u32>
    ensures { result ≡ name_number digits.now }
{
    match digits {
        [] => None,
        [first, ..] => {
            if *first == b'0' {
                return None;
            }
            let value = value_of(digits)?;
            Some(value as u32)
        }
    }
}
