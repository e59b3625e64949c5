ghost use Rattle.std.specs.Prelude.{◌≡◌, ◌*◌, ◌/◌, ◌%◌, ◌^◌, nat_lt, if◌then◌else◌};
ghost use Rattle.sp_expr.specs.Arithmetic.{combined, applied, inverted, rank_of};

use crate::word::Operator;

fn low_word(value: u32) -> u16
    ensures { result ≡ value % 65536 }
{
    (value % 65_536) as u16
}

fn shifted_left(a: u16, b: u16) -> u16
    ensures { result ≡ (if nat_lt b 16 then a * 2 ^ b % 65536 else 0) }
{
    if b < 16 { a << b } else { 0 }
}

fn shifted_right(a: u16, b: u16) -> u16
    ensures { result ≡ (if nat_lt b 16 then a / 2 ^ b else 0) }
{
    if b < 16 { a >> b } else { 0 }
}

/// The value of an operation, none where the divisor is zero.
fn combined(operator: Operator, a: u16, b: u16) -> Option<u16>
    ensures { result ≡ combined operator a b }
{
    match operator {
        Operator::Times => Some(low_word(u32::from(a) * u32::from(b))),
        Operator::Divide => if b == 0 { None } else { Some(a / b) },
        Operator::Modulo => if b == 0 { None } else { Some(a % b) },
        Operator::ShiftLeft => Some(shifted_left(a, b)),
        Operator::ShiftRight => Some(shifted_right(a, b)),
        Operator::Plus => Some(low_word(u32::from(a) + u32::from(b))),
        Operator::Minus => Some(low_word(u32::from(a) + 65_536 - u32::from(b))),
        Operator::And => Some(a & b),
        Operator::Or => Some(a | b),
        Operator::Xor => Some(a ^ b),
    }
}

/// The value of an operation on values, none where one of them has none.
pub(crate) fn applied(operator: Operator, left: Option<u16>, right: Option<u16>) -> Option<u16>
    ensures { result ≡ applied operator left right }
{
    match (left, right) {
        (Some(a), Some(b)) => combined(operator, a, b),
        _ => None,
    }
}

/// Every bit complemented.
pub(crate) fn inverted(value: Option<u16>) -> Option<u16>
    ensures { result ≡ inverted value }
{
    match value {
        Some(value) => Some(value ^ 65_535),
        None => None,
    }
}

/// The rank of an operator, 1 for the tightest; NOT has rank 3.
pub(crate) fn rank_of(operator: Operator) -> u8
    ensures { result ≡ rank_of operator }
{
    match operator {
        Operator::Times
        | Operator::Divide
        | Operator::Modulo
        | Operator::ShiftLeft
        | Operator::ShiftRight => 1,
        Operator::Plus | Operator::Minus => 2,
        Operator::And => 4,
        Operator::Or | Operator::Xor => 5,
    }
}
