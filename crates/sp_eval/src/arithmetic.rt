ghost use Rattle.std.specs.Prelude.{◌≡◌, pos};
ghost use Rattle.sp_base.specs.Integers.{quotient, remainder, low_byte, parity, count_between};
ghost use Rattle.sp_logic.specs.View.{operator_of};
ghost use Rattle.sp_model.specs.Note.{calculate};
ghost use Rattle.sp_eval.specs.code.Small.{IsSmall};

use sp_logic::Operator;

/// The quotient rounded down, 0 by 0.
pub fn quotient(x: i128, y: i128) -> i128
    requires left { IsSmall x }
    requires right { IsSmall y }
    ensures { result ≡ quotient x y }
{
    if y == 0 {
        0
    } else if y > 0 {
        x.div_euclid(y)
    } else {
        (-x).div_euclid(-y)
    }
}

/// What the quotient leaves over, 0 by 0.
pub fn remainder(x: i128, y: i128) -> i128
    requires left { IsSmall x }
    requires right { IsSmall y }
    ensures { result ≡ remainder x y }
{
    if y == 0 {
        0
    } else if y > 0 {
        x.rem_euclid(y)
    } else {
        -(-x).rem_euclid(-y)
    }
}

/// A number modulo 256.
pub fn low_byte(x: i128) -> u8
    ensures { result ≡ low_byte x }
{
    x.rem_euclid(256) as u8
}

/// 1 where a number modulo 256 has an even number of ones, and else 0.
pub fn parity(x: i128) -> i128
    ensures { result ≡ parity x }
{
    if low_byte(x).count_ones() % 2 == 0 {
        1
    } else {
        0
    }
}

/// How many whole numbers there are from one through another.
pub fn count_between(low: i128, high: i128) -> u128
    requires low { IsSmall low }
    requires high { IsSmall high }
    ensures { result ≡ count_between low high }
{
    if high < low {
        0
    } else {
        (high - low + 1) as u128
    }
}

/// Two numbers with an operator.
pub fn calculate(operator: Operator, x: i128, y: i128) -> i128
    requires left { IsSmall x }
    requires right { IsSmall y }
    requires whole { IsSmall (calculate (operator_of operator) x y) }
    ensures { result ≡ calculate (operator_of operator) x y }
{
    match operator {
        Operator::Add => x + y,
        Operator::Subtract => x - y,
        Operator::Multiply => x * y,
        Operator::Divide => quotient(x, y),
        Operator::Modulo => remainder(x, y),
        Operator::BitAnd => i128::from(low_byte(x) & low_byte(y)),
        Operator::BitOr => i128::from(low_byte(x) | low_byte(y)),
        Operator::BitXor => i128::from(low_byte(x) ^ low_byte(y)),
    }
}
