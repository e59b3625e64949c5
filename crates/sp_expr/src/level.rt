ghost use Rattle.std.specs.Prelude.{◌≡◌};
ghost use Rattle.sp_expr.specs.code.Level.{settled, inverted_if, product_with, sum_with, not_with, both_with, value_with, after_operator, after_sign, after_not, empty};

use crate::arithmetic::{applied, inverted};
use crate::word::Operator;

/// An operator that waits for its right operand.
#[derive(Clone, Copy, Debug)]
pub struct Pending {
    pub operator: Operator,
    pub left: Option<u16>,
}

/// What waits for an operand between two parentheses: at most one operator of each rank, and NOT.
#[derive(Clone, Copy, Debug, Default)]
pub struct Level {
    /// OR or XOR.
    pub either: Option<Pending>,
    /// AND.
    pub both: Option<Pending>,
    /// An odd number of NOT.
    pub inverted: bool,
    /// A sum or a sign.
    pub sum: Option<Pending>,
    /// A product or a shift.
    pub product: Option<Pending>,
}

fn settled(pending: Option<Pending>, value: Option<u16>) -> Option<u16>
    ensures { result ≡ settled pending value }
{
    match pending {
        Some(pending) => applied(pending.operator, pending.left, value),
        None => value,
    }
}

fn inverted_if(yes: bool, value: Option<u16>) -> Option<u16>
    ensures { result ≡ inverted_if yes value }
{
    if yes { inverted(value) } else { value }
}

impl Level {
    pub(crate) fn empty() -> Level
        ensures { result ≡ empty }
    {
        Level {
            either: None,
            both: None,
            inverted: false,
            sum: None,
            product: None,
        }
    }

    fn product(self, operand: Option<u16>) -> Option<u16>
        ensures { result ≡ product_with self operand }
    {
        settled(self.product, operand)
    }

    fn sum(self, operand: Option<u16>) -> Option<u16>
        ensures { result ≡ sum_with self operand }
    {
        settled(self.sum, self.product(operand))
    }

    fn whole(self, operand: Option<u16>) -> Option<u16>
        ensures { result ≡ not_with self operand }
    {
        inverted_if(self.inverted, self.sum(operand))
    }

    fn both(self, operand: Option<u16>) -> Option<u16>
        ensures { result ≡ both_with self operand }
    {
        settled(self.both, self.whole(operand))
    }

    /// The value of what waits, with the last operand.
    pub(crate) fn value(self, operand: Option<u16>) -> Option<u16>
        ensures { result ≡ value_with self operand }
    {
        settled(self.either, self.both(operand))
    }

    /// What waits after an operator that follows an operand.
    pub(crate) fn after_operator(self, operator: Operator, operand: Option<u16>) -> Level
        ensures { result ≡ after_operator operator self operand }
    {
        match operator {
            Operator::Times
            | Operator::Divide
            | Operator::Modulo
            | Operator::ShiftLeft
            | Operator::ShiftRight => {
                let left = self.product(operand);
                Level {
                    product: Some(Pending { operator, left }),
                    ..self
                }
            }
            Operator::Plus | Operator::Minus => {
                let left = self.sum(operand);
                Level {
                    sum: Some(Pending { operator, left }),
                    product: None,
                    ..self
                }
            }
            Operator::And => {
                let left = self.both(operand);
                Level {
                    either: self.either,
                    both: Some(Pending { operator, left }),
                    ..Level::empty()
                }
            }
            Operator::Or | Operator::Xor => {
                let left = self.value(operand);
                Level {
                    either: Some(Pending { operator, left }),
                    ..Level::empty()
                }
            }
        }
    }

    /// What waits after a sign.
    pub(crate) fn after_sign(self, operator: Operator) -> Level
        ensures { result ≡ after_sign operator self }
    {
        let left = Some(0);
        Level {
            sum: Some(Pending { operator, left }),
            ..self
        }
    }

    /// What waits after NOT.
    pub(crate) fn after_not(self) -> Level
        ensures { result ≡ after_not self }
    {
        Level {
            inverted: !self.inverted,
            ..self
        }
    }
}
