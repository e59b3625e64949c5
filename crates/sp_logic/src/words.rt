//! The words and signs of annotations, as they are printed.
ghost use Rattle.std.specs.Prelude.{◌≡◌};
ghost use Rattle.sp_logic.specs.View.{moment_of, pair_of, operator_of, comparison_of, connective_of, quantifier_of};
ghost use Rattle.sp_logic.specs.Text.{moment_mark, location_name, pair_name, opening, middle, comparison_sign, connective_word, quantifier_words};

use crate::note::{Comparison, Connective, Moment, Operator, Quantifier, RegisterPair};
use sp_base::Loc;

/// What follows a name that is looked up at this moment.
pub fn moment_mark(moment: Moment) -> &'static str
    ensures { result.now ≡ moment_mark (moment_of moment) }
{
    match moment {
        Moment::Now => "",
        Moment::AtEntry => "~",
    }
}

/// The name of a register or a flag.
pub fn location_name(location: Loc) -> &'static str
    ensures { result.now ≡ location_name location }
{
    match location {
        Loc::A => "A",
        Loc::B => "B",
        Loc::C => "C",
        Loc::D => "D",
        Loc::E => "E",
        Loc::H => "H",
        Loc::L => "L",
        Loc::S => "S",
        Loc::Z => "Z",
        Loc::Ac => "AC",
        Loc::P => "P",
        Loc::Cy => "CY",
    }
}

/// The name of a register pair.
pub fn pair_name(pair: RegisterPair) -> &'static str
    ensures { result.now ≡ pair_name (pair_of pair) }
{
    match pair {
        RegisterPair::Bc => "BC",
        RegisterPair::De => "DE",
        RegisterPair::Hl => "HL",
    }
}

/// What stands before an operator's first part.
pub fn opening(operator: Operator) -> &'static str
    ensures { result.now ≡ opening (operator_of operator) }
{
    match operator {
        Operator::BitAnd => "band(",
        Operator::BitOr => "bor(",
        Operator::BitXor => "bxor(",
        _ => "(",
    }
}

/// What stands between an operator's parts.
pub fn middle(operator: Operator) -> &'static str
    ensures { result.now ≡ middle (operator_of operator) }
{
    match operator {
        Operator::Add => " + ",
        Operator::Subtract => " - ",
        Operator::Multiply => " * ",
        Operator::Divide => " div ",
        Operator::Modulo => " mod ",
        Operator::BitAnd | Operator::BitOr | Operator::BitXor => ", ",
    }
}

/// A comparison with the blanks round it.
pub fn comparison_sign(comparison: Comparison) -> &'static str
    ensures { result.now ≡ comparison_sign (comparison_of comparison) }
{
    match comparison {
        Comparison::Equal => " = ",
        Comparison::Unequal => " <> ",
        Comparison::Less => " < ",
        Comparison::LessOrEqual => " <= ",
        Comparison::Greater => " > ",
        Comparison::GreaterOrEqual => " >= ",
    }
}

/// A connective with the blanks round it.
pub fn connective_word(connective: Connective) -> &'static str
    ensures { result.now ≡ connective_word (connective_of connective) }
{
    match connective {
        Connective::And => " and ",
        Connective::Or => " or ",
        Connective::Implies => " -> ",
        Connective::Iff => " <-> ",
    }
}

/// The words with which a quantifier begins, and the blank after them.
pub fn quantifier_words(quantifier: Quantifier) -> &'static str
    ensures { result.now ≡ quantifier_words (quantifier_of quantifier) }
{
    match quantifier {
        Quantifier::ForAll => "for all ",
        Quantifier::ForSome => "for some ",
    }
}
