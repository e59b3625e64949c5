//! Parts of a condition with what is known of their sorts and sizes.
ghost use Rattle.std.specs.Prelude.{◌≡◌};
ghost use Rattle.sp_logic.specs.View.{moment_of, pair_of, operator_of, comparison_of, connective_of, quantifier_of};
ghost use Rattle.sp_note.specs.Sorts.{is_number, is_truth, given};
ghost use Rattle.sp_note.specs.Bounds.{below, kept, either, operated, greater, location_bound};
ghost use Rattle.sp_note.specs.code.Answers.{AnswersSome};
ghost use Rattle.sp_note.specs.code.Operands.{known_of, number, constant, location, pair, stack_word, named, measured, cell, total, element, parity, negative, operate, compare, inverted, connect, quantified, two_bits, joined};

use crate::refusal::LineRefusal;
use crate::word::{Bits, Infix, Measure};
use sp_base::{Loc, Name};
use sp_logic::{Comparison, Connective, Moment, Operator, Quantifier, RawNote, RegisterPair};
use std::alloc::Global;

/// What each bound has to be below.
const LIMIT: u128 = 1 << 100;

/// What a part of a condition stands for.
#[derive(Clone, Copy, Debug, PartialEq, Eq)]
pub enum Sort {
    Number,
    Truth,
}

/// A part of a condition that is read.
#[derive(Drop)]
pub struct Operand {
    pub tree: RawNote,
    /// None where a part has another sort than its place asks.
    pub sort: Option<Sort>,
    /// The largest size of its number, 0 for a truth value; None where that of some part reaches the limit.
    pub bound: Option<u128>,
}

fn is_number(sort: Option<Sort>) -> bool
    ensures { result ≡ is_number sort }
{
    match sort {
        Some(Sort::Number) => true,
        Some(Sort::Truth) | None => false,
    }
}

pub(crate) fn is_truth(sort: Option<Sort>) -> bool
    ensures { result ≡ is_truth sort }
{
    match sort {
        Some(Sort::Truth) => true,
        Some(Sort::Number) | None => false,
    }
}

fn given(right: bool, sort: Sort) -> Option<Sort>
    ensures { result ≡ given right sort }
{
    if right { Some(sort) } else { None }
}

fn below(bound: u128) -> Option<u128>
    ensures { result ≡ below bound }
{
    if bound < LIMIT { Some(bound) } else { None }
}

fn kept(part: Option<u128>, bound: u128) -> Option<u128>
    ensures { result ≡ kept part bound }
{
    match part {
        Some(_) => Some(bound),
        None => None,
    }
}

fn either(one: Option<u128>, other: Option<u128>, bound: u128) -> Option<u128>
    ensures { result ≡ either one other bound }
{
    match (one, other) {
        (Some(_), Some(_)) => Some(bound),
        _ => None,
    }
}

fn operated(operator: Operator, x: Option<u128>, y: Option<u128>) -> Option<u128>
    ensures { result ≡ operated (operator_of operator) x y }
{
    let (Some(x), Some(y)) = (x, y) else {
        return None;
    };
    match operator {
        Operator::Add | Operator::Subtract => below(x.checked_add(y)?),
        Operator::Multiply => below(x.checked_mul(y)?),
        Operator::Divide => below(x),
        Operator::Modulo => below(y),
        Operator::BitAnd | Operator::BitOr | Operator::BitXor => below(255),
    }
}

/// The greater of the bounds of a quantifier's ends.
pub(crate) fn greater(x: Option<u128>, y: Option<u128>) -> u128
    ensures { result ≡ greater x y }
{
    x.unwrap_or(0).max(y.unwrap_or(0))
}

fn location_bound(location: Loc) -> u128
    ensures { result ≡ location_bound location }
{
    match location {
        Loc::S | Loc::Z | Loc::Ac | Loc::P | Loc::Cy => 1,
        _ => 255,
    }
}

/// A number.
pub(crate) fn number(n: u64) -> Operand
    ensures { known_of result ≡ number n }
{
    Operand {
        tree: RawNote::Literal(n),
        sort: Some(Sort::Number),
        bound: below(u128::from(n)),
    }
}

/// `true` or `false`.
pub(crate) fn constant(truth: bool) -> Operand
    ensures { known_of result ≡ constant truth }
{
    Operand {
        tree: RawNote::Constant(truth),
        sort: Some(Sort::Truth),
        bound: Some(0),
    }
}

/// A register or a flag.
pub(crate) fn location(moment: Moment, x: Loc) -> Operand
    ensures { known_of result ≡ location (moment_of moment) x }
{
    Operand {
        tree: RawNote::Location(moment, x),
        sort: Some(Sort::Number),
        bound: Some(location_bound(x)),
    }
}

/// A register pair.
pub(crate) fn pair(moment: Moment, p: RegisterPair) -> Operand
    ensures { known_of result ≡ pair (moment_of moment) (pair_of p) }
{
    Operand {
        tree: RawNote::Pair(moment, p),
        sort: Some(Sort::Number),
        bound: Some(65_535),
    }
}

/// `STKk`.
pub(crate) fn stack_word(k: u16) -> Operand
    ensures { known_of result ≡ stack_word k }
{
    Operand {
        tree: RawNote::StackWord(k),
        sort: Some(Sort::Number),
        bound: Some(65_535),
    }
}

/// A name whose number has this bound.
pub(crate) fn named(moment: Moment, name: Name, bound: u128) -> Operand
    ensures { known_of result ≡ named (moment_of moment) name bound }
{
    Operand {
        tree: RawNote::Named(moment, name),
        sort: Some(Sort::Number),
        bound: Some(bound),
    }
}

/// `addr(NAME)` or `len(NAME)`.
pub(crate) fn measured(measure: Measure, name: Name) -> Operand
    ensures { known_of result ≡ measured measure name }
{
    let tree = match measure {
        Measure::Address => RawNote::Address(name),
        Measure::Length => RawNote::Length(name),
    };
    Operand {
        tree,
        sort: Some(Sort::Number),
        bound: Some(65_535),
    }
}

/// `mem[x]`.
pub(crate) fn cell(alloc: Global, moment: Moment, x: Operand) -> Result<Operand, LineRefusal>
    ensures { AnswersSome known_of result (Some (cell (moment_of moment) (known_of x))) }
{
    let Operand { tree, sort, bound } = x;
    let tree = Box::new(alloc, tree)?;
    Ok(Operand {
        tree: RawNote::Cell(moment, tree),
        sort: given(is_number(sort), Sort::Number),
        bound: kept(bound, 255),
    })
}

/// `NAME[x]`.
pub(crate) fn element(
    alloc: Global,
    moment: Moment,
    name: Name,
    x: Operand,
) -> Result<Operand, LineRefusal>
    ensures { AnswersSome known_of result (Some (element (moment_of moment) name (known_of x))) }
{
    let Operand { tree, sort, bound } = x;
    let tree = Box::new(alloc, tree)?;
    Ok(Operand {
        tree: RawNote::Element(moment, name, tree),
        sort: given(is_number(sort), Sort::Number),
        bound: kept(bound, 255),
    })
}

/// `total(x, y)`.
pub(crate) fn total(
    alloc: Global,
    moment: Moment,
    x: Operand,
    y: Operand,
) -> Result<Operand, LineRefusal>
    ensures { AnswersSome known_of result (Some (total (moment_of moment) (known_of x) (known_of y))) }
{
    let sort = given(is_number(x.sort) && is_number(y.sort), Sort::Number);
    let bound = either(x.bound, y.bound, 16_711_680);
    let first = Box::new(alloc, x.tree)?;
    let last = Box::new(alloc, y.tree)?;
    Ok(Operand {
        tree: RawNote::Total(moment, first, last),
        sort,
        bound,
    })
}

/// `par(x)`.
pub(crate) fn parity(alloc: Global, x: Operand) -> Result<Operand, LineRefusal>
    ensures { AnswersSome known_of result (Some (parity (known_of x))) }
{
    let Operand { tree, sort, bound } = x;
    let tree = Box::new(alloc, tree)?;
    Ok(Operand {
        tree: RawNote::Parity(tree),
        sort: given(is_number(sort), Sort::Number),
        bound: kept(bound, 1),
    })
}

/// `-x`.
pub(crate) fn negative(alloc: Global, x: Operand) -> Result<Operand, LineRefusal>
    ensures { AnswersSome known_of result (Some (negative (known_of x))) }
{
    let Operand { tree, sort, bound } = x;
    let tree = Box::new(alloc, tree)?;
    Ok(Operand {
        tree: RawNote::Negative(tree),
        sort: given(is_number(sort), Sort::Number),
        bound,
    })
}

/// `not p`.
pub(crate) fn inverted(alloc: Global, p: Operand) -> Result<Operand, LineRefusal>
    ensures { AnswersSome known_of result (Some (inverted (known_of p))) }
{
    let Operand { tree, sort, bound } = p;
    let tree = Box::new(alloc, tree)?;
    Ok(Operand {
        tree: RawNote::Not(tree),
        sort: given(is_truth(sort), Sort::Truth),
        bound: kept(bound, 0),
    })
}

/// Two numbers with an operator.
fn operate(
    alloc: Global,
    operator: Operator,
    x: Operand,
    y: Operand,
) -> Result<Operand, LineRefusal>
    ensures { AnswersSome known_of result (Some (operate (operator_of operator) (known_of x) (known_of y))) }
{
    let sort = given(is_number(x.sort) && is_number(y.sort), Sort::Number);
    let bound = operated(operator, x.bound, y.bound);
    let first = Box::new(alloc, x.tree)?;
    let second = Box::new(alloc, y.tree)?;
    Ok(Operand {
        tree: RawNote::Operate(operator, first, second),
        sort,
        bound,
    })
}

/// Two numbers compared.
fn compare(
    alloc: Global,
    comparison: Comparison,
    x: Operand,
    y: Operand,
) -> Result<Operand, LineRefusal>
    ensures { AnswersSome known_of result (Some (compare (comparison_of comparison) (known_of x) (known_of y))) }
{
    let sort = given(is_number(x.sort) && is_number(y.sort), Sort::Truth);
    let bound = either(x.bound, y.bound, 0);
    let first = Box::new(alloc, x.tree)?;
    let second = Box::new(alloc, y.tree)?;
    Ok(Operand {
        tree: RawNote::Compare(comparison, first, second),
        sort,
        bound,
    })
}

/// Two truth values with a connective.
fn connect(
    alloc: Global,
    connective: Connective,
    x: Operand,
    y: Operand,
) -> Result<Operand, LineRefusal>
    ensures { AnswersSome known_of result (Some (connect (connective_of connective) (known_of x) (known_of y))) }
{
    let sort = given(is_truth(x.sort) && is_truth(y.sort), Sort::Truth);
    let bound = either(x.bound, y.bound, 0);
    let first = Box::new(alloc, x.tree)?;
    let second = Box::new(alloc, y.tree)?;
    Ok(Operand {
        tree: RawNote::Connect(connective, first, second),
        sort,
        bound,
    })
}

/// A quantifier with its ends and its condition.
pub(crate) fn quantified(
    alloc: Global,
    quantifier: Quantifier,
    name: Name,
    ends: (Operand, Operand),
    p: Operand,
) -> Result<Operand, LineRefusal>
    ensures { AnswersSome known_of result
        (Some (quantified (quantifier_of quantifier) name (known_of ends.0) (known_of ends.1) (known_of p))) }
{
    let (x, y) = ends;
    let numbers = is_number(x.sort) && is_number(y.sort);
    let sort = given(numbers && is_truth(p.sort), Sort::Truth);
    let bound = either(x.bound, either(y.bound, p.bound, 0), 0);
    let first = Box::new(alloc, x.tree)?;
    let last = Box::new(alloc, y.tree)?;
    let part = Box::new(alloc, p.tree)?;
    Ok(Operand {
        tree: RawNote::Quantify(quantifier, name, first, last, part),
        sort,
        bound,
    })
}

/// `band(x, y)`, `bor(x, y)` or `bxor(x, y)`.
pub(crate) fn two_bits(
    alloc: Global,
    bits: Bits,
    x: Operand,
    y: Operand,
) -> Result<Operand, LineRefusal>
    ensures { AnswersSome known_of result (Some (two_bits bits (known_of x) (known_of y))) }
{
    let operator = match bits {
        Bits::And => Operator::BitAnd,
        Bits::Or => Operator::BitOr,
        Bits::Xor => Operator::BitXor,
    };
    operate(alloc, operator, x, y)
}

/// Two parts with an operator between them.
pub(crate) fn joined(
    alloc: Global,
    operator: Infix,
    x: Operand,
    y: Operand,
) -> Result<Operand, LineRefusal>
    ensures { AnswersSome known_of result (Some (joined operator (known_of x) (known_of y))) }
{
    match operator {
        Infix::Iff => connect(alloc, Connective::Iff, x, y),
        Infix::Implies => connect(alloc, Connective::Implies, x, y),
        Infix::Or => connect(alloc, Connective::Or, x, y),
        Infix::And => connect(alloc, Connective::And, x, y),
        Infix::Compare(comparison) => compare(alloc, comparison, x, y),
        Infix::Add => operate(alloc, Operator::Add, x, y),
        Infix::Subtract => operate(alloc, Operator::Subtract, x, y),
        Infix::Multiply => operate(alloc, Operator::Multiply, x, y),
        Infix::Divide => operate(alloc, Operator::Divide, x, y),
        Infix::Modulo => operate(alloc, Operator::Modulo, x, y),
    }
}
