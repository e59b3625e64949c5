ghost use Rattle.std.specs.Prelude.{◌≡◌};
ghost use Rattle.sp_term.specs.Terms.{tree_of};
ghost use Rattle.sp_fdl.specs.code.Operators.{part_sort, whole_sort, operated, from_minus, from_less, sign_operator, word_operator, from_run, after_operator, signed, seen_sign, GivesSign};

use crate::refusal::FdlRefusal;
use crate::sort::Sort;
use crate::tokens::{after_blanks, split_run};
use sp_term::{Kind, Term};

/// What stands between two parts in parentheses.
#[derive(Clone, Copy, Debug)]
pub enum Operator {
    Add,
    Subtract,
    Multiply,
    Divide,
    Remainder,
    Equal,
    Less,
    LessOrEqual,
    And,
    Or,
    Implies,
    Iff,
}

/// The sort of the parts.
pub(crate) fn part_sort(operator: Operator) -> Sort
    ensures { result ≡ part_sort operator }
{
    match operator {
        Operator::Add
        | Operator::Subtract
        | Operator::Multiply
        | Operator::Divide
        | Operator::Remainder
        | Operator::Equal
        | Operator::Less
        | Operator::LessOrEqual => Sort::Int,
        Operator::And | Operator::Or | Operator::Implies | Operator::Iff => Sort::Formula,
    }
}

/// The sort of the whole.
pub(crate) fn whole_sort(operator: Operator) -> Sort
    ensures { result ≡ whole_sort operator }
{
    match operator {
        Operator::Add
        | Operator::Subtract
        | Operator::Multiply
        | Operator::Divide
        | Operator::Remainder => Sort::Int,
        Operator::Equal
        | Operator::Less
        | Operator::LessOrEqual
        | Operator::And
        | Operator::Or
        | Operator::Implies
        | Operator::Iff => Sort::Formula,
    }
}

/// The node with these parts.
pub(crate) fn operated<'a>(operator: Operator, x: &'a Term<'a>, y: &'a Term<'a>) -> Kind<'a>
    ensures { tree_of result ≡ operated operator x.now y.now }
{
    match operator {
        Operator::Add => Kind::Add(x, y),
        Operator::Subtract => Kind::Subtract(x, y),
        Operator::Multiply => Kind::Multiply(x, y),
        Operator::Divide => Kind::Divide(x, y),
        Operator::Remainder => Kind::Remainder(x, y),
        Operator::Equal => Kind::Equal(x, y),
        Operator::Less => Kind::Less(x, y),
        Operator::LessOrEqual => Kind::LessOrEqual(x, y),
        Operator::And => Kind::And(x, y),
        Operator::Or => Kind::Or(x, y),
        Operator::Implies => Kind::Implies(x, y),
        Operator::Iff => Kind::Iff(x, y),
    }
}

/// An operator that a text begins with, and what follows it.
#[derive(Clone, Copy)]
pub struct Sign<'t> {
    pub operator: Operator,
    pub rest: &'t [u8],
}

fn with_sign(operator: Operator, rest: &[u8]) -> Option<Sign>
    ensures { seen_sign result ≡ signed operator rest.now }
{
    Some(Sign { operator, rest })
}

/// `->` or `-`, after the first byte.
fn from_minus(text: &[u8]) -> Option<Sign>
    ensures { seen_sign result ≡ from_minus text.now }
{
    match text {
        [next, rest @ ..] if *next == b'>' => with_sign(Operator::Implies, rest),
        _ => with_sign(Operator::Subtract, text),
    }
}

/// `<->`, `<=` or `<`, after the first byte.
fn from_less(text: &[u8]) -> Option<Sign>
    ensures { seen_sign result ≡ from_less text.now }
{
    match text {
        [next, last, rest @ ..] if *next == b'-' && *last == b'>' => with_sign(Operator::Iff, rest),
        [next, rest @ ..] if *next == b'=' => with_sign(Operator::LessOrEqual, rest),
        _ => with_sign(Operator::Less, text),
    }
}

/// The longest sign that a text begins with.
#[tactic(auto, unfolding(crate::specs::code::Operators::sign_operator))]
fn sign_operator(text: &[u8]) -> Option<Sign>
    ensures { seen_sign result ≡ sign_operator text.now }
{
    let [first, rest @ ..] = text else {
        return None;
    };
    let first = *first;
    if first == b'<' {
        from_less(rest)
    } else if first == b'-' {
        from_minus(rest)
    } else if first == b'+' {
        with_sign(Operator::Add, rest)
    } else if first == b'*' {
        with_sign(Operator::Multiply, rest)
    } else if first == b'=' {
        with_sign(Operator::Equal, rest)
    } else {
        None
    }
}

/// An operator that is a word.
#[tactic(auto, unfolding(crate::specs::code::Operators::word_operator))]
fn word_operator(run: &[u8]) -> Option<Operator>
    ensures { result ≡ word_operator run.now }
{
    if run == b"div".as_slice() {
        Some(Operator::Divide)
    } else if run == b"mod".as_slice() {
        Some(Operator::Remainder)
    } else if run == b"and".as_slice() {
        Some(Operator::And)
    } else if run == b"or".as_slice() {
        Some(Operator::Or)
    } else {
        None
    }
}

fn from_run<'t>(run: &[u8], rest: &'t [u8], text: &'t [u8]) -> Option<Sign<'t>>
    ensures { seen_sign result ≡ from_run run.now rest.now text.now }
{
    match run {
        [] => sign_operator(text),
        [_, ..] => with_sign(word_operator(run)?, rest),
    }
}

/// The operator that stands after blanks.
#[tactic(auto, unfolding(crate::specs::code::Operators::operator_at))]
pub(crate) fn after_operator(text: &[u8]) -> Result<Sign, FdlRefusal>
    ensures { GivesSign result (after_operator text.now) }
{
    let text = after_blanks(text);
    let (run, rest) = split_run(text);
    match from_run(run, rest, text) {
        Some(found) => Ok(found),
        None => Err(FdlRefusal::Syntax),
    }
}
