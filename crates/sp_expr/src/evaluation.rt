ghost use Rattle.std.specs.Prelude.{◌≡◌, ◌<◌, ◌%◌, [], ◌∷◌, ◌++◌, true, false, length, unwrap_or};
ghost use Rattle.std.specs.Cmp.Lexicographic.{pointwise};
ghost use Rattle.std.specs.Prelude.{nat_eq};
ghost use Rattle.indexmap.specs.IndexMap.{get};
ghost use Rattle.sp_expr.specs.code.Evaluation.{state, start, with_operand, with_operator, closed, step, run, finished, fits};
ghost use Rattle.sp_expr.specs.Undefined.{first_undefined};
ghost use Rattle.sp_expr.specs.code.Level.{empty};

use crate::Symbols;
use crate::level::Level;
use crate::word::{Operator, Word};
use arrayvec::ArrayVec;
use sp_base::Name;

/// How far an expression is read.
#[derive(Drop)]
struct Evaluation {
    /// What waits between the parentheses that are open last.
    level: Level,
    /// What waits outside them.
    outer: ArrayVec<Level, 64>,
    /// The value of the last operand, none where a divisor was zero.
    operand: Option<u16>,
    /// Whether the last word ended an operand.
    after: bool,
}

impl Evaluation {
    ghost use Rattle.sp_expr.specs.code.States.{view};

    fn start() -> Evaluation
        ensures { view result ≡ start }
    {
        Evaluation {
            level: Level::empty(),
            outer: ArrayVec::new(),
            operand: Some(0),
            after: false,
        }
    }

    fn take_operand(&mut self, operand: Option<u16>)
        ensures { view self.new ≡ with_operand (view self.old) operand }
    {
        self.operand = operand;
        self.after = true;
    }

    fn take_operator(&mut self, operator: Operator)
        ensures { view self.new ≡ with_operator (view self.old) operator }
    {
        let level = self.level;
        self.level = if self.after {
            level.after_operator(operator, self.operand)
        } else {
            level.after_sign(operator)
        };
        self.after = false;
    }

    fn open(&mut self)
        requires { length self.old.outer.items < 64 }
        ensures { view self.new ≡ state empty ((view self.old).outer ++ (view self.old).level ∷ []) (view self.old).operand false }
    {
        let level = self.level;
        self.outer.push(level);
        self.level = Level::empty();
        self.after = false;
    }

    fn close(&mut self)
        ensures { view self.new ≡ closed (view self.old) }
    {
        let level = self.level;
        self.operand = level.value(self.operand);
        self.after = true;
        match self.outer.len().checked_sub(1) {
            Some(last) => {
                self.level = self.outer[last];
                self.outer.truncate(last);
            }
            None => self.level = Level::empty(),
        }
    }

    #[tactic(auto, unfolding(crate::specs::code::Evaluation::fits))]
    fn step(&mut self, word: Word, names: &Symbols, here: u16)
        requires { fits (length self.old.outer.items) (word ∷ []) ≡ true }
        ensures { view self.new ≡ step (λ name. get (pointwise nat_eq) names.now name) here (view self.old) word }
    {
        match word {
            Word::Number(value) => self.take_operand(Some(value)),
            Word::Name(name) => self.take_operand(Some(value_named(names, name))),
            Word::Here => self.take_operand(Some(here)),
            Word::Operator(operator) => self.take_operator(operator),
            Word::Not => self.level = self.level.after_not(),
            Word::Open => self.open(),
            Word::Close => self.close(),
        }
    }
}

/// The value of a name, 0 where it has none.
fn value_named(names: &Symbols, name: Name) -> u16
    ensures { result ≡ unwrap_or (get (pointwise nat_eq) names.now name) 0 % 65536 }
{
    match names.get(&name) {
        Some(value) => *value,
        None => 0,
    }
}

/// The value of the words of an expression, none where a divisor is zero.
pub(crate) fn evaluate(words: &[Word], names: &Symbols, here: u16) -> Option<u16>
    requires { fits 0 words.now ≡ true }
    ensures { result ≡ finished (run (λ name. get (pointwise nat_eq) names.now name) here start words.now) }
{
    let mut evaluation = Evaluation::start();
    for word in words {
        evaluation.step(*word, names, here);
    }
    evaluation.level.value(evaluation.operand)
}

/// The first name without a value.
pub(crate) fn first_undefined(words: &[Word], names: &Symbols) -> Option<Name>
    ensures { result ≡ first_undefined (λ name. get (pointwise nat_eq) names.now name) words.now }
{
    for word in words {
        if let Some(name) = undefined_in(*word, names) {
            return Some(name);
        }
    }
    None
}

#[tactic(auto, unfolding(crate::specs::Undefined::first_undefined))]
fn undefined_in(word: Word, names: &Symbols) -> Option<Name>
    ensures { result ≡ first_undefined (λ name. get (pointwise nat_eq) names.now name) (word ∷ []) }
{
    let Word::Name(name) = word else {
        return None;
    };
    if names.contains_key(&name) {
        None
    } else {
        Some(name)
    }
}
