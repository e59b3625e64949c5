//! Notes as formulas.
ghost use Rattle.std.specs.Prelude.{◌≡◌, ◌^◌, ◌<◌, ◌≤◌, length, IfOk};
ghost use Rattle.sp_logic.specs.View.{moment_of, pair_of, operator_of, comparison_of, connective_of, quantifier_of, quantity_of, note_of};
ghost use Rattle.sp_logic.specs.WellFormed.{IsInLimits, NoteIsInLimits, IsWellFormed};
ghost use Rattle.sp_term.specs.Tree.{Not};
ghost use Rattle.sp_trans.specs.Symbolic.{number};
ghost use Rattle.sp_trans.specs.Formulas.{
  state_at,
  register_pair_term,
  stack_term,
  operation,
  comparison_formula,
  connective_formula,
  quantifier_formula,
  formula_of,
  QuantityFits,
  NoteFits,
};
ghost use Rattle.sp_trans.specs.View.{symbolic_of};
ghost use Rattle.sp_trans.specs.code.Between.{term_between, formula_between};
ghost use Rattle.sp_trans.specs.code.Names.{AreNumbered};
ghost use Rattle.sp_trans.specs.code.Terms.{state};

use crate::Sym;
use crate::build::{element, number, subtract};
use crate::names::{Names, inner_number, name_number};
use crate::operands::pair_term;
use crate::pairs::joined;
use crate::terms::{Terms, terms_of};
use bumpalo::Bump;
use sp_base::{Memory, Pair};
use sp_logic::{
    Comparison, Connective, Moment, Note, Operator, Quantifier, Quantity, RegisterPair,
};
use sp_term::{Kind, Term, Var, make};

/// What a note is translated in: an arena, and the states at the routine's entry and at present.
#[derive(Clone, Copy, Drop)]
pub struct Between<'a> {
    pub arena: &'a Bump,
    pub first: Terms<'a>,
    pub present: Terms<'a>,
}

fn at_moment<'a>(at: &Between<'a>, moment: Moment) -> Terms<'a>
    ensures { state result ≡ state_at (moment_of moment) (state at.now.first) (state at.now.present) }
{
    match moment {
        Moment::Now => at.present,
        Moment::AtEntry => at.first,
    }
}

fn register_pair<'a>(
    arena: &'a Bump,
    pair: RegisterPair,
    g: Terms<'a>,
) -> Result<&'a Term<'a>, Memory>
    ensures { IfOk result (λ t. t.now ≡ register_pair_term (pair_of pair) (state g.entry)) }
{
    match pair {
        RegisterPair::Bc => pair_term(arena, Pair::B, g),
        RegisterPair::De => pair_term(arena, Pair::D, g),
        RegisterPair::Hl => pair_term(arena, Pair::H, g),
    }
}

/// The k-th word from the base.
fn stack_word<'a>(arena: &'a Bump, k: u16, g: Terms<'a>) -> Result<&'a Term<'a>, Memory>
    requires some { 1 ≤ k }
    requires within { k ≤ length g.slots.now }
    ensures { IfOk result (λ t. t.now ≡ stack_term k (state g.entry).slots) }
{
    let (high, low) = g.slots[usize::from(k) - 1];
    joined(arena, high, low)
}

fn operation<'a>(
    arena: &'a Bump,
    operator: Operator,
    x: &'a Term<'a>,
    y: &'a Term<'a>,
) -> Result<&'a Term<'a>, Memory>
    ensures { IfOk result (λ t. t.now ≡ operation (operator_of operator) x.now y.now) }
{
    match operator {
        Operator::Add => make(arena, Kind::Add(x, y)),
        Operator::Subtract => make(arena, Kind::Subtract(x, y)),
        Operator::Multiply => make(arena, Kind::Multiply(x, y)),
        Operator::Divide => make(arena, Kind::Divide(x, y)),
        Operator::Modulo => make(arena, Kind::Remainder(x, y)),
        Operator::BitAnd => make(arena, Kind::ByteAnd(x, y)),
        Operator::BitOr => make(arena, Kind::ByteOr(x, y)),
        Operator::BitXor => make(arena, Kind::ByteXor(x, y)),
    }
}

/// The literal of a number below 2 to the power 63.
fn literal<'a>(arena: &'a Bump, n: u64) -> Result<&'a Term<'a>, Memory>
    requires { n < 2 ^ 63 }
    ensures { IfOk result (λ t. t.now ≡ number n) }
{
    make(arena, Kind::Literal(n as i64))
}

/// The term of a quantity.
fn quantity_term<'a>(
    at: &Between<'a>,
    names: &Names<'_>,
    quantity: &Quantity,
) -> Result<&'a Term<'a>, Memory>
    requires names { AreNumbered names.now }
    requires limits { IsInLimits (quantity_of quantity.now) }
    requires words { QuantityFits (length at.now.present.slots.now) (quantity_of quantity.now) }
    ensures { IfOk result (λ t. t.now ≡ term_between at.now names.now (quantity_of quantity.now)) }
{
    match quantity {
        Quantity::Literal(n) => literal(at.arena, *n),
        Quantity::Location(moment, x) => Ok(at_moment(at, *moment).at(*x)),
        Quantity::Pair(moment, pair) => register_pair(at.arena, *pair, at_moment(at, *moment)),
        Quantity::Cell(moment, x) => {
            let x = quantity_term(at, names, x)?;
            element(at.arena, at_moment(at, *moment).memory, x)
        }
        Quantity::StackWord(k) => stack_word(at.arena, *k, at.present),
        Quantity::Total(moment, x, y) => {
            let x = quantity_term(at, names, x)?;
            let y = quantity_term(at, names, y)?;
            make(at.arena, Kind::Total(at_moment(at, *moment).memory, x, y))
        }
        Quantity::Negative(x) => {
            let x = quantity_term(at, names, x)?;
            let zero = number(at.arena, 0)?;
            subtract(at.arena, zero, x)
        }
        Quantity::Parity(x) => {
            let x = quantity_term(at, names, x)?;
            make(at.arena, Kind::Parity(x))
        }
        Quantity::Operate(operator, x, y) => {
            let x = quantity_term(at, names, x)?;
            let y = quantity_term(at, names, y)?;
            operation(at.arena, *operator, x, y)
        }
        Quantity::Bound(name) => {
            make(
                at.arena,
                Kind::Variable(Var::Bound(name_number(names, name))),
            )
        }
    }
}

/// The formula `(not p)`.
fn not<'a>(arena: &'a Bump, p: &'a Term<'a>) -> Result<&'a Term<'a>, Memory>
    ensures { IfOk result (λ t. t.now ≡ Not p.now) }
{
    make(arena, Kind::Not(p))
}

fn comparison<'a>(
    arena: &'a Bump,
    comparison: Comparison,
    x: &'a Term<'a>,
    y: &'a Term<'a>,
) -> Result<&'a Term<'a>, Memory>
    ensures { IfOk result (λ t. t.now ≡ comparison_formula (comparison_of comparison) x.now y.now) }
{
    match comparison {
        Comparison::Equal => make(arena, Kind::Equal(x, y)),
        Comparison::Unequal => {
            let same = make(arena, Kind::Equal(x, y))?;
            not(arena, same)
        }
        Comparison::Less => make(arena, Kind::Less(x, y)),
        Comparison::LessOrEqual => make(arena, Kind::LessOrEqual(x, y)),
        Comparison::Greater => make(arena, Kind::Less(y, x)),
        Comparison::GreaterOrEqual => make(arena, Kind::LessOrEqual(y, x)),
    }
}

fn connection<'a>(
    arena: &'a Bump,
    connective: Connective,
    p: &'a Term<'a>,
    q: &'a Term<'a>,
) -> Result<&'a Term<'a>, Memory>
    ensures { IfOk result (λ t. t.now ≡ connective_formula (connective_of connective) p.now q.now) }
{
    match connective {
        Connective::And => make(arena, Kind::And(p, q)),
        Connective::Or => make(arena, Kind::Or(p, q)),
        Connective::Implies => make(arena, Kind::Implies(p, q)),
        Connective::Iff => make(arena, Kind::Iff(p, q)),
    }
}

fn quantification<'a>(
    arena: &'a Bump,
    quantifier: Quantifier,
    k: u32,
    x: &'a Term<'a>,
    y: &'a Term<'a>,
    p: &'a Term<'a>,
) -> Result<&'a Term<'a>, Memory>
    ensures { IfOk result (λ t. t.now ≡ quantifier_formula (quantifier_of quantifier) k x.now y.now p.now) }
{
    match quantifier {
        Quantifier::ForAll => make(arena, Kind::ForAll(k, x, y, p)),
        Quantifier::ForSome => make(arena, Kind::ForSome(k, x, y, p)),
    }
}

/// The formula of a note.
fn formula<'a, 'n>(
    at: &Between<'a>,
    names: &'n Names<'n>,
    note: &'n Note,
) -> Result<&'a Term<'a>, Memory>
    requires names { AreNumbered names.now }
    requires limits { NoteIsInLimits (note_of note.now) }
    requires words { NoteFits (length at.now.present.slots.now) (note_of note.now) }
    ensures { IfOk result (λ t. t.now ≡ formula_between at.now names.now (note_of note.now)) }
{
    match note {
        Note::Constant(truth) => make(at.arena, Kind::Truth(*truth)),
        Note::Compare(c, x, y) => {
            let x = quantity_term(at, names, x)?;
            let y = quantity_term(at, names, y)?;
            comparison(at.arena, *c, x, y)
        }
        Note::Not(p) => {
            let p = formula(at, names, p)?;
            not(at.arena, p)
        }
        Note::Connect(c, p, q) => {
            let p = formula(at, names, p)?;
            let q = formula(at, names, q)?;
            connection(at.arena, *c, p, q)
        }
        Note::Quantify(quantifier, name, x, y, p) => {
            let x = quantity_term(at, names, x)?;
            let y = quantity_term(at, names, y)?;
            let k = inner_number(names)?;
            let inner = Names::Inner(name, k, names);
            let p = formula(at, &inner, p)?;
            quantification(at.arena, *quantifier, k, x, y, p)
        }
    }
}

/// The formula of a note over the states at the routine's entry and now.
pub fn note_term<'a>(
    arena: &'a Bump,
    n: &Note,
    entry: Sym<'a>,
    now: Sym<'a>,
) -> Result<&'a Term<'a>, Memory>
    requires note { IsWellFormed (note_of n.now) }
    requires entry { length entry.locs.now ≡ 12 }
    requires now { length now.locs.now ≡ 12 }
    requires words { NoteFits (length now.slots.now) (note_of n.now) }
    ensures { IfOk result (λ t. t.now ≡ formula_of (symbolic_of entry.entry) (symbolic_of now.entry) (note_of n.now)) }
{
    let at = Between {
        arena,
        first: terms_of(entry),
        present: terms_of(now),
    };
    formula(&at, &Names::Empty, n)
}
