//! Notes as formulas over the state at entry and one with two words on the stack.
ghost use Rattle.std.specs.Prelude.{◌≡◌, [], IsTrue, length};
ghost use Rattle.sp_logic.specs.View.{quantity_of, note_of};
ghost use Rattle.sp_logic.specs.WellFormed.{IsInLimits, NoteIsInLimits};
ghost use Rattle.sp_model.specs.Note.{HasBoundNames, BindsNames};
ghost use Rattle.sp_trans.specs.Formulas.{QuantityFits, NoteFits};

use crate::rows::{ENTRY, STARTED};
use crate::states::symbolic;
use bumpalo::Bump;
use sp_base::{Loc, Memory};
use sp_fdl::print;
use sp_logic::{Comparison, Connective, Moment, Note, Operator, Quantity, RegisterPair};
use sp_trans::note_term;
use std::alloc::Global;
use std::process::Abort;
use std::test::Fail;

/// Whether a quantity has no bound names, and what is asked of its numbers with so many words on the stack.
fn is_plain(x: &Quantity, words: usize) -> bool
    ensures names { IsTrue result → HasBoundNames [] (quantity_of x.now) }
    ensures limits { IsTrue result → IsInLimits (quantity_of x.now) }
    ensures words { IsTrue result → QuantityFits words (quantity_of x.now) }
{
    match x {
        Quantity::Literal(n) => *n < 0x8000_0000_0000_0000,
        Quantity::Location(_, _) | Quantity::Pair(_, _) => true,
        Quantity::Cell(_, x) | Quantity::Negative(x) | Quantity::Parity(x) => is_plain(x, words),
        Quantity::StackWord(k) => *k >= 1 && *k <= 32_767 && usize::from(*k) <= words,
        Quantity::Total(_, x, y) | Quantity::Operate(_, x, y) => {
            is_plain(x, words) && is_plain(y, words)
        }
        Quantity::Bound(_) => false,
    }
}

/// Whether a note has no quantifiers, and what is asked of its quantities.
fn is_plain_note(p: &Note, words: usize) -> bool
    ensures names { IsTrue result → BindsNames [] (note_of p.now) }
    ensures limits { IsTrue result → NoteIsInLimits (note_of p.now) }
    ensures words { IsTrue result → NoteFits words (note_of p.now) }
{
    match p {
        Note::Constant(_) => true,
        Note::Compare(_, x, y) => is_plain(x, words) && is_plain(y, words),
        Note::Not(p) => is_plain_note(p, words),
        Note::Connect(_, p, q) => is_plain_note(p, words) && is_plain_note(q, words),
        Note::Quantify(_, _, _, _, _) => false,
    }
}

/// Translates a note, and compares its text.
fn check(rt: &impl Abort, alloc: Global, note: &Note, text: &str) -> Result<(), Fail> {
    let arena = Bump::new(alloc);
    let Some(entry) = symbolic(alloc, &arena, &ENTRY) else {
        assert!(rt; false, "{text}");
        return Ok(());
    };
    let Some(now) = symbolic(alloc, &arena, &STARTED) else {
        assert!(rt; false, "{text}");
        return Ok(());
    };
    if !is_plain_note(note, now.slots.len()) {
        assert!(rt; false, "{text}");
        return Ok(());
    }
    let formula = note_term(&arena, note, entry, now)?;
    assert_eq!(rt; print(alloc, formula)?.as_slice(), text.as_bytes());
    Ok(())
}

fn cell(alloc: Global, moment: Moment, x: Quantity) -> Result<Quantity, Memory> {
    Ok(Quantity::Cell(moment, Box::new(alloc, x)?))
}

fn operate(alloc: Global, o: Operator, x: Quantity, y: Quantity) -> Result<Quantity, Memory> {
    Ok(Quantity::Operate(o, Box::new(alloc, x)?, Box::new(alloc, y)?))
}

#[test]
fn names_are_looked_up_at_their_moment(rt: HostRuntime) -> Result<(), Fail> {
    let alloc = rt.alloc();
    let left = cell(
        alloc,
        Moment::Now,
        Quantity::Pair(Moment::AtEntry, RegisterPair::De),
    )?;
    let right = cell(
        alloc,
        Moment::AtEntry,
        Quantity::Location(Moment::Now, Loc::Cy),
    )?;
    let note = Note::Compare(Comparison::Greater, left, right);
    check(
        &rt,
        alloc,
        &note,
        "(element(mem~,[cy]) < element(mem,[((256 * d~) + e~)]))",
    )
}

#[test]
fn words_go_from_the_base(rt: HostRuntime) -> Result<(), Fail> {
    let alloc = rt.alloc();
    let sum = operate(
        alloc,
        Operator::Add,
        Quantity::StackWord(2),
        Quantity::Literal(1),
    )?;
    let negative = Quantity::Negative(Box::new(alloc, Quantity::StackWord(1))?);
    let note = Note::Compare(Comparison::Unequal, sum, negative);
    let text = "(not ((((256 * stk2h) + stk2l) + 1) = (0 - ((256 * stk1h) + stk1l))))";
    check(&rt, alloc, &note, text)
}

#[test]
fn parts_keep_their_places(rt: HostRuntime) -> Result<(), Fail> {
    let alloc = rt.alloc();
    let low = Box::new(alloc, Quantity::Literal(1))?;
    let high = Box::new(alloc, Quantity::Pair(Moment::Now, RegisterPair::Bc))?;
    let total = Quantity::Total(Moment::AtEntry, low, high);
    let a = Quantity::Location(Moment::AtEntry, Loc::A);
    let bits = operate(alloc, Operator::BitXor, a, Quantity::Literal(255))?;
    let parity = Quantity::Parity(Box::new(alloc, bits)?);
    let compared = Box::new(
        alloc,
        Note::Compare(Comparison::GreaterOrEqual, total, parity),
    )?;
    let negated = Box::new(alloc, Note::Not(Box::new(alloc, Note::Constant(true))?))?;
    let note = Note::Connect(Connective::Implies, compared, negated);
    let text = "((par(bxor(a~,255)) <= total(mem~,[1],[((256 * b) + c)])) -> (not true))";
    check(&rt, alloc, &note, text)
}
