ghost use Rattle.std.specs.Prelude.{◌≡◌, ◌++◌, IfOk, OnOk, decimal};
ghost use Rattle.sp_logic.specs.View.{moment_of, quantity_of, note_of};
ghost use Rattle.sp_logic.specs.Text.{moment_mark, quantity_text, note_text};

use crate::note::{Moment, Note, Quantity};
use crate::words::{
    comparison_sign, connective_word, location_name, middle, moment_mark, opening, pair_name,
    quantifier_words,
};
use sp_base::Memory;
use std::alloc::Global;

/// Adds a number in decimal digits.
fn push_decimal(text: &mut Vec<u8>, n: u64) -> Result<(), Memory>
    ensures { OnOk result (text.new.items ≡ text.old.items ++ decimal n) }
{
    let mut buffer = itoa::Buffer::new();
    text.extend_from_slice(buffer.format(n).as_bytes())?;
    Ok(())
}

/// Adds a name that is looked up at a moment.
fn push_marked(text: &mut Vec<u8>, name: &str, moment: Moment) -> Result<(), Memory>
    ensures { OnOk result (text.new.items ≡ text.old.items ++ (name.now ++ moment_mark (moment_of moment))) }
{
    text.extend_from_slice(name.as_bytes())?;
    text.extend_from_slice(moment_mark(moment).as_bytes())?;
    Ok(())
}

/// Adds a quantity between two texts.
#[cycle(quantities)]
fn push_part(text: &mut Vec<u8>, front: &str, part: &Quantity, back: &str) -> Result<(), Memory>
    ensures { OnOk result (text.new.items
        ≡ text.old.items ++ (front.now ++ quantity_text (quantity_of part.now) ++ back.now)) }
{
    text.extend_from_slice(front.as_bytes())?;
    push_quantity(text, part)?;
    text.extend_from_slice(back.as_bytes())?;
    Ok(())
}

/// Adds a quantity.
#[cycle(quantities)]
fn push_quantity(text: &mut Vec<u8>, quantity: &Quantity) -> Result<(), Memory>
    ensures { OnOk result (text.new.items ≡ text.old.items ++ quantity_text (quantity_of quantity.now)) }
{
    match quantity {
        Quantity::Literal(n) => push_decimal(text, *n)?,
        Quantity::Location(moment, location) => {
            push_marked(text, location_name(*location), *moment)?;
        }
        Quantity::Pair(moment, pair) => push_marked(text, pair_name(*pair), *moment)?,
        Quantity::Cell(moment, address) => {
            push_marked(text, "mem", *moment)?;
            push_part(text, "[", address, "]")?;
        }
        Quantity::StackWord(k) => {
            text.extend_from_slice(b"STK")?;
            push_decimal(text, u64::from(*k))?;
        }
        Quantity::Total(moment, first, last) => {
            push_marked(text, "total", *moment)?;
            push_part(text, "(", first, ", ")?;
            push_part(text, "", last, ")")?;
        }
        Quantity::Negative(part) => push_part(text, "(-", part, ")")?,
        Quantity::Parity(part) => push_part(text, "par(", part, ")")?,
        Quantity::Operate(operator, first, second) => {
            push_part(text, opening(*operator), first, middle(*operator))?;
            push_part(text, "", second, ")")?;
        }
        Quantity::Bound(name) => text.extend_from_slice(name.as_slice())?,
    }
    Ok(())
}

/// Adds a note.
fn push_note(text: &mut Vec<u8>, note: &Note) -> Result<(), Memory>
    ensures { OnOk result (text.new.items ≡ text.old.items ++ note_text (note_of note.now)) }
{
    match note {
        Note::Constant(true) => text.extend_from_slice(b"true")?,
        Note::Constant(false) => text.extend_from_slice(b"false")?,
        Note::Compare(comparison, left, right) => {
            push_part(text, "(", left, comparison_sign(*comparison))?;
            push_part(text, "", right, ")")?;
        }
        Note::Not(part) => {
            text.extend_from_slice(b"(not ")?;
            push_note(text, part)?;
            text.extend_from_slice(b")")?;
        }
        Note::Connect(connective, left, right) => {
            text.extend_from_slice(b"(")?;
            push_note(text, left)?;
            text.extend_from_slice(connective_word(*connective).as_bytes())?;
            push_note(text, right)?;
            text.extend_from_slice(b")")?;
        }
        Note::Quantify(quantifier, name, first, last, part) => {
            text.extend_from_slice(b"(")?;
            text.extend_from_slice(quantifier_words(*quantifier).as_bytes())?;
            text.extend_from_slice(name.as_slice())?;
            text.extend_from_slice(b" in ")?;
            push_quantity(text, first)?;
            text.extend_from_slice(b"..")?;
            push_quantity(text, last)?;
            text.extend_from_slice(b": ")?;
            push_note(text, part)?;
            text.extend_from_slice(b")")?;
        }
    }
    Ok(())
}

/// The text of a note, with full parentheses: `(A = 5)`, `(not (B < (C + 1)))`, `(for all I in 0..3: (mem[I] = 0))`.
pub fn print(alloc: Global, n: &Note) -> Result<Vec<u8>, Memory>
    ensures { IfOk result (λ text. text.items ≡ note_text (note_of n.now)) }
{
    let mut text = Vec::new(alloc);
    push_note(&mut text, n)?;
    Ok(text)
}
