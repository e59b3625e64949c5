ghost use Rattle.std.specs.Prelude.{◌≤◌, FitsSigned, ◌≡◌, ◌++◌, IfOk, OnOk, codes, decimal};
ghost use Rattle.std.specs.Fmt.{signed_decimal};
ghost use Rattle.std.specs.Int.{w64};
ghost use Rattle.sp_term.specs.Tree.{Bit, Psw, Truth, depth_of};
ghost use Rattle.sp_term.specs.Sorts.{IsTerm};
ghost use Rattle.sp_term.specs.Free.{IsClosed};
ghost use Rattle.sp_fdl.specs.Text.{HasNameNumber, HasNumbers, StandsFor};
ghost use Rattle.sp_term.specs.Terms.{tree_of};
ghost use Rattle.sp_fdl.specs.Printed.{variable_text, text_of};

use crate::names::location_name;
use sp_base::{Loc, Memory};
use sp_term::{Kind, Term, Var};
use std::alloc::Global;

/// Adds the number of a variable between two texts.
fn push_numbered(text: &mut Vec<u8>, front: &str, number: u32, back: &str) -> Result<(), Memory>
    ensures { OnOk result (text.new.items ≡ text.old.items ++ (front.now ++ decimal number ++ back.now)) }
{
    let mut buffer = itoa::Buffer::new();
    text.extend_from_slice(front.as_bytes())?;
    text.extend_from_slice(buffer.format(number).as_bytes())?;
    text.extend_from_slice(back.as_bytes())?;
    Ok(())
}

/// Adds a variable.
fn push_variable(text: &mut Vec<u8>, variable: Var) -> Result<(), Memory>
    ensures text { OnOk result (text.new.items ≡ text.old.items ++ variable_text variable) }
    ensures numbers { OnOk result (HasNameNumber variable) }
{
    match variable {
        Var::Entry(x) => {
            text.extend_from_slice(location_name(x).as_bytes())?;
            text.extend_from_slice(b"~")?;
        }
        Var::Now(x) => text.extend_from_slice(location_name(x).as_bytes())?,
        Var::After(x, j) => {
            text.extend_from_slice(location_name(x).as_bytes())?;
            push_numbered(text, "_", j, "")?;
        }
        Var::MemEntry => text.extend_from_slice(b"mem~")?,
        Var::Mem => text.extend_from_slice(b"mem")?,
        Var::MemAfter(j) => push_numbered(text, "mem_", j, "")?,
        Var::In(j) => push_numbered(text, "in_", j, "")?,
        Var::SlotHigh(j) => push_numbered(text, "stk", j, "h")?,
        Var::SlotLow(j) => push_numbered(text, "stk", j, "l")?,
        Var::Any(j) => push_numbered(text, "k_", j, "")?,
        Var::Bound(j) => push_numbered(text, "i", j, "")?,
    }
    Ok(())
}

/// Adds `true` or `false`.
fn push_truth(text: &mut Vec<u8>, b: bool) -> Result<(), Memory>
    ensures { OnOk result (text.new.items ≡ text.old.items ++ text_of (Truth b)) }
{
    let word = if b { "true" } else { "false" };
    text.extend_from_slice(word.as_bytes())?;
    Ok(())
}

/// Adds a literal.
fn push_literal(text: &mut Vec<u8>, n: i64) -> Result<(), Memory>
    ensures text { OnOk result (text.new.items ≡ text.old.items ++ signed_decimal n) }
    ensures numbers { OnOk result (FitsSigned w64 n) }
{
    let mut buffer = itoa::Buffer::new();
    text.extend_from_slice(buffer.format(n).as_bytes())?;
    Ok(())
}

/// Adds a term between two texts.
#[cycle(printing)]
fn push_part(text: &mut Vec<u8>, front: &str, part: &Term, back: &str) -> Result<(), Memory>
    ensures text { OnOk result (text.new.items ≡ text.old.items ++ (front.now ++ text_of part.now ++ back.now)) }
    ensures numbers { OnOk result (HasNumbers part.now) }
{
    text.extend_from_slice(front.as_bytes())?;
    push_kind(text, part.kind())?;
    text.extend_from_slice(back.as_bytes())?;
    Ok(())
}

/// Adds two terms with texts before, between and after them.
#[cycle(printing)]
fn push_two(
    text: &mut Vec<u8>,
    front: &str,
    x: &Term,
    middle: &str,
    y: &Term,
    back: &str,
) -> Result<(), Memory>
    ensures text { OnOk result (text.new.items
        ≡ text.old.items ++ (front.now ++ text_of x.now ++ middle.now ++ text_of y.now ++ back.now)) }
    ensures numbers { OnOk result (HasNumbers x.now × HasNumbers y.now) }
{
    push_part(text, front, x, middle)?;
    push_part(text, "", y, back)?;
    Ok(())
}

/// Adds two terms in parentheses, with a sign or a word between them.
#[cycle(printing)]
fn push_infix(text: &mut Vec<u8>, x: &Term, sign: &str, y: &Term) -> Result<(), Memory>
    ensures text { OnOk result (text.new.items
        ≡ text.old.items ++ (codes "(" ++ text_of x.now ++ sign.now ++ text_of y.now ++ codes ")")) }
    ensures numbers { OnOk result (HasNumbers x.now × HasNumbers y.now) }
{
    push_two(text, "(", x, sign, y, ")")
}

/// Adds flags as a byte.
#[cycle(printing)]
fn push_flags(
    text: &mut Vec<u8>,
    s: &Term,
    z: &Term,
    ac: &Term,
    p: &Term,
    cy: &Term,
) -> Result<(), Memory>
    ensures text { OnOk result (text.new.items ≡ text.old.items ++ text_of (Psw s.now z.now ac.now p.now cy.now)) }
    ensures numbers { OnOk result (HasNumbers (Psw s.now z.now ac.now p.now cy.now)) }
{
    push_two(text, "psw(", s, ",", z, ",")?;
    push_two(text, "", ac, ",", p, ",")?;
    push_part(text, "", cy, ")")?;
    Ok(())
}

/// Adds a bit of a term.
#[cycle(printing)]
fn push_bit(text: &mut Vec<u8>, k: u8, x: &Term) -> Result<(), Memory>
    ensures text { OnOk result (text.new.items ≡ text.old.items ++ text_of (Bit k x.now)) }
    ensures numbers { OnOk result (HasNumbers (Bit k x.now)) }
{
    push_numbered(text, "bit(", u32::from(k), ",")?;
    push_part(text, "", x, ")")?;
    Ok(())
}

/// Adds a quantifier with the number of its variable.
#[cycle(printing)]
fn push_quantifier(
    text: &mut Vec<u8>,
    front: &str,
    k: u32,
    first: &Term,
    last: &Term,
    part: &Term,
) -> Result<(), Memory>
    ensures text { OnOk result (text.new.items ≡ text.old.items ++ (front.now ++ decimal k ++ codes ": " ++ text_of first.now
        ++ codes ".." ++ text_of last.now ++ codes ", " ++ text_of part.now ++ codes ")")) }
    ensures numbers { OnOk result ((k ≤ 4294967295) × HasNumbers first.now × HasNumbers last.now × HasNumbers part.now) }
{
    push_numbered(text, front, k, ": ")?;
    push_two(text, "", first, "..", last, ", ")?;
    push_part(text, "", part, ")")?;
    Ok(())
}

/// Adds a node with its parts.
#[cycle(printing)]
fn push_kind(text: &mut Vec<u8>, kind: &Kind) -> Result<(), Memory>
    ensures text { OnOk result (text.new.items ≡ text.old.items ++ text_of (tree_of kind.now)) }
    ensures numbers { OnOk result (HasNumbers (tree_of kind.now)) }
{
    match kind {
        Kind::Literal(n) => push_literal(text, *n),
        Kind::Truth(b) => push_truth(text, *b),
        Kind::Variable(v) => push_variable(text, *v),
        Kind::Add(x, y) => push_infix(text, x, " + ", y),
        Kind::Subtract(x, y) => push_infix(text, x, " - ", y),
        Kind::Multiply(x, y) => push_infix(text, x, " * ", y),
        Kind::Divide(x, y) => push_infix(text, x, " div ", y),
        Kind::Remainder(x, y) => push_infix(text, x, " mod ", y),
        Kind::ByteAnd(x, y) => push_two(text, "band(", x, ",", y, ")"),
        Kind::ByteOr(x, y) => push_two(text, "bor(", x, ",", y, ")"),
        Kind::ByteXor(x, y) => push_two(text, "bxor(", x, ",", y, ")"),
        Kind::Parity(x) => push_part(text, "par(", x, ")"),
        Kind::Bit(k, x) => push_bit(text, *k, x),
        Kind::Psw(s, z, ac, p, cy) => push_flags(text, s, z, ac, p, cy),
        Kind::If(p, x, y) => {
            push_two(text, "if(", p, ",", x, ",")?;
            push_part(text, "", y, ")")
        }
        Kind::Element(m, x) => push_two(text, "element(", m, ",[", x, "])"),
        Kind::Update(m, x, y) => {
            push_two(text, "update(", m, ",[", x, "],")?;
            push_part(text, "", y, ")")
        }
        Kind::Total(m, x, y) => {
            push_two(text, "total(", m, ",[", x, "],[")?;
            push_part(text, "", y, "])")
        }
        Kind::Equal(x, y) => push_infix(text, x, " = ", y),
        Kind::Less(x, y) => push_infix(text, x, " < ", y),
        Kind::LessOrEqual(x, y) => push_infix(text, x, " <= ", y),
        Kind::Not(p) => push_part(text, "(not ", p, ")"),
        Kind::And(p, q) => push_infix(text, p, " and ", q),
        Kind::Or(p, q) => push_infix(text, p, " or ", q),
        Kind::Implies(p, q) => push_infix(text, p, " -> ", q),
        Kind::Iff(p, q) => push_infix(text, p, " <-> ", q),
        Kind::ForAll(k, x, y, p) => push_quantifier(text, "for_all(i", *k, x, y, p),
        Kind::ForSome(k, x, y, p) => push_quantifier(text, "for_some(i", *k, x, y, p),
    }
}

/// The text of a term, as `(a~ + 1)`, `element(mem,[c])`, `for_all(i1: 0..3, (i1 = a))`. Each term has one, and it stands
/// for the term if that is closed and of depth 2,000 at most.
#[tactic(auto, using(crate::proofs::PrintedLemmas::print_stands))]
pub fn print(alloc: Global, t: &Term) -> Result<Vec<u8>, Memory>
    ensures text { IfOk result (λ text. text.items ≡ text_of t.now) }
    ensures readable { IfOk result (λ text. IsTerm t.now → IsClosed t.now → depth_of t.now ≤ 2000 → StandsFor text.items t.now) }
{
    let mut text = Vec::new(alloc);
    push_kind(&mut text, t.kind())?;
    Ok(text)
}
