ghost use Rattle.std.specs.Prelude.{◌≡◌, ◌∷◌, IfOk, IfErr};
ghost use Rattle.sp_term.specs.Tree.{Tree};
ghost use Rattle.sp_term.specs.Terms.{tree_of};
ghost use Rattle.sp_fdl.specs.Text.{StandsFor};
ghost use Rattle.sp_fdl.specs.declared.refusal.FdlRefusal.TheVariants.{Syntax};
ghost use Rattle.sp_fdl.specs.code.Reading as reading;
ghost use Rattle.sp_fdl.specs.code.Reading.{Answers, AnswersTerm, seen, seen_operator, read_at, read_of, pairing, quantifying};

use crate::found::{Found, Place, closed, made, number_part};
use crate::names::{bit_number, bound_number, variable_of, variable_sort};
use crate::numbers::{literal, negative_literal};
use crate::operator::{Sign, after_operator, operated, part_sort, whole_sort};
use crate::refusal::FdlRefusal;
use crate::sort::{Sort, same_sort};
use crate::tokens::{after_blanks, after_dots, after_mark, split_run};
use crate::word::{Pairing, Word, word_of};
use bumpalo::Bump;
use sp_base::Memory;
use sp_term::{Kind, Term, Var};
use std::alloc::Global;

/// The depth that a term may have.
const DEPTH: u32 = 2_000;

/// A variable; a bound one stands in the formula of its quantifier.
#[tactic(auto, unfolding(crate::specs::code::Reading::variable_part))]
fn variable_part<'a, 't>(
    place: Place<'a, '_>,
    run: &[u8],
    rest: &'t [u8],
) -> Result<Found<'a, 't>, FdlRefusal>
    ensures { Answers result (reading.variable_part place.entry.scope.now run.now rest.now) }
{
    match variable_of(run) {
        Some(Var::Bound(k)) => {
            if place.scope.contains(&k) {
                made(place.arena, Kind::Variable(Var::Bound(k)), Sort::Int, rest)
            } else {
                Err(FdlRefusal::Syntax)
            }
        }
        Some(v) => made(place.arena, Kind::Variable(v), variable_sort(v), rest),
        None => Err(FdlRefusal::Syntax),
    }
}

/// A literal or a variable.
#[tactic(auto, unfolding(crate::specs::code::Reading::plain))]
fn plain<'a, 't>(
    place: Place<'a, '_>,
    run: &[u8],
    rest: &'t [u8],
) -> Result<Found<'a, 't>, FdlRefusal>
    ensures { Answers result (reading.plain place.entry.scope.now run.now rest.now) }
{
    match run {
        [] => Err(FdlRefusal::Syntax),
        [first, ..] => {
            if first.is_ascii_digit() {
                number_part(place.arena, literal(run), rest)
            } else {
                variable_part(place, run, rest)
            }
        }
    }
}

fn paired<'a>(which: Pairing, x: &'a Term<'a>, y: &'a Term<'a>) -> Kind<'a>
    ensures { tree_of result ≡ pairing which x.now y.now }
{
    match which {
        Pairing::And => Kind::ByteAnd(x, y),
        Pairing::Or => Kind::ByteOr(x, y),
        Pairing::Xor => Kind::ByteXor(x, y),
    }
}

fn quantified<'a>(all: bool, k: u32, x: &'a Term<'a>, y: &'a Term<'a>, p: &'a Term<'a>) -> Kind<'a>
    ensures { tree_of result ≡ quantifying all k x.now y.now p.now }
{
    if all {
        Kind::ForAll(k, x, y, p)
    } else {
        Kind::ForSome(k, x, y, p)
    }
}

/// The numbers of the quantifiers round the formula of one with this number.
fn inner_scope(alloc: Global, k: u32, scope: &[u32]) -> Result<Vec<u32>, Memory>
    ensures { IfOk result (λ inner. inner.items ≡ k ∷ scope.now) }
{
    let mut inner = Vec::new(alloc);
    inner.push(k)?;
    inner.extend_from_slice(scope)?;
    Ok(inner)
}

/// A term of this sort, which may stand after blanks.
#[tactic(auto, unfolding(crate::specs::code::Reading::part))]
#[cycle(reading)]
fn part<'a, 't>(
    place: Place<'a, '_>,
    sort: Sort,
    text: &'t [u8],
) -> Result<Found<'a, 't>, FdlRefusal>
    ensures { Answers result (reading.part (read_at place.entry.depth) place.entry.scope.now sort text.now) }
{
    let found = term(place, after_blanks(text))?;
    if same_sort(found.sort, sort) {
        Ok(found)
    } else {
        Err(FdlRefusal::Syntax)
    }
}

/// A term of this sort after a mark.
#[tactic(auto, unfolding(crate::specs::code::Reading::part_after))]
#[cycle(reading)]
fn part_after<'a, 't>(
    place: Place<'a, '_>,
    mark: u8,
    sort: Sort,
    text: &'t [u8],
) -> Result<Found<'a, 't>, FdlRefusal>
    ensures { Answers result (reading.part_after (read_at place.entry.depth) place.entry.scope.now mark sort text.now) }
{
    let text = after_mark(text, mark)?;
    part(place, sort, text)
}

/// A place of a memory: `[x]`.
#[tactic(auto, unfolding(crate::specs::code::Reading::cell))]
#[cycle(reading)]
fn cell<'a, 't>(place: Place<'a, '_>, text: &'t [u8]) -> Result<Found<'a, 't>, FdlRefusal>
    ensures { Answers result (reading.cell (read_at place.entry.depth) place.entry.scope.now text.now) }
{
    let found = part_after(place, b'[', Sort::Int, text)?;
    let rest = after_mark(found.rest, b']')?;
    Ok(Found {
        term: found.term,
        sort: found.sort,
        rest,
    })
}

/// A place of a memory after a comma.
#[tactic(auto, unfolding(crate::specs::code::Reading::cell_after))]
#[cycle(reading)]
fn cell_after<'a, 't>(place: Place<'a, '_>, text: &'t [u8]) -> Result<Found<'a, 't>, FdlRefusal>
    ensures { Answers result (reading.cell_after (read_at place.entry.depth) place.entry.scope.now text.now) }
{
    let text = after_mark(text, b',')?;
    cell(place, text)
}

/// What follows `(not`.
#[tactic(auto, unfolding(crate::specs::code::Reading::negation))]
#[cycle(reading)]
fn negation<'a, 't>(place: Place<'a, '_>, text: &'t [u8]) -> Result<Found<'a, 't>, FdlRefusal>
    ensures { Answers result (reading.negation (read_at place.entry.depth) place.entry.scope.now text.now) }
{
    let p = part(place, Sort::Formula, text)?;
    closed(place.arena, Kind::Not(p.term), Sort::Formula, p.rest)
}

/// What follows the left part and the operator.
#[tactic(auto, unfolding(crate::specs::code::Reading::second))]
#[cycle(reading)]
fn second<'a, 't>(
    place: Place<'a, '_>,
    x: Found<'a, 't>,
    found: Sign<'t>,
) -> Result<Found<'a, 't>, FdlRefusal>
    ensures { Answers result (reading.second (read_at place.entry.depth) place.entry.scope.now (seen x.entry) (seen_operator found.entry)) }
{
    let operator = found.operator;
    if same_sort(x.sort, part_sort(operator)) {
        let y = part(place, part_sort(operator), found.rest)?;
        closed(
            place.arena,
            operated(operator, x.term, y.term),
            whole_sort(operator),
            y.rest,
        )
    } else {
        Err(FdlRefusal::Syntax)
    }
}

/// Two parts with an operator between them, after the opening parenthesis.
#[tactic(auto, unfolding(crate::specs::code::Reading::joined))]
#[cycle(reading)]
fn joined<'a, 't>(place: Place<'a, '_>, text: &'t [u8]) -> Result<Found<'a, 't>, FdlRefusal>
    ensures { Answers result (reading.joined (read_at place.entry.depth) place.entry.scope.now text.now) }
{
    let x = term(place, text)?;
    let found = after_operator(x.rest)?;
    second(place, x, found)
}

/// What follows an opening parenthesis and blanks.
#[tactic(auto, unfolding(crate::specs::code::Reading::grouped))]
#[cycle(reading)]
fn grouped<'a, 't>(place: Place<'a, '_>, text: &'t [u8]) -> Result<Found<'a, 't>, FdlRefusal>
    ensures { Answers result (reading.grouped (read_at place.entry.depth) place.entry.scope.now text.now) }
{
    let (run, rest) = split_run(text);
    if run == b"not".as_slice() {
        negation(place, rest)
    } else {
        joined(place, text)
    }
}

/// `(x,y)` after `band`, `bor` or `bxor`.
#[tactic(auto, unfolding(crate::specs::code::Reading::pair))]
#[cycle(reading)]
fn pair<'a, 't>(
    place: Place<'a, '_>,
    which: Pairing,
    text: &'t [u8],
) -> Result<Found<'a, 't>, FdlRefusal>
    ensures { Answers result (reading.pair (read_at place.entry.depth) place.entry.scope.now which text.now) }
{
    let x = part_after(place, b'(', Sort::Int, text)?;
    let y = part_after(place, b',', Sort::Int, x.rest)?;
    closed(
        place.arena,
        paired(which, x.term, y.term),
        Sort::Int,
        y.rest,
    )
}

/// `(x)` after `par`.
#[tactic(auto, unfolding(crate::specs::code::Reading::parity))]
#[cycle(reading)]
fn parity<'a, 't>(place: Place<'a, '_>, text: &'t [u8]) -> Result<Found<'a, 't>, FdlRefusal>
    ensures { Answers result (reading.parity (read_at place.entry.depth) place.entry.scope.now text.now) }
{
    let x = part_after(place, b'(', Sort::Int, text)?;
    closed(place.arena, Kind::Parity(x.term), Sort::Int, x.rest)
}

/// `(k,x)` after `bit`.
#[tactic(auto, unfolding(crate::specs::code::Reading::bit))]
#[cycle(reading)]
fn bit<'a, 't>(place: Place<'a, '_>, text: &'t [u8]) -> Result<Found<'a, 't>, FdlRefusal>
    ensures { Answers result (reading.bit (read_at place.entry.depth) place.entry.scope.now text.now) }
{
    let text = after_mark(text, b'(')?;
    let (run, text) = split_run(after_blanks(text));
    let Some(k) = bit_number(run) else {
        return Err(FdlRefusal::Syntax);
    };
    let x = part_after(place, b',', Sort::Int, text)?;
    closed(place.arena, Kind::Bit(k, x.term), Sort::Int, x.rest)
}

/// `(s,z,ac,p,cy)` after `psw`.
#[tactic(auto, unfolding(crate::specs::code::Reading::flags))]
#[cycle(reading)]
fn flags<'a, 't>(place: Place<'a, '_>, text: &'t [u8]) -> Result<Found<'a, 't>, FdlRefusal>
    ensures { Answers result (reading.flags (read_at place.entry.depth) place.entry.scope.now text.now) }
{
    let s = part_after(place, b'(', Sort::Int, text)?;
    let z = part_after(place, b',', Sort::Int, s.rest)?;
    let ac = part_after(place, b',', Sort::Int, z.rest)?;
    let p = part_after(place, b',', Sort::Int, ac.rest)?;
    let cy = part_after(place, b',', Sort::Int, p.rest)?;
    let kind = Kind::Psw(s.term, z.term, ac.term, p.term, cy.term);
    closed(place.arena, kind, Sort::Int, cy.rest)
}

/// `(p,x,y)` after `if`.
#[tactic(auto, unfolding(crate::specs::code::Reading::choice))]
#[cycle(reading)]
fn choice<'a, 't>(place: Place<'a, '_>, text: &'t [u8]) -> Result<Found<'a, 't>, FdlRefusal>
    ensures { Answers result (reading.choice (read_at place.entry.depth) place.entry.scope.now text.now) }
{
    let p = part_after(place, b'(', Sort::Formula, text)?;
    let x = part_after(place, b',', Sort::Int, p.rest)?;
    let y = part_after(place, b',', Sort::Int, x.rest)?;
    closed(
        place.arena,
        Kind::If(p.term, x.term, y.term),
        Sort::Int,
        y.rest,
    )
}

/// `(m,[x])` after `element`.
#[tactic(auto, unfolding(crate::specs::code::Reading::element))]
#[cycle(reading)]
fn element<'a, 't>(place: Place<'a, '_>, text: &'t [u8]) -> Result<Found<'a, 't>, FdlRefusal>
    ensures { Answers result (reading.element (read_at place.entry.depth) place.entry.scope.now text.now) }
{
    let m = part_after(place, b'(', Sort::Memory, text)?;
    let x = cell_after(place, m.rest)?;
    closed(
        place.arena,
        Kind::Element(m.term, x.term),
        Sort::Int,
        x.rest,
    )
}

/// `(m,[x],y)` after `update`.
#[tactic(auto, unfolding(crate::specs::code::Reading::update))]
#[cycle(reading)]
fn update<'a, 't>(place: Place<'a, '_>, text: &'t [u8]) -> Result<Found<'a, 't>, FdlRefusal>
    ensures { Answers result (reading.update (read_at place.entry.depth) place.entry.scope.now text.now) }
{
    let m = part_after(place, b'(', Sort::Memory, text)?;
    let x = cell_after(place, m.rest)?;
    let y = part_after(place, b',', Sort::Int, x.rest)?;
    closed(
        place.arena,
        Kind::Update(m.term, x.term, y.term),
        Sort::Memory,
        y.rest,
    )
}

/// `(m,[x],[y])` after `total`.
#[tactic(auto, unfolding(crate::specs::code::Reading::total))]
#[cycle(reading)]
fn total<'a, 't>(place: Place<'a, '_>, text: &'t [u8]) -> Result<Found<'a, 't>, FdlRefusal>
    ensures { Answers result (reading.total (read_at place.entry.depth) place.entry.scope.now text.now) }
{
    let m = part_after(place, b'(', Sort::Memory, text)?;
    let x = cell_after(place, m.rest)?;
    let y = cell_after(place, x.rest)?;
    closed(
        place.arena,
        Kind::Total(m.term, x.term, y.term),
        Sort::Int,
        y.rest,
    )
}

/// `: x..y, p)` after the variable of a quantifier.
#[tactic(auto, unfolding(crate::specs::code::Reading::bound))]
#[cycle(reading)]
fn bound<'a, 't>(
    place: Place<'a, '_>,
    all: bool,
    k: u32,
    text: &'t [u8],
) -> Result<Found<'a, 't>, FdlRefusal>
    ensures { Answers result (reading.bound (read_at place.entry.depth) place.entry.scope.now all k text.now) }
{
    let x = part_after(place, b':', Sort::Int, text)?;
    let text = after_dots(x.rest)?;
    let y = part(place, Sort::Int, text)?;
    let scope = inner_scope(place.alloc, k, place.scope)?;
    let inside = Place {
        scope: &scope,
        ..place
    };
    let p = part_after(inside, b',', Sort::Formula, y.rest)?;
    let kind = quantified(all, k, x.term, y.term, p.term);
    closed(place.arena, kind, Sort::Formula, p.rest)
}

/// `(i1: x..y, p)` after `for_all` or `for_some`.
#[tactic(auto, unfolding(crate::specs::code::Reading::quantifier))]
#[cycle(reading)]
fn quantifier<'a, 't>(
    place: Place<'a, '_>,
    all: bool,
    text: &'t [u8],
) -> Result<Found<'a, 't>, FdlRefusal>
    ensures { Answers result (reading.quantifier (read_at place.entry.depth) place.entry.scope.now all text.now) }
{
    let text = after_mark(text, b'(')?;
    let (run, text) = split_run(after_blanks(text));
    let Some(k) = bound_number(run) else {
        return Err(FdlRefusal::Syntax);
    };
    bound(place, all, k, text)
}

/// A term that begins with a run.
#[tactic(auto, unfolding(crate::specs::code::Reading::named))]
#[cycle(reading)]
fn named<'a, 't>(
    place: Place<'a, '_>,
    run: &[u8],
    rest: &'t [u8],
) -> Result<Found<'a, 't>, FdlRefusal>
    ensures { Answers result (reading.named (read_at place.entry.depth) place.entry.scope.now run.now rest.now) }
{
    match word_of(run) {
        None => plain(place, run, rest),
        Some(Word::True) => made(place.arena, Kind::Truth(true), Sort::Formula, rest),
        Some(Word::False) => made(place.arena, Kind::Truth(false), Sort::Formula, rest),
        Some(Word::And) => pair(place, Pairing::And, rest),
        Some(Word::Or) => pair(place, Pairing::Or, rest),
        Some(Word::Xor) => pair(place, Pairing::Xor, rest),
        Some(Word::Parity) => parity(place, rest),
        Some(Word::Bit) => bit(place, rest),
        Some(Word::Flags) => flags(place, rest),
        Some(Word::If) => choice(place, rest),
        Some(Word::Element) => element(place, rest),
        Some(Word::Update) => update(place, rest),
        Some(Word::Total) => total(place, rest),
        Some(Word::ForAll) => quantifier(place, true, rest),
        Some(Word::ForSome) => quantifier(place, false, rest),
    }
}

/// A term by its first byte, with parts of the place's depth.
#[tactic(auto, unfolding(crate::specs::code::Reading::form))]
#[cycle(reading)]
fn form<'a, 't>(place: Place<'a, '_>, text: &'t [u8]) -> Result<Found<'a, 't>, FdlRefusal>
    ensures { Answers result (reading.form (read_at place.entry.depth) place.entry.scope.now text.now) }
{
    let [first, rest @ ..] = text else {
        return Err(FdlRefusal::Syntax);
    };
    let first = *first;
    if first == b'(' {
        grouped(place, after_blanks(rest))
    } else if first == b'-' {
        let (run, rest) = split_run(rest);
        number_part(place.arena, negative_literal(run), rest)
    } else {
        let (run, rest) = split_run(text);
        named(place, run, rest)
    }
}

/// A term that a text begins with.
#[tactic(auto, using(crate::proofs::StepLemmas::read_at_step, crate::proofs::StepLemmas::read_at_zero))]
#[cycle(reading)]
fn term<'a, 't>(place: Place<'a, '_>, text: &'t [u8]) -> Result<Found<'a, 't>, FdlRefusal>
    ensures { Answers result (read_at place.entry.depth place.entry.scope.now text.now) }
{
    if place.depth == 0 {
        return Err(FdlRefusal::Syntax);
    }
    let inside = Place {
        depth: place.depth - 1,
        ..place
    };
    form(inside, text)
}

/// The term that the reader takes from a whole text.
#[tactic(auto, unfolding(crate::specs::code::Reading::read_of))]
fn read_whole<'a>(alloc: Global, text: &[u8], arena: &'a Bump) -> Result<&'a Term<'a>, FdlRefusal>
    ensures { AnswersTerm result (read_of text.now) }
{
    let place = Place {
        alloc,
        arena,
        depth: DEPTH,
        scope: &[],
    };
    let found = term(place, text)?;
    match found.rest {
        [] => Ok(found.term),
        [_, ..] => Err(FdlRefusal::Syntax),
    }
}

/// The term that a text stands for, as `( a~+ 1)` for `(a~ + 1)`. No blanks stand at the two ends of a text. It is refused
/// with Syntax exactly where it stands for no term.
#[tactic(auto, using(crate::proofs::StandsLemmas::read_stands, crate::proofs::StandsLemmas::none_stands))]
pub fn read<'a>(alloc: Global, text: &[u8], arena: &'a Bump) -> Result<&'a Term<'a>, FdlRefusal>
    ensures ok { IfOk result (λ t. StandsFor text.now t.now) }
    ensures syntax { IfErr result (λ e. e ≡ Syntax → (t : Tree) → ¬ StandsFor text.now t) }
{
    read_whole(alloc, text, arena)
}
