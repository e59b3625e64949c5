//! One annotation line.
ghost use Rattle.std.specs.Prelude.{◌≡◌, List, Some, None, Result, MatchOption, IfSome};
ghost use Rattle.sp_lex.specs.Readers.{AreIn, items_of, name_at};
ghost use Rattle.sp_expr.specs.declared.word.Word as expr;
ghost use Rattle.sp_note.specs.RawNotes.{raw_of};
ghost use Rattle.sp_note.specs.Parts as parts;
ghost use Rattle.sp_note.specs.Parts.{part_of};
ghost use Rattle.sp_note.specs.Words.{own_name_at};
ghost use Rattle.sp_note.specs.code.Answers.{Answers};
ghost use Rattle.sp_note.specs.code.Lines.{judged, condition_of, expression_of, first_kind, both_read, two, area_by, bytes_by, name_of, routine_of, alone, part_after, part_at};
ghost use Rattle.sp_note.specs.code.Parser.{seen};
ghost use Rattle.sp_note.specs.code.Pairs.{pair_of, first_refusal};

use crate::keyword::{Keyword, keyword_named};
use crate::lists::{expression, list_of, ports_of};
use crate::operand::{Operand, is_truth};
use crate::parser::Condition;
use crate::part::Part;
use crate::refusal::{LineRefusal, NoteKind};
use crate::tokens::{own_name_at, words_of};
use sp_base::Name;
use sp_expr::Expr;
use sp_lex::{Token, is_symbol, item_len, name_at};
use sp_logic::RawNote;
use std::alloc::Global;

/// How many constructs may be nested.
const NESTING: usize = 64;

/// The condition that an operand is, where it is a truth value whose parts are right.
fn judged(condition: Condition) -> Result<RawNote, LineRefusal>
    ensures { Answers raw_of result (judged (seen condition)) }
{
    let Condition { operand, depth } = condition;
    let Operand { tree, sort, bound } = operand;
    if depth > NESTING {
        return Err(LineRefusal::Kind(NoteKind::TooDeep));
    }
    if !is_truth(sort) {
        return Err(LineRefusal::Kind(NoteKind::Sort));
    }
    match bound {
        Some(_) => Ok(tree),
        None => Err(LineRefusal::Kind(NoteKind::Wide)),
    }
}

/// The condition that tokens stand for.
#[tactic(auto, unfolding(crate::specs::code::Lines::condition_of))]
fn condition(alloc: Global, source: &[u8], tokens: &[Token]) -> Result<RawNote, LineRefusal>
    requires { AreIn source.now tokens.now }
    ensures { Answers raw_of result (condition_of source.now tokens.now) }
{
    let words = words_of(alloc, source, tokens)?;
    let condition = Condition::parse(alloc, words.as_slice())?;
    judged(condition)
}

/// A name with what stands after its comma.
#[derive(Clone, Copy)]
struct Named<'a> {
    name: Name,
    rest: &'a [Token],
}

/// A name, a comma and what stands after it.
#[tactic(auto, unfolding(crate::specs::code::Lines::name_of))]
fn name_of<'a>(source: &[u8], tokens: &'a [Token]) -> Option<Named<'a>>
    requires { AreIn source.now tokens.now }
    ensures value { MatchOption result (name_of source.now tokens.now ≡ None) (λ r. name_of source.now tokens.now ≡ Some (r.name, r.rest.now)) }
    ensures within { IfSome result (λ r. AreIn source.now r.rest.now) }
{
    let [first, comma, rest @ ..] = tokens else {
        return None;
    };
    if !is_symbol(source, *comma, b",") {
        return None;
    }
    match own_name_at(source, *first) {
        Some(name) => Some(Named { name, rest }),
        None => None,
    }
}

/// Of the refusals of two expressions the one that counts: Syntax, whichever it is.
fn first_refusal(one: LineRefusal, other: LineRefusal) -> LineRefusal
    ensures { result ≡ first_refusal one other }
{
    match other {
        LineRefusal::Kind(NoteKind::Syntax) => LineRefusal::Kind(NoteKind::Syntax),
        LineRefusal::Kind(_) => one,
        LineRefusal::Memory => LineRefusal::Memory,
    }
}

/// Two expressions.
#[derive(Drop)]
struct Pair {
    first: Expr,
    second: Expr,
}

fn paired(
    first: Result<Expr, LineRefusal>,
    second: Result<Expr, LineRefusal>,
) -> Result<Pair, LineRefusal>
    ensures { (one other : Result (List expr.Word) NoteKind) → Answers (λ (ws : List expr.Word). ws) first one
        → Answers (λ (ws : List expr.Word). ws) second other → Answers pair_of result (both_read (λ x y. (x, y)) one other) }
{
    match (first, second) {
        (Ok(first), Ok(second)) => Ok(Pair { first, second }),
        (Err(one), Err(other)) => Err(first_refusal(one, other)),
        (Err(refusal), Ok(_)) => Err(refusal),
        (Ok(_), Err(refusal)) => Err(refusal),
    }
}

/// Two expressions with a comma between them.
fn two(alloc: Global, source: &[u8], tokens: &[Token]) -> Result<Pair, LineRefusal>
    requires { AreIn source.now tokens.now }
    ensures { Answers pair_of result (two (λ x y. (x, y)) source.now tokens.now) }
{
    let (one, after) = tokens.split_at(item_len(source, tokens));
    let [_, rest @ ..] = after else {
        return Err(LineRefusal::Kind(NoteKind::Syntax));
    };
    let (other, more) = rest.split_at(item_len(source, rest));
    if !more.is_empty() {
        return Err(LineRefusal::Kind(NoteKind::Syntax));
    }
    let one = expression(alloc, source, one);
    let other = expression(alloc, source, other);
    paired(one, other)
}

fn stack(alloc: Global, source: &[u8], tokens: &[Token]) -> Result<Part, LineRefusal>
    requires { AreIn source.now tokens.now }
    ensures { Answers part_of result (two (λ first last. parts.Stack first last) source.now tokens.now) }
{
    let Pair { first, second } = two(alloc, source, tokens)?;
    Ok(Part::Stack(first, second))
}

fn byte(alloc: Global, source: &[u8], tokens: &[Token]) -> Result<Part, LineRefusal>
    requires { AreIn source.now tokens.now }
    ensures { Answers part_of result (area_by (λ name addr. parts.Byte name addr) source.now (name_of source.now tokens.now)) }
{
    let Some(named) = name_of(source, tokens) else {
        return Err(LineRefusal::Kind(NoteKind::Syntax));
    };
    let address = expression(alloc, source, named.rest)?;
    Ok(Part::Byte(named.name, address))
}

fn word(alloc: Global, source: &[u8], tokens: &[Token]) -> Result<Part, LineRefusal>
    requires { AreIn source.now tokens.now }
    ensures { Answers part_of result (area_by (λ name addr. parts.Word name addr) source.now (name_of source.now tokens.now)) }
{
    let Some(named) = name_of(source, tokens) else {
        return Err(LineRefusal::Kind(NoteKind::Syntax));
    };
    let address = expression(alloc, source, named.rest)?;
    Ok(Part::Word(named.name, address))
}

fn bytes(alloc: Global, source: &[u8], tokens: &[Token]) -> Result<Part, LineRefusal>
    requires { AreIn source.now tokens.now }
    ensures { Answers part_of result (bytes_by source.now (name_of source.now tokens.now)) }
{
    let Some(named) = name_of(source, tokens) else {
        return Err(LineRefusal::Kind(NoteKind::Syntax));
    };
    let Pair { first, second } = two(alloc, source, named.rest)?;
    Ok(Part::Bytes(named.name, first, second))
}

fn routine(source: &[u8], tokens: &[Token]) -> Result<Part, LineRefusal>
    requires { AreIn source.now tokens.now }
    ensures { Answers part_of result (routine_of source.now tokens.now) }
{
    let [token] = tokens else {
        return Err(LineRefusal::Kind(NoteKind::Syntax));
    };
    match own_name_at(source, *token) {
        Some(name) => Ok(Part::Routine(name)),
        None => Err(LineRefusal::Kind(NoteKind::Syntax)),
    }
}

/// `start` or `end`, after which nothing stands.
fn alone(part: Part, tokens: &[Token]) -> Result<Part, LineRefusal>
    ensures { Answers part_of result (alone (part_of part) tokens.now) }
{
    match tokens {
        [] => Ok(part),
        [_, ..] => Err(LineRefusal::Kind(NoteKind::Syntax)),
    }
}

/// The part of a line with this keyword and these tokens after it.
#[tactic(auto, unfolding(crate::specs::code::Lines::part_after))]
fn part_after(
    alloc: Global,
    keyword: Keyword,
    source: &[u8],
    tokens: &[Token],
) -> Result<Part, LineRefusal>
    requires { AreIn source.now tokens.now }
    ensures { Answers part_of result (part_after keyword source.now tokens.now) }
{
    match keyword {
        Keyword::Stack => stack(alloc, source, tokens),
        Keyword::Byte => byte(alloc, source, tokens),
        Keyword::Word => word(alloc, source, tokens),
        Keyword::Bytes => bytes(alloc, source, tokens),
        Keyword::Routine => routine(source, tokens),
        Keyword::Start => alone(Part::Start, tokens),
        Keyword::Pre => Ok(Part::Pre(condition(alloc, source, tokens)?)),
        Keyword::Post => Ok(Part::Post(condition(alloc, source, tokens)?)),
        Keyword::Reads => Ok(Part::Reads(list_of(alloc, source, tokens)?)),
        Keyword::Changes => Ok(Part::Changes(list_of(alloc, source, tokens)?)),
        Keyword::Ins => Ok(Part::Ins(ports_of(alloc, source, tokens)?)),
        Keyword::Outs => Ok(Part::Outs(ports_of(alloc, source, tokens)?)),
        Keyword::Depth => Ok(Part::Depth(expression(alloc, source, tokens)?)),
        Keyword::Assert => Ok(Part::Assert(condition(alloc, source, tokens)?)),
        Keyword::End => alone(Part::End, tokens),
    }
}

/// The part that an annotation line with these tokens says.
#[tactic(auto, unfolding(crate::specs::code::Lines::part_at))]
pub(crate) fn part_at(alloc: Global, source: &[u8], tokens: &[Token]) -> Result<Part, LineRefusal>
    requires { AreIn source.now tokens.now }
    ensures { Answers part_of result (part_at source.now tokens.now) }
{
    let [first, rest @ ..] = tokens else {
        return Err(LineRefusal::Kind(NoteKind::Syntax));
    };
    let Some(name) = name_at(source, *first) else {
        return Err(LineRefusal::Kind(NoteKind::Syntax));
    };
    match keyword_named(name.as_slice()) {
        Some(keyword) => part_after(alloc, keyword, source, rest),
        None => Err(LineRefusal::Kind(NoteKind::Syntax)),
    }
}
