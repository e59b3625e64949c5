//! The lists of `reads`, `changes`, `ins` and `outs`.
ghost use Rattle.std.specs.Prelude.{◌≡◌, Ok, List, []};
ghost use Rattle.sp_lex.specs.Readers.{AreIn, items_of};
ghost use Rattle.sp_expr.specs.declared.word.Word.{Word};
ghost use Rattle.sp_note.specs.declared.part.Listed.{Listed};
ghost use Rattle.sp_note.specs.code.Answers.{Answers, AnswersSome, IsOfExpressions};
ghost use Rattle.sp_note.specs.code.Lines.{flags, locations_of, locations_named, or_area, listed_named, listed_at, list_read, expression_of, with_port, ports_read};

use crate::part::{Items, Listed, Ports};
use crate::refusal::{LineRefusal, NoteKind};
use crate::tokens::own_name;
use sp_base::{Loc, Locs, Name};
use sp_expr::{Expr, Setting, parse_in};
use sp_lex::{Token, item_len, name_at};
use sp_words::{AnnotationWord, annotation_word_named};
use std::alloc::Global;

/// The five flags.
fn flags() -> Locs
    ensures { result ≡ flags }
{
    Locs::single(Loc::S)
        .union(Locs::single(Loc::Z))
        .union(Locs::single(Loc::Ac))
        .union(Locs::single(Loc::P))
        .union(Locs::single(Loc::Cy))
}

fn locations_of(word: AnnotationWord) -> Option<Locs>
    ensures { result ≡ locations_of word }
{
    match word {
        AnnotationWord::Loc(location) => Some(Locs::single(location)),
        AnnotationWord::Bc => Some(Locs::single(Loc::B).union(Locs::single(Loc::C))),
        AnnotationWord::De => Some(Locs::single(Loc::D).union(Locs::single(Loc::E))),
        AnnotationWord::Hl => Some(Locs::single(Loc::H).union(Locs::single(Loc::L))),
        _ => None,
    }
}

/// The locations that a name means in a list: a register, a pair, a flag or FLAGS.
#[tactic(auto, unfolding(crate::specs::code::Lines::locations_named))]
fn locations_named(name: Name) -> Option<Locs>
    ensures { result ≡ locations_named name }
{
    let text = name.as_slice();
    if text == b"FLAGS".as_slice() {
        return Some(flags());
    }
    match annotation_word_named(text) {
        Some(word) => locations_of(word),
        None => None,
    }
}

/// What a name means in a list: locations, or an area.
fn listed_named(name: Name) -> Option<Listed>
    ensures { result ≡ listed_named name }
{
    match locations_named(name) {
        Some(locations) => Some(Listed::Locs(locations)),
        None => match own_name(name) {
            Some(area) => Some(Listed::Area(area)),
            None => None,
        },
    }
}

/// What an item of a list names.
#[tactic(auto, unfolding(crate::specs::code::Lines::listed_at))]
fn listed_at(source: &[u8], item: &[Token]) -> Option<Listed>
    requires { AreIn source.now item.now }
    ensures { result ≡ listed_at source.now item.now }
{
    let [token] = item else {
        return None;
    };
    let name = name_at(source, *token)?;
    listed_named(name)
}

/// The items of a list.
pub(crate) fn list_of(alloc: Global, source: &[u8], tokens: &[Token]) -> Result<Items, LineRefusal>
    requires { AreIn source.now tokens.now }
    ensures { AnswersSome (λ (items : List Listed). items) result (list_read source.now (items_of source.now tokens.now)) }
{
    let mut items = Vec::new(alloc);
    let mut rest = tokens;
    loop {
        let (item, after) = rest.split_at(item_len(source, rest));
        let Some(read) = listed_at(source, item) else {
            return Err(LineRefusal::Kind(NoteKind::Syntax));
        };
        items.push(read)?;
        match after {
            [] => return Ok(Items::from_vec(items)),
            [_, next @ ..] => rest = next,
        }
    }
}

/// The expression that all these tokens are.
pub(crate) fn expression(
    alloc: Global,
    source: &[u8],
    tokens: &[Token],
) -> Result<Expr, LineRefusal>
    requires { AreIn source.now tokens.now }
    ensures right { Answers (λ (ws : List Word). ws) result (expression_of source.now tokens.now) }
    ensures kinds { IsOfExpressions result }
{
    let expression = parse_in(alloc, Setting::Annotation, source, tokens)?;
    Ok(expression)
}

/// Expressions while they are read.
#[derive(Drop)]
pub struct Found {
    expressions: Vec<Expr>,
    /// Whether one nests too deep.
    deep: bool,
}

impl Found {
    ghost use Rattle.sp_note.specs.code.Found.{held, AnswersPort, with_last};

    fn empty(alloc: Global) -> Found
        ensures { held result ≡ Ok [] }
    {
        Found {
            expressions: Vec::new(alloc),
            deep: false,
        }
    }

    /// Adds an expression. One that nests too deep is noted, since a later one may be Syntax.
    fn add(&mut self, alloc: Global, source: &[u8], item: &[Token]) -> Result<(), LineRefusal>
        requires { AreIn source.now item.now }
        ensures { AnswersPort result (held self.new) (with_last (held self.old) (expression_of source.now item.now)) }
    {
        match expression(alloc, source, item) {
            Ok(expression) => {
                self.expressions.push(expression)?;
                Ok(())
            }
            Err(LineRefusal::Kind(NoteKind::TooDeep)) => {
                self.deep = true;
                Ok(())
            }
            Err(refusal) => Err(refusal),
        }
    }

    fn finish(self) -> Result<Ports, LineRefusal>
        ensures { Answers (λ (ports : List (List Word)). ports) result (held self) }
    {
        let Found { expressions, deep } = self;
        if deep {
            Err(LineRefusal::Kind(NoteKind::TooDeep))
        } else {
            Ok(Ports::from_vec(expressions))
        }
    }
}

/// The ports of a list, divided by commas.
pub(crate) fn ports_of(alloc: Global, source: &[u8], tokens: &[Token]) -> Result<Ports, LineRefusal>
    requires { AreIn source.now tokens.now }
    ensures { Answers (λ (ports : List (List Word)). ports) result (ports_read source.now (items_of source.now tokens.now)) }
{
    let mut found = Found::empty(alloc);
    let mut rest = tokens;
    loop {
        let (item, after) = rest.split_at(item_len(source, rest));
        found.add(alloc, source, item)?;
        match after {
            [] => return found.finish(),
            [_, next @ ..] => rest = next,
        }
    }
}
