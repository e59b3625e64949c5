ghost use Rattle.std.specs.Prelude.{◌≡◌, Some};
ghost use Rattle.sp_term.specs.Terms.{tree_of};
ghost use Rattle.sp_fdl.specs.code.Reading as reading;
ghost use Rattle.sp_fdl.specs.code.Reading.{Answers, read_as, number_part};

use crate::refusal::FdlRefusal;
use crate::sort::Sort;
use crate::tokens::after_mark;
use bumpalo::Bump;
use sp_term::{Kind, Term, make};
use std::alloc::Global;

/// A term that a text begins with, and what follows it.
#[derive(Clone, Copy)]
pub struct Found<'a, 't> {
    pub term: &'a Term<'a>,
    pub sort: Sort,
    pub rest: &'t [u8],
}

/// Where a term is read.
#[derive(Clone, Copy)]
pub struct Place<'a, 's> {
    pub alloc: Global,
    pub arena: &'a Bump,
    /// How deep the term may be.
    pub depth: u32,
    /// The numbers of the quantifiers round it.
    pub scope: &'s [u32],
}

/// A node with what follows it.
pub(crate) fn made<'a, 't>(
    arena: &'a Bump,
    kind: Kind<'a>,
    sort: Sort,
    rest: &'t [u8],
) -> Result<Found<'a, 't>, FdlRefusal>
    ensures { Answers result (Some (read_as (tree_of kind.entry) sort rest.now)) }
{
    let term = make(arena, kind)?;
    Ok(Found { term, sort, rest })
}

/// A node whose form ends with the closing parenthesis.
#[tactic(auto, unfolding(crate::specs::code::Reading::closed))]
pub(crate) fn closed<'a, 't>(
    arena: &'a Bump,
    kind: Kind<'a>,
    sort: Sort,
    text: &'t [u8],
) -> Result<Found<'a, 't>, FdlRefusal>
    ensures { Answers result (reading.closed (tree_of kind.entry) sort text.now) }
{
    let rest = after_mark(text, b')')?;
    made(arena, kind, sort, rest)
}

/// A literal, if there is one.
pub(crate) fn number_part<'a, 't>(
    arena: &'a Bump,
    n: Option<i64>,
    rest: &'t [u8],
) -> Result<Found<'a, 't>, FdlRefusal>
    ensures { Answers result (number_part n rest.now) }
{
    match n {
        Some(n) => made(arena, Kind::Literal(n), Sort::Int, rest),
        None => Err(FdlRefusal::Syntax),
    }
}
