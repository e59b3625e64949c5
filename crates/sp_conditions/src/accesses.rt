//! What an access owes: its address lies in an area that it may touch.
ghost use Rattle.std.specs.Prelude.{◌≡◌, ◌++◌, ◌∷◌, [], IfOk, OnOk, length, nat_eq, not};
ghost use Rattle.std.specs.List.{filter, list_any};
ghost use Rattle.sp_prog.specs.View.{listed_areas};
ghost use Rattle.sp_term.specs.Conditions.{trees};
ghost use Rattle.sp_trans.specs.Symbolic.{number};
ghost use Rattle.sp_trans.specs.View.{symbolic_of};
ghost use Rattle.sp_cond.specs.Conclusions.{access_goals, accessed, in_areas, permitted, readable};
ghost use Rattle.sp_conditions.specs.code.Spans.{among, between};
ghost use Rattle.sp_conditions.specs.code.Places.{setting_at};

use crate::formulas::Formulas;
use crate::frames::spans_of;
use crate::place::{Place, areas_of};
use crate::steps::is_store;
use bumpalo::Bump;
use sp_base::{Memory, Pair};
use sp_isa::Instr;
use sp_prog::{Lists, Routine};
use sp_term::{Kind, Term, make};
use sp_trans::{Sym, word_term};
use std::alloc::Global;

/// The address of the cell that an instruction accesses.
fn accessed<'a>(arena: &'a Bump, i: &Instr, g: Sym<'a>) -> Result<&'a Term<'a>, Memory>
    requires { length g.locs.now ≡ 12 }
    ensures { IfOk result (λ t. t.now ≡ accessed i.now (symbolic_of g.entry)) }
{
    match *i {
        Instr::Stax(p) | Instr::Ldax(p) => word_term(arena, g, p),
        _ => word_term(arena, g, Pair::H),
    }
}

/// Adds a place that isn't in a list.
fn add_unread(places: &mut Vec<usize>, read: &[usize], place: usize) -> Result<(), Memory>
    ensures { OnOk result (places.new.items ≡ places.old.items ++ filter (λ p. not (list_any (nat_eq p) read.now)) (place ∷ [])) }
{
    if !read.contains(&place) {
        places.push(place)?;
    }
    Ok(())
}

/// The areas that may be read: those of `reads`, then those of `changes` that aren't among them.
#[tactic(auto, using(crate::proofs::ListLemmas::keep_more))]
fn readable(alloc: Global, reads: &Lists, changes: &Lists) -> Result<Vec<usize>, Memory>
    ensures { IfOk result (λ places. places.items ≡ readable reads.now changes.now) }
{
    let read = reads.areas.as_slice();
    let written = changes.areas.as_slice();
    let mut places = Vec::new(alloc);
    places.extend_from_slice(read)?;
    'written: for place in written {
        add_unread(&mut places, read, *place)?;
    }
    Ok(places)
}

/// The areas that an access may touch.
fn permitted(alloc: Global, r: &Routine, i: &Instr) -> Result<Vec<usize>, Memory>
    ensures { IfOk result (λ places. places.items ≡ permitted r.now i.now) }
{
    if is_store(i) {
        let mut places = Vec::new(alloc);
        places.extend_from_slice(r.changes.areas.as_slice())?;
        Ok(places)
    } else {
        readable(alloc, &r.reads, &r.changes)
    }
}

fn number<'a>(arena: &'a Bump, n: u16) -> Result<&'a Term<'a>, Memory>
    ensures { IfOk result (λ t. t.now ≡ number n) }
{
    make(arena, Kind::Literal(i64::from(n)))
}

/// `(first <= t) and (t <= last)`
fn between<'a>(
    arena: &'a Bump,
    t: &'a Term<'a>,
    first: u16,
    last: u16,
) -> Result<&'a Term<'a>, Memory>
    ensures { IfOk result (λ r. r.now ≡ between t.now (first, last)) }
{
    let first = number(arena, first)?;
    let last = number(arena, last)?;
    let above = make(arena, Kind::LessOrEqual(first, t))?;
    let below = make(arena, Kind::LessOrEqual(t, last))?;
    make(arena, Kind::And(above, below))
}

/// In one of these spans of cells, of which there may be none.
fn among<'a>(arena: &'a Bump, t: &'a Term<'a>, spans: &[(u16, u16)]) -> Result<&'a Term<'a>, Memory>
    ensures { IfOk result (λ r. r.now ≡ among t.now spans.now) }
{
    let Some((span, rest)) = spans.split_first() else {
        return make(arena, Kind::Truth(false));
    };
    let (first, last) = *span;
    let here = between(arena, t, first, last)?;
    if rest.is_empty() {
        return Ok(here);
    }
    let others = among(arena, t, rest)?;
    make(arena, Kind::Or(here, others))
}

/// What is owed at an access.
fn owed<'a>(
    alloc: Global,
    arena: &'a Bump,
    u: &Place<'_>,
    i: &Instr,
    g: Sym<'a>,
) -> Result<&'a Term<'a>, Memory>
    requires { length g.locs.now ≡ 12 }
    ensures { IfOk result (λ r. r.now ≡ in_areas (accessed i.now (symbolic_of g.entry)) (listed_areas u.now.unit.now.areas (permitted u.now.routine.now i.now))) }
{
    let t = accessed(arena, i, g)?;
    let places = permitted(alloc, u.routine, i)?;
    let spans = spans_of(arena, areas_of(u.unit), &places)?;
    let formula = among(arena, t, spans.list)?;
    Ok(formula)
}

/// Adds what is owed at an access.
pub fn add_access<'a>(
    alloc: Global,
    arena: &'a Bump,
    u: &Place<'_>,
    i: &Instr,
    g: Sym<'a>,
    out: &mut Formulas<'a>,
) -> Result<(), Memory>
    requires { length g.locs.now ≡ 12 }
    ensures { OnOk result (trees out.new.items ≡ trees out.old.items ++ access_goals (setting_at u.now) i.now (symbolic_of g.entry)) }
{
    let formula = owed(alloc, arena, u, i, g)?;
    out.push(formula)?;
    Ok(())
}
