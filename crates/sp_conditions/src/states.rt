//! Symbolic states of variables, and the state after a call.
ghost use Rattle.std.specs.Prelude.{◌≡◌, IfOk, length, map, reverse};
ghost use Rattle.sp_base.specs.Locs.{has};
ghost use Rattle.sp_term.specs.Conditions.{trees};
ghost use Rattle.sp_term.specs.Tree.{Variable};
ghost use Rattle.sp_trans.specs.Symbolic.{term_at};
ghost use Rattle.sp_trans.specs.View.{symbolic_of, word_of};
ghost use Rattle.sp_cond.specs.Calls.{after_at, after_call, memory_after};
ghost use Rattle.sp_cond.specs.Start.{start_memory, start_var, state_with};

use bumpalo::Bump;
use bumpalo::collections::into_bump_slice;
use sp_base::{Loc, Locs, Memory};
use sp_prog::Routine;
use sp_term::{Kind, Term, Var, make};
use sp_trans::{Sym, location_term};

/// The locations, in their order.
static ALL_LOCS: [Loc; 12] = [
    Loc::A,
    Loc::B,
    Loc::C,
    Loc::D,
    Loc::E,
    Loc::H,
    Loc::L,
    Loc::S,
    Loc::Z,
    Loc::Ac,
    Loc::P,
    Loc::Cy,
];

/// A term for each of some locations.
#[derive(Clone, Copy, Drop)]
pub struct Located<'a> {
    pub list: &'a [&'a Term<'a>],
}

/// A word on the stack: its high and its low byte.
pub type Word<'a> = (&'a Term<'a>, &'a Term<'a>);

fn variable<'a>(arena: &'a Bump, v: Var) -> Result<&'a Term<'a>, Memory>
    ensures { IfOk result (λ t. t.now ≡ Variable v) }
{
    make(arena, Kind::Variable(v))
}

/// The variable of a location at a walk's start.
fn start_term<'a>(arena: &'a Bump, fresh: Locs, x: Loc) -> Result<&'a Term<'a>, Memory>
    ensures { IfOk result (λ t. t.now ≡ Variable (start_var (has x fresh) x)) }
{
    if fresh.contains(x) {
        variable(arena, Var::Now(x))
    } else {
        variable(arena, Var::Entry(x))
    }
}

/// The variable of memory at a walk's start.
fn start_memory<'a>(arena: &'a Bump, stored: bool) -> Result<&'a Term<'a>, Memory>
    ensures { IfOk result (λ t. t.now ≡ Variable (start_memory stored)) }
{
    if stored {
        variable(arena, Var::Mem)
    } else {
        variable(arena, Var::MemEntry)
    }
}

/// The variables of some locations at a walk's start.
fn start_terms<'a>(arena: &'a Bump, fresh: Locs, xs: &[Loc]) -> Result<Located<'a>, Memory>
    ensures { IfOk result (λ r. trees r.list.now ≡ map (λ x. Variable (start_var (has x fresh) x)) xs.now) }
{
    let mut terms = Vec::new(arena);
    'locations: for x in xs {
        let t = start_term(arena, fresh, *x)?;
        terms.push(t)?;
    }
    Ok(Located {
        list: into_bump_slice(terms),
    })
}

/// The state in which some locations, and memory where it is told so, have variables of their own.
#[tactic(auto, using(crate::proofs::StateLemmas::started, crate::proofs::StateLemmas::twelve))]
pub fn state_with<'a>(
    arena: &'a Bump,
    fresh: Locs,
    stored: bool,
    slots: &'a [Word<'a>],
) -> Result<Sym<'a>, Memory>
    ensures state { IfOk result (λ s. symbolic_of s ≡ state_with (λ x. has x fresh) stored (reverse (map word_of slots.now))) }
    ensures locations { IfOk result (λ s. length s.locs.now ≡ 12) }
    ensures words { IfOk result (λ s. s.slots ≡ slots.entry) }
{
    let located = start_terms(arena, fresh, &ALL_LOCS)?;
    let mem = start_memory(arena, stored)?;
    Ok(Sym {
        locs: located.list,
        mem,
        slots,
    })
}

/// A location after the j-th call: its variable where the callee lists it, else its term before.
fn after_at<'a>(
    arena: &'a Bump,
    changes: Locs,
    j: u32,
    x: Loc,
    t: &'a Term<'a>,
) -> Result<&'a Term<'a>, Memory>
    ensures { IfOk result (λ r. r.now ≡ after_at changes j x t.now) }
{
    if changes.contains(x) {
        variable(arena, Var::After(x, j))
    } else {
        Ok(t)
    }
}

/// Memory after the j-th call: its variable where the callee lists an area, else its term before.
fn memory_after<'a>(
    arena: &'a Bump,
    areas: &[usize],
    j: u32,
    t: &'a Term<'a>,
) -> Result<&'a Term<'a>, Memory>
    ensures { IfOk result (λ r. r.now ≡ memory_after areas.now j t.now) }
{
    if areas.is_empty() {
        Ok(t)
    } else {
        variable(arena, Var::MemAfter(j))
    }
}

/// Some locations after the j-th call.
fn terms_after<'a>(
    arena: &'a Bump,
    changes: Locs,
    j: u32,
    xs: &[Loc],
    g: Sym<'a>,
) -> Result<Located<'a>, Memory>
    requires { length g.locs.now ≡ 12 }
    ensures { IfOk result (λ r. trees r.list.now ≡ map (λ x. after_at changes j x (term_at x (symbolic_of g.entry))) xs.now) }
{
    let mut terms = Vec::new(arena);
    'locations: for x in xs {
        let t = after_at(arena, changes, j, *x, location_term(g, *x))?;
        terms.push(t)?;
    }
    Ok(Located {
        list: into_bump_slice(terms),
    })
}

/// The state after the j-th taken call of a walk.
#[tactic(auto, using(crate::proofs::StateLemmas::called, crate::proofs::StateLemmas::twelve))]
pub fn after_call<'a>(
    arena: &'a Bump,
    callee: &Routine,
    j: u32,
    g: Sym<'a>,
) -> Result<Sym<'a>, Memory>
    requires { length g.locs.now ≡ 12 }
    ensures state { IfOk result (λ s. symbolic_of s ≡ after_call callee.now j (symbolic_of g.entry)) }
    ensures locations { IfOk result (λ s. length s.locs.now ≡ 12) }
    ensures words { IfOk result (λ s. s.slots ≡ g.entry.slots) }
{
    let located = terms_after(arena, callee.changes.locs, j, &ALL_LOCS, g)?;
    let mem = memory_after(arena, callee.changes.areas.as_slice(), j, g.mem)?;
    Ok(Sym {
        locs: located.list,
        mem,
        slots: g.slots,
    })
}
