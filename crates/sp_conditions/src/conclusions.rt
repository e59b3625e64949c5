//! What a walk has to show, by its end.
ghost use Rattle.std.specs.Prelude.{◌≡◌, ◌++◌, ◌∷◌, [], All, IfOk, OnOk, length, map, not};
ghost use Rattle.std.specs.List.{filter};
ghost use Rattle.sp_base.specs.Locs.{has};
ghost use Rattle.sp_prog.specs.Rules.{IsEvaluable};
ghost use Rattle.sp_term.specs.Conditions.{trees};
ghost use Rattle.sp_term.specs.Tree.{Equal, Variable};
ghost use Rattle.sp_trans.specs.Symbolic.{term_at};
ghost use Rattle.sp_trans.specs.View.{symbolic_of};
ghost use Rattle.sp_cond.specs.Conclusions.{call_goals, goals, return_goals, unchanged};
ghost use Rattle.sp_cond.specs.Execution.{formulas_of};
ghost use Rattle.sp_cond.specs.Start.{entry_state};
ghost use Rattle.sp_conditions.specs.code.Places.{IsReady, setting_at};
ghost use Rattle.sp_conditions.specs.code.Notes.{NotesFit};

use crate::accesses::add_access;
use crate::calls::callee_of;
use crate::formulas::{Formulas, add_formulas};
use crate::place::{Place, rules};
use crate::start::entry_state;
use bumpalo::Bump;
use sp_base::{Loc, Locs, Memory};
use sp_graph::End;
use sp_isa::Instr;
use sp_prog::{Routine, Stmt};
use sp_term::{Kind, Term, Var, make};
use sp_trans::{Sym, location_term};
use std::alloc::Global;

/// The locations, in their order.
static ALL_LOCS: [Loc; 12] = [
    Loc::A,
    Loc::B,
    Loc::C,
    Loc::D,
    Loc::E,
    Loc::H,
    Loc::L,
    Loc::S,
    Loc::Z,
    Loc::Ac,
    Loc::P,
    Loc::Cy,
];

/// Adds what a call owes: the preconditions of its callee, with the state before the call as its entry.
#[tactic(auto, using(crate::proofs::PlaceLemmas::pre_evaluable, crate::proofs::PlaceLemmas::pre_fits))]
fn add_call<'a>(
    arena: &'a Bump,
    u: &Place<'_>,
    i: &Instr,
    g: Sym<'a>,
    out: &mut Formulas<'a>,
) -> Result<(), Memory>
    requires { length g.locs.now ≡ 12 }
    ensures { OnOk result (trees out.new.items ≡ trees out.old.items ++ call_goals (setting_at u.now) i.now (symbolic_of g.entry)) }
{
    rules(u.unit);
    match callee_of(u.unit, i) {
        Some(callee) => { add_formulas(arena, callee.pre.as_slice(), g, g, out) }
        None => Ok(()),
    }
}

/// A location has what it had at the entry.
fn unchanged<'a>(arena: &'a Bump, g: Sym<'a>, x: Loc) -> Result<&'a Term<'a>, Memory>
    requires { length g.locs.now ≡ 12 }
    ensures { IfOk result (λ t. t.now ≡ unchanged (symbolic_of g.entry) x) }
{
    let before = make(arena, Kind::Variable(Var::Entry(x)))?;
    make(arena, Kind::Equal(location_term(g, x), before))
}

/// Adds that a location is unchanged, where it isn't among those that are.
fn add_one<'a>(
    arena: &'a Bump,
    changed: Locs,
    x: Loc,
    g: Sym<'a>,
    out: &mut Formulas<'a>,
) -> Result<(), Memory>
    requires { length g.locs.now ≡ 12 }
    ensures { OnOk result (trees out.new.items ≡ trees out.old.items ++ map (unchanged (symbolic_of g.entry)) (filter (λ y. not (has y changed)) (x ∷ []))) }
{
    if !changed.contains(x) {
        let formula = unchanged(arena, g, x)?;
        out.push(formula)?;
    }
    Ok(())
}

/// Adds for each location that a routine doesn't list in `changes` that it is unchanged.
#[tactic(auto, using(crate::proofs::ListLemmas::keep_mapped))]
fn add_unchanged<'a>(
    arena: &'a Bump,
    r: &Routine,
    xs: &[Loc],
    g: Sym<'a>,
    out: &mut Formulas<'a>,
) -> Result<(), Memory>
    requires { length g.locs.now ≡ 12 }
    ensures { OnOk result (trees out.new.items ≡ trees out.old.items ++ map (unchanged (symbolic_of g.entry)) (filter (λ x. not (has x r.now.changes.locs)) xs.now)) }
{
    let changed = r.changes.locs;
    'locations: for x in xs {
        add_one(arena, changed, *x, g, out)?;
    }
    Ok(())
}

/// Adds what a return owes: the postconditions, and that all that isn't listed is unchanged.
#[tactic(auto, using(crate::proofs::NoteLemmas::all_fit))]
fn add_return<'a>(
    arena: &'a Bump,
    u: &Place<'_>,
    g: Sym<'a>,
    out: &mut Formulas<'a>,
) -> Result<(), Memory>
    requires locations { length g.locs.now ≡ 12 }
    requires ready { IsReady (setting_at u.now) }
    ensures { OnOk result (trees out.new.items ≡ trees out.old.items ++ return_goals (setting_at u.now) (symbolic_of g.entry)) }
{
    let entry = entry_state(arena)?;
    add_formulas(arena, u.routine.post.as_slice(), entry, g, out)?;
    add_unchanged(arena, u.routine, &ALL_LOCS, g, out)?;
    Ok(())
}

/// Adds what an assertion owes: its clauses.
fn add_asserts<'a>(
    arena: &'a Bump,
    s: &Stmt,
    g: Sym<'a>,
    out: &mut Formulas<'a>,
) -> Result<(), Memory>
    requires locations { length g.locs.now ≡ 12 }
    requires notes { All IsEvaluable s.now.asserts }
    requires words { NotesFit (length g.slots.now) s.now.asserts }
    ensures { OnOk result (trees out.new.items ≡ trees out.old.items ++ formulas_of entry_state (symbolic_of g.entry) s.now.asserts) }
{
    let entry = entry_state(arena)?;
    add_formulas(arena, s.asserts.as_slice(), entry, g, out)
}

/// Adds what a walk has to show at its end.
pub fn add_goals<'a>(
    alloc: Global,
    arena: &'a Bump,
    u: &Place<'_>,
    end: End,
    s: &Stmt,
    g: Sym<'a>,
    out: &mut Formulas<'a>,
) -> Result<(), Memory>
    requires locations { length g.locs.now ≡ 12 }
    requires ready { IsReady (setting_at u.now) }
    requires notes { All IsEvaluable s.now.asserts }
    requires words { end ≡ End.Assert → NotesFit (length g.slots.now) s.now.asserts }
    ensures { OnOk result (trees out.new.items ≡ trees out.old.items ++ goals (setting_at u.now) end s.now (symbolic_of g.entry)) }
{
    match end {
        End::Access => add_access(alloc, arena, u, &s.instr, g, out),
        End::Call => add_call(arena, u, &s.instr, g, out),
        End::Assert => add_asserts(arena, s, g, out),
        End::Return => add_return(arena, u, g, out),
    }
}
