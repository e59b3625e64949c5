//! The choice at Jcc, Ccc and Rcc as a formula.
ghost use Rattle.std.specs.Prelude.{◌≡◌, ◌++◌, IfOk, OnOk, length, pos};
ghost use Rattle.sp_term.specs.Conditions.{trees};
ghost use Rattle.sp_term.specs.Tree.{Equal};
ghost use Rattle.sp_trans.specs.Symbolic.{number, term_at};
ghost use Rattle.sp_trans.specs.View.{symbolic_of};
ghost use Rattle.sp_cond.specs.Execution.{asks_one, choice, condition_in, flag_of, flag_value};

use crate::formulas::Formulas;
use bumpalo::Bump;
use sp_base::{Loc, Memory};
use sp_isa::{Cond, Instr};
use sp_term::{Kind, Term, make};
use sp_trans::{Sym, location_term};

/// The condition of Jcc, Ccc and Rcc.
fn condition_in(i: &Instr) -> Option<Cond>
    ensures { result ≡ condition_in i.now }
{
    match *i {
        Instr::Jcc(when, _) | Instr::Ccc(when, _) | Instr::Rcc(when) => Some(when),
        _ => None,
    }
}

/// The flag of a condition.
fn flag_of(when: Cond) -> Loc
    ensures { result ≡ flag_of when }
{
    match when {
        Cond::Nz | Cond::Z => Loc::Z,
        Cond::Nc | Cond::C => Loc::Cy,
        Cond::Po | Cond::Pe => Loc::P,
        Cond::P | Cond::M => Loc::S,
    }
}

/// Whether a condition holds where its flag is 1, or where it is 0.
fn asks_one(when: Cond) -> bool
    ensures { result ≡ asks_one when }
{
    match when {
        Cond::Z | Cond::C | Cond::Pe | Cond::M => true,
        Cond::Nz | Cond::Nc | Cond::Po | Cond::P => false,
    }
}

/// What the flag has where the choice is made so.
fn flag_value(when: Cond, taken: bool) -> i64
    ensures { result ≡ pos (flag_value when taken) }
{
    if asks_one(when) == taken { 1 } else { 0 }
}

/// The formula of a choice by a condition.
fn flag_formula<'a>(
    arena: &'a Bump,
    when: Cond,
    taken: bool,
    g: Sym<'a>,
) -> Result<&'a Term<'a>, Memory>
    requires { length g.locs.now ≡ 12 }
    ensures { IfOk result (λ t. t.now ≡ Equal (term_at (flag_of when) (symbolic_of g.entry)) (number (flag_value when taken))) }
{
    let flag = location_term(g, flag_of(when));
    let value = make(arena, Kind::Literal(flag_value(when, taken)))?;
    make(arena, Kind::Equal(flag, value))
}

/// Adds the choice at an instruction, where it has one.
pub fn add_choice<'a>(
    arena: &'a Bump,
    i: &Instr,
    taken: bool,
    g: Sym<'a>,
    out: &mut Formulas<'a>,
) -> Result<(), Memory>
    requires { length g.locs.now ≡ 12 }
    ensures { OnOk result (trees out.new.items ≡ trees out.old.items ++ choice i.now taken (symbolic_of g.entry)) }
{
    match condition_in(i) {
        Some(when) => {
            let formula = flag_formula(arena, when, taken, g)?;
            out.push(formula)?;
            Ok(())
        }
        None => Ok(()),
    }
}
