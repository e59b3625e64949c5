//! Operands of instructions as terms.
ghost use Rattle.std.specs.Prelude.{◌≡◌, IfOk};
ghost use Rattle.sp_trans.specs.Symbolic.{pair_term};
ghost use Rattle.sp_trans.specs.Translation.{arg_term, with_cell_term, with_arg_term, with_bytes, with_word};
ghost use Rattle.sp_trans.specs.code.Terms.{state};

use crate::build::{element, modulo, number, over};
use crate::pairs::joined;
use crate::terms::Terms;
use bumpalo::Bump;
use sp_base::{Loc, Memory, Pair};
use sp_isa::Arg;
use sp_term::{Kind, Term, make};

/// The word in a register pair; a symbolic state has none for the stack pointer.
#[tactic(auto, unfolding(crate::specs::Symbolic::pair_term))]
pub fn pair_term<'a>(arena: &'a Bump, p: Pair, g: Terms<'a>) -> Result<&'a Term<'a>, Memory>
    ensures { IfOk result (λ t. t.now ≡ pair_term p (state g.entry)) }
{
    match p {
        Pair::B => joined(arena, g.b, g.c),
        Pair::D => joined(arena, g.d, g.e),
        Pair::H => joined(arena, g.h, g.l),
        Pair::Sp => number(arena, 0),
    }
}

/// A byte; M is the cell at HL.
#[tactic(auto, unfolding(crate::specs::Translation::arg_term))]
pub fn arg_term<'a>(arena: &'a Bump, y: Arg, g: Terms<'a>) -> Result<&'a Term<'a>, Memory>
    ensures { IfOk result (λ t. t.now ≡ arg_term y (state g.entry)) }
{
    match y {
        Arg::Reg(r) => Ok(g.at(Loc::from(r))),
        Arg::M => {
            let at = pair_term(arena, Pair::H, g)?;
            element(arena, g.memory, at)
        }
    }
}

/// A byte goes to a cell.
#[tactic(auto, unfolding(crate::specs::Translation::with_cell_term))]
pub fn with_cell<'a>(
    arena: &'a Bump,
    at: &'a Term<'a>,
    t: &'a Term<'a>,
    g: Terms<'a>,
) -> Result<Terms<'a>, Memory>
    ensures { IfOk result (λ r. state r ≡ with_cell_term at.now t.now (state g.entry)) }
{
    let memory = make(arena, Kind::Update(g.memory, at, t))?;
    Ok(g.with_memory(memory))
}

/// A byte goes to an operand.
#[tactic(auto, unfolding(crate::specs::Translation::with_arg_term))]
pub fn with_arg<'a>(
    arena: &'a Bump,
    y: Arg,
    t: &'a Term<'a>,
    g: Terms<'a>,
) -> Result<Terms<'a>, Memory>
    ensures { IfOk result (λ r. state r ≡ with_arg_term y t.now (state g.entry)) }
{
    match y {
        Arg::Reg(r) => Ok(g.with(Loc::from(r), t)),
        Arg::M => {
            let at = pair_term(arena, Pair::H, g)?;
            with_cell(arena, at, t, g)
        }
    }
}

/// Two bytes go to a pair.
#[tactic(auto, unfolding(crate::specs::Translation::with_bytes))]
pub fn with_bytes<'a>(p: Pair, high: &'a Term<'a>, low: &'a Term<'a>, g: Terms<'a>) -> Terms<'a>
    ensures { state result ≡ with_bytes p high.now low.now (state g.entry) }
{
    match p {
        Pair::B => g.with(Loc::C, low).with(Loc::B, high),
        Pair::D => g.with(Loc::E, low).with(Loc::D, high),
        Pair::H => g.with(Loc::L, low).with(Loc::H, high),
        Pair::Sp => g,
    }
}

/// A word goes to a pair.
#[tactic(auto, unfolding(crate::specs::Translation::with_word))]
pub fn with_word<'a>(
    arena: &'a Bump,
    p: Pair,
    w: &'a Term<'a>,
    g: Terms<'a>,
) -> Result<Terms<'a>, Memory>
    ensures { IfOk result (λ r. state r ≡ with_word p w.now (state g.entry)) }
{
    let high = over(arena, w, 256)?;
    let low = modulo(arena, w, 256)?;
    Ok(with_bytes(p, high, low, g))
}
