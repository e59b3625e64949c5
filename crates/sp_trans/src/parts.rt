//! Parts of a symbolic state.
ghost use Rattle.std.specs.Prelude.{◌≡◌, length, IfOk};
ghost use Rattle.sp_trans.specs.Symbolic.{term_at, pair_term};
ghost use Rattle.sp_trans.specs.View.{symbolic_of};

use crate::Sym;
use crate::operands::pair_term;
use crate::terms::terms_of;
use bumpalo::Bump;
use sp_base::{Loc, Memory, Pair};
use sp_term::Term;

/// The term of a register or a flag.
pub fn location_term<'a>(state: Sym<'a>, x: Loc) -> &'a Term<'a>
    requires { length state.locs.now ≡ 12 }
    ensures { result.now ≡ term_at x (symbolic_of state.entry) }
{
    terms_of(state).at(x)
}

/// The term of the word in a register pair. There is none for the stack pointer, for which this is 0.
pub fn word_term<'a>(arena: &'a Bump, state: Sym<'a>, p: Pair) -> Result<&'a Term<'a>, Memory>
    requires { length state.locs.now ≡ 12 }
    ensures { IfOk result (λ t. t.now ≡ pair_term p (symbolic_of state.entry)) }
{
    pair_term(arena, p, terms_of(state))
}
