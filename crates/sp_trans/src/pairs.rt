//! The word of a high and a low byte.
ghost use Rattle.std.specs.Prelude.{◌≡◌, ◌&&◌, IfOk};
ghost use Rattle.sp_trans.specs.TreeEquality.{same_tree};
ghost use Rattle.sp_trans.specs.Symbolic.{is_small, divided, joined};
ghost use Rattle.sp_trans.specs.Translation.{modulo, over};

use crate::build::{add, modulo, over, times};
use bumpalo::Bump;
use sp_base::Memory;
use sp_term::{Kind, Term, depth, same, size};

/// At most 65,536 nodes, and at most 2,000 deep.
fn is_small(t: &Term) -> bool
    ensures { result ≡ is_small t.now }
{
    size(t) <= 65_536 && depth(t) <= 2_000
}

/// What a quotient divides; any other term itself.
fn divided<'a>(t: &'a Term<'a>) -> &'a Term<'a>
    ensures { result.now ≡ divided t.now }
{
    match t.kind() {
        Kind::Divide(z, _) => z,
        _ => t,
    }
}

/// Whether two terms are one tree.
fn is_one(x: &Term, y: &Term) -> bool
    ensures { result ≡ same_tree x.now y.now }
{
    same(x, y)
}

/// Whether two terms are the quotient and the remainder of a third by 256.
fn are_parts<'a>(
    arena: &'a Bump,
    x: &'a Term<'a>,
    y: &'a Term<'a>,
    z: &'a Term<'a>,
) -> Result<bool, Memory>
    ensures { IfOk result (λ b. b ≡ (same_tree x.now (over z.now 256) && same_tree y.now (modulo z.now 256))) }
{
    let quotient = over(arena, z, 256)?;
    let remainder = modulo(arena, z, 256)?;
    Ok(is_one(x, quotient) && is_one(y, remainder))
}

/// The word of a high and a low byte.
#[tactic(auto, unfolding(crate::specs::Symbolic::joined))]
pub fn joined<'a>(arena: &'a Bump, x: &'a Term<'a>, y: &'a Term<'a>) -> Result<&'a Term<'a>, Memory>
    ensures { IfOk result (λ t. t.now ≡ joined x.now y.now) }
{
    let z = divided(x);
    if is_small(z) && are_parts(arena, x, y, z)? {
        Ok(z)
    } else {
        let high = times(arena, 256, x)?;
        add(arena, high, y)
    }
}
