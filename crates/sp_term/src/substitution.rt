ghost use Rattle.std.specs.Prelude.{◌≡◌, ◌≢◌, IfOk, if◌then◌else◌};
ghost use Rattle.sp_term.specs.declared.var.Var.{Var};
ghost use Rattle.sp_term.specs.declared.var.Var.TheVariants as var;
ghost use Rattle.sp_term.specs.Tree.{Variable};
ghost use Rattle.sp_term.specs.Terms.{tree_of};
ghost use Rattle.sp_term.specs.Free.{replaced, var_eq};

use crate::{Kind, Term, Var, make};
use bumpalo::Bump;
use sp_base::Memory;
use std::alloc::Global;

#[tactic(auto, using(crate::proofs::VarLemmas::eq_is_var_eq))]
fn same_variable(v: Var, w: Var) -> bool
    ensures { result ≡ var_eq v w }
{
    v == w
}

/// The term with `by` in each free place of the variable `name`. A quantifier's variable is bound in its formula, not in
/// its two ends.
#[cycle(substitute)]
pub fn substitute<'a>(
    alloc: Global,
    arena: &'a Bump,
    t: &'a Term<'a>,
    name: Var,
    by: &'a Term<'a>,
) -> Result<&'a Term<'a>, Memory>
    ensures { IfOk result (λ r. r.now ≡ replaced name by.now t.now) }
{
    match t.kind() {
        Kind::Literal(_) | Kind::Truth(_) => Ok(t),
        Kind::Variable(v) => {
            if same_variable(*v, name) {
                Ok(by)
            } else {
                Ok(t)
            }
        }
        kind => {
            let kind = substitute_parts(alloc, arena, kind, name, by)?;
            make(arena, kind)
        }
    }
}

/// The node with the parts in which `by` was put.
#[cycle(substitute)]
fn substitute_parts<'a>(
    alloc: Global,
    arena: &'a Bump,
    kind: &'a Kind<'a>,
    name: Var,
    by: &'a Term<'a>,
) -> Result<Kind<'a>, Memory>
    requires { (v : Var) → tree_of kind.now ≢ Variable v }
    ensures { IfOk result (λ r. tree_of r ≡ replaced name by.now (tree_of kind.now)) }
{
    match kind {
        Kind::Literal(n) => Ok(Kind::Literal(*n)),
        Kind::Truth(b) => Ok(Kind::Truth(*b)),
        Kind::Variable(_) => unreachable!(),
        Kind::Add(x, y) => {
            let (x, y) = substitute_two(alloc, arena, x, y, name, by)?;
            Ok(Kind::Add(x, y))
        }
        Kind::Subtract(x, y) => {
            let (x, y) = substitute_two(alloc, arena, x, y, name, by)?;
            Ok(Kind::Subtract(x, y))
        }
        Kind::Multiply(x, y) => {
            let (x, y) = substitute_two(alloc, arena, x, y, name, by)?;
            Ok(Kind::Multiply(x, y))
        }
        Kind::Divide(x, y) => {
            let (x, y) = substitute_two(alloc, arena, x, y, name, by)?;
            Ok(Kind::Divide(x, y))
        }
        Kind::Remainder(x, y) => {
            let (x, y) = substitute_two(alloc, arena, x, y, name, by)?;
            Ok(Kind::Remainder(x, y))
        }
        Kind::ByteAnd(x, y) => {
            let (x, y) = substitute_two(alloc, arena, x, y, name, by)?;
            Ok(Kind::ByteAnd(x, y))
        }
        Kind::ByteOr(x, y) => {
            let (x, y) = substitute_two(alloc, arena, x, y, name, by)?;
            Ok(Kind::ByteOr(x, y))
        }
        Kind::ByteXor(x, y) => {
            let (x, y) = substitute_two(alloc, arena, x, y, name, by)?;
            Ok(Kind::ByteXor(x, y))
        }
        Kind::Parity(x) => {
            let x = substitute(alloc, arena, x, name, by)?;
            Ok(Kind::Parity(x))
        }
        Kind::Bit(k, x) => {
            let x = substitute(alloc, arena, x, name, by)?;
            Ok(Kind::Bit(*k, x))
        }
        Kind::Psw(s, z, ac, p, cy) => {
            let (s, z, ac, p, cy) = substitute_five(alloc, arena, s, z, ac, p, cy, name, by)?;
            Ok(Kind::Psw(s, z, ac, p, cy))
        }
        Kind::If(p, x, y) => {
            let (p, x, y) = substitute_three(alloc, arena, p, x, y, name, by)?;
            Ok(Kind::If(p, x, y))
        }
        Kind::Element(m, x) => {
            let (m, x) = substitute_two(alloc, arena, m, x, name, by)?;
            Ok(Kind::Element(m, x))
        }
        Kind::Update(m, x, y) => {
            let (m, x, y) = substitute_three(alloc, arena, m, x, y, name, by)?;
            Ok(Kind::Update(m, x, y))
        }
        Kind::Total(m, x, y) => {
            let (m, x, y) = substitute_three(alloc, arena, m, x, y, name, by)?;
            Ok(Kind::Total(m, x, y))
        }
        Kind::Equal(x, y) => {
            let (x, y) = substitute_two(alloc, arena, x, y, name, by)?;
            Ok(Kind::Equal(x, y))
        }
        Kind::Less(x, y) => {
            let (x, y) = substitute_two(alloc, arena, x, y, name, by)?;
            Ok(Kind::Less(x, y))
        }
        Kind::LessOrEqual(x, y) => {
            let (x, y) = substitute_two(alloc, arena, x, y, name, by)?;
            Ok(Kind::LessOrEqual(x, y))
        }
        Kind::Not(p) => {
            let p = substitute(alloc, arena, p, name, by)?;
            Ok(Kind::Not(p))
        }
        Kind::And(p, q) => {
            let (p, q) = substitute_two(alloc, arena, p, q, name, by)?;
            Ok(Kind::And(p, q))
        }
        Kind::Or(p, q) => {
            let (p, q) = substitute_two(alloc, arena, p, q, name, by)?;
            Ok(Kind::Or(p, q))
        }
        Kind::Implies(p, q) => {
            let (p, q) = substitute_two(alloc, arena, p, q, name, by)?;
            Ok(Kind::Implies(p, q))
        }
        Kind::Iff(p, q) => {
            let (p, q) = substitute_two(alloc, arena, p, q, name, by)?;
            Ok(Kind::Iff(p, q))
        }
        Kind::ForAll(k, x, y, p) => {
            let (x, y) = substitute_two(alloc, arena, x, y, name, by)?;
            let p = substitute_within(alloc, arena, *k, p, name, by)?;
            Ok(Kind::ForAll(*k, x, y, p))
        }
        Kind::ForSome(k, x, y, p) => {
            let (x, y) = substitute_two(alloc, arena, x, y, name, by)?;
            let p = substitute_within(alloc, arena, *k, p, name, by)?;
            Ok(Kind::ForSome(*k, x, y, p))
        }
    }
}

/// The formula of a quantifier, in which its own variable stays.
#[cycle(substitute)]
fn substitute_within<'a>(
    alloc: Global,
    arena: &'a Bump,
    k: u32,
    p: &'a Term<'a>,
    name: Var,
    by: &'a Term<'a>,
) -> Result<&'a Term<'a>, Memory>
    ensures { IfOk result (λ r. r.now ≡ (if var_eq name (var.Bound k) then p.now else replaced name by.now p.now)) }
{
    if same_variable(name, Var::Bound(k)) {
        Ok(p)
    } else {
        substitute(alloc, arena, p, name, by)
    }
}

#[cycle(substitute)]
fn substitute_two<'a>(
    alloc: Global,
    arena: &'a Bump,
    x: &'a Term<'a>,
    y: &'a Term<'a>,
    name: Var,
    by: &'a Term<'a>,
) -> Result<(&'a Term<'a>, &'a Term<'a>), Memory>
    ensures x { IfOk result (λ r. r.0.now ≡ replaced name by.now x.now) }
    ensures y { IfOk result (λ r. r.1.now ≡ replaced name by.now y.now) }
{
    let x = substitute(alloc, arena, x, name, by)?;
    let y = substitute(alloc, arena, y, name, by)?;
    Ok((x, y))
}

#[cycle(substitute)]
fn substitute_three<'a>(
    alloc: Global,
    arena: &'a Bump,
    x: &'a Term<'a>,
    y: &'a Term<'a>,
    z: &'a Term<'a>,
    name: Var,
    by: &'a Term<'a>,
) -> Result<(&'a Term<'a>, &'a Term<'a>, &'a Term<'a>), Memory>
    ensures x { IfOk result (λ r. r.0.now ≡ replaced name by.now x.now) }
    ensures y { IfOk result (λ r. r.1.now ≡ replaced name by.now y.now) }
    ensures z { IfOk result (λ r. r.2.now ≡ replaced name by.now z.now) }
{
    let (x, y) = substitute_two(alloc, arena, x, y, name, by)?;
    let z = substitute(alloc, arena, z, name, by)?;
    Ok((x, y, z))
}

#[cycle(substitute)]
fn substitute_five<'a>(
    alloc: Global,
    arena: &'a Bump,
    s: &'a Term<'a>,
    z: &'a Term<'a>,
    ac: &'a Term<'a>,
    p: &'a Term<'a>,
    cy: &'a Term<'a>,
    name: Var,
    by: &'a Term<'a>,
) -> Result<
    (
        &'a Term<'a>,
        &'a Term<'a>,
        &'a Term<'a>,
        &'a Term<'a>,
        &'a Term<'a>,
    ),
    Memory,
>
    ensures s { IfOk result (λ r. r.0.now ≡ replaced name by.now s.now) }
    ensures z { IfOk result (λ r. r.1.now ≡ replaced name by.now z.now) }
    ensures ac { IfOk result (λ r. r.2.now ≡ replaced name by.now ac.now) }
    ensures p { IfOk result (λ r. r.3.now ≡ replaced name by.now p.now) }
    ensures cy { IfOk result (λ r. r.4.now ≡ replaced name by.now cy.now) }
{
    let (s, z, ac) = substitute_three(alloc, arena, s, z, ac, name, by)?;
    let (p, cy) = substitute_two(alloc, arena, p, cy, name, by)?;
    Ok((s, z, ac, p, cy))
}
