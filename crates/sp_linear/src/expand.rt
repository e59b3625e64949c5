//! Terms of a pool multiplied out.

ghost use Rattle.std.specs.Prelude.{◌<◌, ◌≡◌, ◌≤◌, ◌^◌, [], ◌∷◌, IfOk, length};
ghost use Rattle.sp_term.specs.Pools.{tree_at};
ghost use Rattle.sp_linear.specs.Polynomials.{polynomial, size};
ghost use Rattle.sp_linear.specs.code.Sums.{monomials_at, AllBelow};
ghost use Rattle.sp_linear.specs.code.Parts.{IsParts, IsExpanded};

use crate::product::{Product, add_times, atom, multiplied, number};
use sp_base::Memory;
use sp_term::{Node, Pool, Shape};
use std::alloc::Global;

/// What a term is to its polynomial.
pub(crate) enum Parts {
    Number(i64),
    Sum(Node, Node),
    Difference(Node, Node),
    Product(Node, Node),
    Atom,
}

fn parts_of(pool: &Pool, n: Node) -> Parts
    requires { n.0 < length pool.now }
    ensures { IsParts pool.now n.0 result }
{
    match pool.shape(n) {
        Shape::Literal(c) => Parts::Number(c),
        Shape::Add(x, y) => Parts::Sum(x, y),
        Shape::Subtract(x, y) => Parts::Difference(x, y),
        Shape::Multiply(x, y) => Parts::Product(x, y),
        _ => Parts::Atom,
    }
}

/// The list of one monomial.
fn alone(alloc: Global, m: Product) -> Result<Vec<Product>, Memory>
    ensures { IfOk result (λ out. out.items ≡ m ∷ []) }
{
    let mut out = Vec::new(alloc);
    out.push(m)?;
    Ok(out)
}

/// The polynomial of the term at a place, its atoms as places. Sums and products are multiplied out.
#[tactic(auto, using(crate::proofs::ExpandLemmas::expands))]
pub(crate) fn expand(alloc: Global, pool: &Pool, n: Node) -> Result<Vec<Product>, Memory>
    requires place { n.0 < length pool.now }
    requires size { size (tree_at pool.now n.0) ≤ 2 ^ 121 }
    ensures { IfOk result (λ ms. IsExpanded pool.now n.0 ms.items) }
{
    match parts_of(pool, n) {
        Parts::Number(c) => alone(alloc, number(alloc, c)),
        Parts::Atom => {
            let m = atom(alloc, n.0)?;
            alone(alloc, m)
        }
        Parts::Sum(x, y) => {
            let mut p = expand(alloc, pool, x)?;
            let mut q = expand(alloc, pool, y)?;
            p.append(&mut q)?;
            Ok(p)
        }
        Parts::Difference(x, y) => {
            let mut p = expand(alloc, pool, x)?;
            let q = expand(alloc, pool, y)?;
            add_times(&mut p, &number(alloc, -1), q.as_slice())?;
            Ok(p)
        }
        Parts::Product(x, y) => {
            let p = expand(alloc, pool, x)?;
            let q = expand(alloc, pool, y)?;
            multiplied(alloc, p.as_slice(), q.as_slice())
        }
    }
}
