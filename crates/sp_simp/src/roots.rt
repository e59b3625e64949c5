//! What a node of a pool has at its root.

ghost use Rattle.std.specs.Prelude.{◌≡◌, ◌<◌, length, pos, IfSome};
ghost use Rattle.sp_term.specs.Tree.{Literal};
ghost use Rattle.sp_term.specs.Pools.{tree_at};
ghost use Rattle.sp_simp.specs.Same.{tree_eq};
ghost use Rattle.sp_simp.specs.Rules as spec;
ghost use Rattle.sp_simp.specs.code.Plans.{offset_at, multiple_at, multiple_sum_at, reduced_sum_at, base_tree};

use sp_term::{Node, Pool, Shape};

/// Whether two places have one tree.
pub fn same(pool: &Pool, x: Node, y: Node) -> bool
    requires x { x.0 < length pool.now }
    requires y { y.0 < length pool.now }
    ensures { result ≡ tree_eq (tree_at pool.now x.0) (tree_at pool.now y.0) }
{
    pool.same(x, y)
}

/// True or false, where that stands there.
pub fn truth(pool: &Pool, n: Node) -> Option<bool>
    requires { n.0 < length pool.now }
    ensures { result ≡ spec.truth (tree_at pool.now n.0) }
{
    match pool.shape(n) {
        Shape::Truth(b) => Some(b),
        _ => None,
    }
}

/// x and c of `x + c`.
pub fn offset(pool: &Pool, n: Node) -> Option<(Node, i64)>
    requires { n.0 < length pool.now }
    ensures is { offset_at pool.now result ≡ spec.offset (tree_at pool.now n.0) }
    ensures within { IfSome result (λ p. p.0.0 < length pool.now) }
{
    match pool.shape(n) {
        Shape::Add(x, y) => match pool.literal(y) {
            Some(c) => Some((x, c)),
            None => None,
        },
        _ => None,
    }
}

/// c and x of `c * x`.
pub fn multiple(pool: &Pool, n: Node) -> Option<(i64, Node)>
    requires { n.0 < length pool.now }
    ensures is { multiple_at pool.now result ≡ spec.multiple (tree_at pool.now n.0) }
    ensures within { IfSome result (λ p. p.1.0 < length pool.now) }
{
    match pool.shape(n) {
        Shape::Multiply(x, y) => match pool.literal(x) {
            Some(c) => Some((c, y)),
            None => None,
        },
        _ => None,
    }
}

/// x and c of `x div c`.
pub fn divided(pool: &Pool, n: Node) -> Option<(Node, i64)>
    requires { n.0 < length pool.now }
    ensures is { offset_at pool.now result ≡ spec.divided (tree_at pool.now n.0) }
    ensures within { IfSome result (λ p. p.0.0 < length pool.now) }
{
    match pool.shape(n) {
        Shape::Divide(x, y) => match pool.literal(y) {
            Some(c) => Some((x, c)),
            None => None,
        },
        _ => None,
    }
}

/// x and c of `x mod c`.
pub fn reduced(pool: &Pool, n: Node) -> Option<(Node, i64)>
    requires { n.0 < length pool.now }
    ensures is { offset_at pool.now result ≡ spec.reduced (tree_at pool.now n.0) }
    ensures within { IfSome result (λ p. p.0.0 < length pool.now) }
{
    match pool.shape(n) {
        Shape::Remainder(x, y) => match pool.literal(y) {
            Some(c) => Some((x, c)),
            None => None,
        },
        _ => None,
    }
}

/// `c * y` and x of `(c * y) + x`.
pub fn multiple_sum(pool: &Pool, n: Node) -> Option<((i64, Node), Node)>
    requires { n.0 < length pool.now }
    ensures is { multiple_sum_at pool.now result ≡ spec.multiple_sum (tree_at pool.now n.0) }
    ensures part { IfSome result (λ p. p.0.1.0 < length pool.now) }
    ensures rest { IfSome result (λ p. p.1.0 < length pool.now) }
{
    match pool.shape(n) {
        Shape::Add(x, y) => match multiple(pool, x) {
            Some(m) => Some((m, y)),
            None => None,
        },
        _ => None,
    }
}

/// `x mod c` and y of `(x mod c) + y`.
pub fn reduced_sum(pool: &Pool, n: Node) -> Option<((Node, i64), Node)>
    requires { n.0 < length pool.now }
    ensures is { reduced_sum_at pool.now result ≡ spec.reduced_sum (tree_at pool.now n.0) }
    ensures part { IfSome result (λ p. p.0.0.0 < length pool.now) }
    ensures rest { IfSome result (λ p. p.1.0 < length pool.now) }
{
    match pool.shape(n) {
        Shape::Add(x, y) => match reduced(pool, x) {
            Some(r) => Some((r, y)),
            None => None,
        },
        _ => None,
    }
}

/// The base, none where it is the literal 0, and the offset.
pub fn base(pool: &Pool, n: Node) -> (Option<Node>, i64)
    requires { n.0 < length pool.now }
    ensures is { (base_tree pool.now result.0, result.1) ≡ spec.base (tree_at pool.now n.0) }
    ensures within { IfSome result.0 (λ x. x.0 < length pool.now) }
{
    match offset(pool, n) {
        Some((x, c)) => (Some(x), c),
        None => match pool.literal(n) {
            Some(c) => (None, c),
            None => (Some(n), 0),
        },
    }
}

#[tactic(auto, using(crate::proofs::RootLemmas::equal))]
fn is_zero(pool: &Pool, n: Node) -> bool
    requires { n.0 < length pool.now }
    ensures { result ≡ tree_eq (tree_at pool.now n.0) (Literal (pos 0)) }
{
    match pool.literal(n) {
        Some(c) => c == 0,
        None => false,
    }
}

/// Whether two bases are one.
#[tactic(auto, using(crate::proofs::RootLemmas::equal))]
pub fn same_base(pool: &Pool, x: Option<Node>, y: Option<Node>) -> bool
    requires x { IfSome x (λ n. n.0 < length pool.now) }
    requires y { IfSome y (λ n. n.0 < length pool.now) }
    ensures { result ≡ tree_eq (base_tree pool.now x) (base_tree pool.now y) }
{
    match (x, y) {
        (Some(x), Some(y)) => same(pool, x, y),
        (Some(x), None) => is_zero(pool, x),
        (None, Some(y)) => is_zero(pool, y),
        (None, None) => true,
    }
}
