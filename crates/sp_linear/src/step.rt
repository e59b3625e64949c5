//! The step `linear`: its sum as a term of a pool, and the two ways in which it applies.

ghost use Rattle.std.specs.Prelude.{◌≡◌, ◌<◌, ◌≤◌, ◌+◌, ◌*◌, ◌^◌, ◌&&◌, ◌↔◌, true, IsTrue, IfOk, Some, length, pos, max, unsigned_abs};
ghost use Rattle.std.specs.Ordering.{int_eq};
ghost use Rattle.sp_term.specs.Tree.{Literal, Add, Subtract, Multiply};
ghost use Rattle.sp_term.specs.Pools.{tree_at, Grows, IsPlace};
ghost use Rattle.sp_simp.specs.Same.{tree_eq};
ghost use Rattle.sp_linear.specs.Polynomials.{polynomial, size};
ghost use Rattle.sp_linear.specs.Linear.{form_of, form_of_not, negated, is_equality, goal_sides, named, Follows};
ghost use Rattle.sp_linear.specs.code.Tests.{is_negative, is_nothing, may_stand, sum_of, are_equations, against_goal, combined, concludes, is_small, follows as follows_test};
ghost use Rattle.sp_linear.specs.code.Places.{IsPlaceOf};

use crate::expand::expand;
use crate::limits::keeps_limits;
use crate::sums::Polynomial;
use bumpalo::Bump;
use sp_base::Memory;
use sp_term::{Kind, Node, Pool, Shape, Term};
use std::alloc::Global;

/// The place of a difference.
#[tactic(auto, using(crate::proofs::PlaceLemmas::places))]
fn difference(pool: &mut Pool, x: &Term, y: &Term) -> Result<Node, Memory>
    ensures grows { Grows pool.old pool.new }
    ensures place { IfOk result (λ n. IsPlace pool.new (Subtract x.now y.now) n.0) }
{
    let x = pool.take(x)?;
    let y = pool.take(y)?;
    pool.add(Shape::Subtract(x, y))
}

/// The place of a difference less 1.
#[tactic(auto, using(crate::proofs::PlaceLemmas::places))]
fn difference_less_one(pool: &mut Pool, x: &Term, y: &Term) -> Result<Node, Memory>
    ensures grows { Grows pool.old pool.new }
    ensures place { IfOk result (λ n. IsPlace pool.new (Subtract (Subtract x.now y.now) (Literal (pos 1))) n.0) }
{
    let d = difference(pool, x, y)?;
    let one = pool.add(Shape::Literal(1))?;
    pool.add(Shape::Subtract(d, one))
}

/// The place of a number times a term.
#[tactic(auto, using(crate::proofs::PlaceLemmas::places))]
fn multiple(pool: &mut Pool, c: i64, x: Node) -> Result<Node, Memory>
    requires { x.0 < length pool.old }
    ensures grows { Grows pool.old pool.new }
    ensures place { IfOk result (λ n. IsPlace pool.new (Multiply (Literal c) (tree_at pool.old x.0)) n.0) }
{
    let c = pool.add(Shape::Literal(c))?;
    pool.add(Shape::Multiply(c, x))
}

/// The place of a number times a term, and another term.
#[tactic(auto, using(crate::proofs::PlaceLemmas::places))]
fn plus_multiple(pool: &mut Pool, c: i64, x: Node, sum: Node) -> Result<Node, Memory>
    requires x { x.0 < length pool.old }
    requires sum { sum.0 < length pool.old }
    ensures grows { Grows pool.old pool.new }
    ensures place { IfOk result (λ n. IsPlace pool.new (Add (Multiply (Literal c) (tree_at pool.old x.0)) (tree_at pool.old sum.0)) n.0) }
{
    let m = multiple(pool, c, x)?;
    pool.add(Shape::Add(m, sum))
}

/// The form of a hypothesis `not p`.
fn negation_form(pool: &mut Pool, p: &Term) -> Result<Option<Node>, Memory>
    ensures grows { Grows pool.old pool.new }
    ensures form { IfOk result (λ r. IsPlaceOf pool.new (form_of_not p.now) r) }
{
    match p.kind() {
        Kind::Less(y, x) => {
            let n = difference(pool, y, x)?;
            Ok(Some(n))
        }
        Kind::LessOrEqual(y, x) => {
            let n = difference_less_one(pool, y, x)?;
            Ok(Some(n))
        }
        _ => Ok(None),
    }
}

/// The form of a hypothesis.
fn hypothesis_form(pool: &mut Pool, h: &Term) -> Result<Option<Node>, Memory>
    ensures grows { Grows pool.old pool.new }
    ensures form { IfOk result (λ r. IsPlaceOf pool.new (form_of h.now) r) }
{
    match h.kind() {
        Kind::LessOrEqual(x, y) | Kind::Equal(x, y) => {
            let n = difference(pool, y, x)?;
            Ok(Some(n))
        }
        Kind::Less(x, y) => {
            let n = difference_less_one(pool, y, x)?;
            Ok(Some(n))
        }
        Kind::Not(p) => negation_form(pool, p),
        _ => Ok(None),
    }
}

/// The negated goal.
fn negated_goal(pool: &mut Pool, goal: &Term) -> Result<Option<Node>, Memory>
    ensures grows { Grows pool.old pool.new }
    ensures form { IfOk result (λ r. IsPlaceOf pool.new (negated goal.now) r) }
{
    match goal.kind() {
        Kind::LessOrEqual(x, y) => {
            let n = difference_less_one(pool, x, y)?;
            Ok(Some(n))
        }
        Kind::Less(x, y) => {
            let n = difference(pool, x, y)?;
            Ok(Some(n))
        }
        _ => Ok(None),
    }
}

fn is_equation(h: &Term) -> bool
    ensures { result ≡ is_equality h.now }
{
    match h.kind() {
        Kind::Equal(_, _) => true,
        _ => false,
    }
}

fn all_equations(by: &[(i64, &Term)]) -> bool
    ensures { result ≡ are_equations (named by.now) }
{
    for h in by {
        if !is_equation(h.1) {
            return false;
        }
    }
    true
}

/// Whether a multiplier may stand before a hypothesis.
fn may_take(c: i64, h: &Term) -> bool
    ensures { result ≡ may_stand c h.now }
{
    0 <= c || is_equation(h)
}

/// The place of the sum of the multipliers times the forms.
#[cycle(sum_term)]
#[tactic(auto, using(crate::proofs::PlaceLemmas::sums))]
fn sum_term(pool: &mut Pool, by: &[(i64, &Term)]) -> Result<Option<Node>, Memory>
    ensures grows { Grows pool.old pool.new }
    ensures sum { IfOk result (λ r. IsPlaceOf pool.new (sum_of (named by.now)) r) }
{
    let Some((h, rest)) = by.split_first() else {
        let zero = pool.add(Shape::Literal(0))?;
        return Ok(Some(zero));
    };
    if !may_take(h.0, h.1) {
        return Ok(None);
    }
    let Some(form) = hypothesis_form(pool, h.1)? else {
        return Ok(None);
    };
    let Some(sum) = sum_term(pool, rest)? else {
        return Ok(None);
    };
    let n = plus_multiple(pool, h.0, form, sum)?;
    Ok(Some(n))
}

/// Whether the polynomial of the term at a place is a negative number without atoms.
#[tactic(auto, using(crate::proofs::PlaceLemmas::tests))]
fn is_negative_at(alloc: Global, pool: &Pool, n: Node) -> Result<bool, Memory>
    requires place { n.0 < length pool.now }
    requires size { size (tree_at pool.now n.0) ≤ 2 ^ 121 }
    ensures { IfOk result (λ b. b ≡ is_negative tree_eq (polynomial (tree_at pool.now n.0))) }
{
    pool.distinct();
    let products = expand(alloc, pool, n)?;
    let p = Polynomial::new(alloc, products)?;
    p.is_negative(alloc)
}

/// Whether every product has the coefficient 0 in the polynomial of the term at a place.
#[tactic(auto, using(crate::proofs::PlaceLemmas::tests))]
fn is_nothing_at(alloc: Global, pool: &Pool, n: Node) -> Result<bool, Memory>
    requires place { n.0 < length pool.now }
    requires size { size (tree_at pool.now n.0) ≤ 2 ^ 121 }
    ensures { IfOk result (λ b. b ≡ is_nothing tree_eq (polynomial (tree_at pool.now n.0))) }
{
    pool.distinct();
    let products = expand(alloc, pool, n)?;
    let p = Polynomial::new(alloc, products)?;
    p.is_nothing(alloc)
}

/// The first way, without the goal.
#[tactic(auto, using(crate::proofs::PlaceLemmas::sizes))]
fn contradicts_alone(alloc: Global, pool: &Pool, n0: i64, sum: Node) -> Result<bool, Memory>
    requires place { sum.0 < length pool.now }
    requires size { size (tree_at pool.now sum.0) ≤ 2 ^ 120 }
    ensures { IfOk result (λ b. b ≡ (int_eq n0 (pos 0) && is_negative tree_eq (polynomial (tree_at pool.now sum.0)))) }
{
    if n0 == 0 {
        is_negative_at(alloc, pool, sum)
    } else {
        Ok(false)
    }
}

/// The first way, with the negated goal.
#[tactic(auto, using(crate::proofs::PlaceLemmas::sizes))]
fn contradicts_goal(
    alloc: Global,
    pool: &mut Pool,
    goal: &Term,
    n0: i64,
    sum: Node,
) -> Result<bool, Memory>
    requires place { sum.0 < length pool.old }
    requires size { goal_sides goal.now size * max 1 (unsigned_abs n0) + size (tree_at pool.old sum.0) ≤ 2 ^ 120 }
    ensures grows { Grows pool.old pool.new }
    ensures test { IfOk result (λ b. b ≡ against_goal n0 (tree_at pool.old sum.0) (negated goal.now)) }
{
    let Some(against) = negated_goal(pool, goal)? else {
        return Ok(false);
    };
    let n = plus_multiple(pool, n0, against, sum)?;
    is_negative_at(alloc, pool, n)
}

/// Whether a sum of equations is N0 times the equation of two terms.
#[tactic(auto, using(crate::proofs::PlaceLemmas::places, crate::proofs::PlaceLemmas::sizes))]
fn is_multiple(
    alloc: Global,
    pool: &mut Pool,
    x: &Term,
    y: &Term,
    n0: i64,
    sum: Node,
) -> Result<bool, Memory>
    requires place { sum.0 < length pool.old }
    requires size { (size x.now + size y.now + 1) * max 1 (unsigned_abs n0) + size (tree_at pool.old sum.0) ≤ 2 ^ 120 }
    ensures test { IfOk result (λ b. b ≡
        is_nothing tree_eq (polynomial (Subtract (tree_at pool.old sum.0) (Multiply (Literal n0) (Subtract y.now x.now))))) }
{
    let d = difference(pool, y, x)?;
    let m = multiple(pool, n0, d)?;
    let n = pool.add(Shape::Subtract(sum, m))?;
    is_nothing_at(alloc, pool, n)
}

/// The second way.
fn is_combined(
    alloc: Global,
    pool: &mut Pool,
    goal: &Term,
    n0: i64,
    by: &[(i64, &Term)],
    sum: Node,
) -> Result<bool, Memory>
    requires place { sum.0 < length pool.old }
    requires size { goal_sides goal.now size * max 1 (unsigned_abs n0) + size (tree_at pool.old sum.0) ≤ 2 ^ 120 }
    ensures { IfOk result (λ b. b ≡ combined n0 (named by.now) (tree_at pool.old sum.0) goal.now) }
{
    match goal.kind() {
        Kind::Equal(x, y) => {
            if n0 < 1 || !all_equations(by) {
                return Ok(false);
            }
            is_multiple(alloc, pool, x, y, n0, sum)
        }
        _ => Ok(false),
    }
}

/// Whether the step applies in one of the two ways, with its sum at a place.
#[tactic(auto, using(crate::proofs::PlaceLemmas::ways))]
fn applies(
    alloc: Global,
    pool: &mut Pool,
    goal: &Term,
    n0: i64,
    by: &[(i64, &Term)],
    sum: Node,
) -> Result<bool, Memory>
    requires place { sum.0 < length pool.old }
    requires size { goal_sides goal.now size * max 1 (unsigned_abs n0) + size (tree_at pool.old sum.0) ≤ 2 ^ 120 }
    ensures { IfOk result (λ b. b ≡ concludes n0 (named by.now) goal.now (Some (tree_at pool.old sum.0))) }
{
    let alone = contradicts_alone(alloc, pool, n0, sum)?;
    if alone {
        return Ok(true);
    }
    let with_goal = contradicts_goal(alloc, pool, goal, n0, sum)?;
    if with_goal {
        return Ok(true);
    }
    is_combined(alloc, pool, goal, n0, by, sum)
}

/// The test of the step within its limits.
#[tactic(auto, using(crate::proofs::PlaceLemmas::wholes))]
fn conclusion(alloc: Global, goal: &Term, n0: i64, by: &[(i64, &Term)]) -> Result<bool, Memory>
    requires { is_small n0 (named by.now) goal.now ≡ true }
    ensures { IfOk result (λ b. b ≡ concludes n0 (named by.now) goal.now (sum_of (named by.now))) }
{
    let arena = Bump::new(alloc);
    let mut pool = Pool::new(alloc, &arena);
    match sum_term(&mut pool, by)? {
        Some(sum) => applies(alloc, &mut pool, goal, n0, by, sum),
        None => Ok(false),
    }
}

fn decide(alloc: Global, goal: &Term, n0: i64, by: &[(i64, &Term)]) -> Result<bool, Memory>
    ensures { IfOk result (λ b. b ≡ follows_test n0 (named by.now) goal.now) }
{
    if n0 < 0 || !keeps_limits(goal, n0, by) {
        return Ok(false);
    }
    conclusion(alloc, goal, n0, by)
}

/// Whether the step `linear` with N0 and these multipliers and hypotheses closes a goal. It takes memory of its own and gives it
/// up at the end.
#[tactic(auto, using(crate::proofs::DecideLemmas::follows_decides))]
pub fn follows(alloc: Global, goal: &Term, n0: i64, by: &[(i64, &Term)]) -> Result<bool, Memory>
    ensures { IfOk result (λ b. IsTrue b ↔ Follows n0 (named by.now) goal.now) }
{
    decide(alloc, goal, n0, by)
}
