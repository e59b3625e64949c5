//! The first rule that matches at a node.

ghost use Rattle.std.specs.Prelude.{length};
ghost use Rattle.sp_term.specs.Pools.{shape_tree, IsBelow};
ghost use Rattle.sp_simp.specs.Rules as spec;
ghost use Rattle.sp_simp.specs.code.Plans.{IsPlan};

use crate::step::Step;
use crate::{Relation, bytes, cells, comparisons, formulas, products, quotients, sums};
use sp_term::{Pool, Shape};

/// What the rules write in the place of a node whose parts stand in the pool.
#[tactic(auto, unfolding(crate::specs::Rules::rule))]
pub fn next_step(pool: &Pool, shape: Shape) -> Step
    requires { IsBelow (length pool.now) shape }
    ensures { IsPlan pool.now result (spec.rule (shape_tree pool.now shape)) }
{
    match shape {
        Shape::Literal(_) | Shape::Truth(_) | Shape::Variable(_) => Step::Stay,
        Shape::Add(x, y) => sums::sum_step(pool, x, y),
        Shape::Subtract(x, y) => sums::difference_step(pool, x, y),
        Shape::Multiply(x, y) => products::product_step(pool, x, y),
        Shape::Divide(x, y) => quotients::quotient_step(pool, x, y),
        Shape::Remainder(x, y) => quotients::remainder_step(pool, x, y),
        Shape::ByteAnd(x, y) => bytes::and_step(pool, x, y),
        Shape::ByteOr(x, y) => bytes::or_step(pool, x, y),
        Shape::ByteXor(x, y) => bytes::xor_step(pool, x, y),
        Shape::Parity(x) => bytes::parity_step(pool, x),
        Shape::Bit(k, x) => bytes::bit_step(pool, k, x),
        Shape::Psw(s, z, ac, p, cy) => bytes::psw_step(pool, s, z, ac, p, cy),
        Shape::If(p, x, y) => cells::choice_step(pool, p, x, y),
        Shape::Element(m, x) => cells::element_step(pool, m, x),
        Shape::Update(m, x, y) => cells::update_step(pool, m, x, y),
        Shape::Total(m, x, y) => cells::total_step(pool, m, x, y),
        Shape::Equal(x, y) => comparisons::equality_step(pool, x, y),
        Shape::Less(x, y) => comparisons::comparison_step(pool, Relation::Less, x, y),
        Shape::LessOrEqual(x, y) => comparisons::comparison_step(pool, Relation::LessOrEqual, x, y),
        Shape::Not(p) => formulas::not_step(pool, p),
        Shape::And(p, q) => formulas::and_step(pool, p, q),
        Shape::Or(p, q) => formulas::or_step(pool, p, q),
        Shape::Implies(p, q) => formulas::implies_step(pool, p, q),
        Shape::Iff(p, q) => formulas::iff_step(pool, p, q),
        Shape::ForAll(_, x, y, p) => formulas::quantified_step(pool, true, x, y, p),
        Shape::ForSome(_, x, y, p) => formulas::quantified_step(pool, false, x, y, p),
    }
}
