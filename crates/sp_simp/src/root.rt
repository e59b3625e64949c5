//! The rules at a node, again and again.

ghost use Rattle.std.specs.Prelude.{◌≡◌, ◌<◌, ℕ, List, length, IfOk};
ghost use Rattle.sp_term.specs.Tree.{Tree};
ghost use Rattle.sp_term.specs.Pools.{tree_at, shape_tree, IsBelow, Grows, IsPlace};
ghost use Rattle.sp_simp.specs.Rules.{compared};
ghost use Rattle.sp_simp.specs.code.Plans.{part_tree, draft_tree, IsPartWithin, IsDraftWithin, IsDrawnAt, IsLedAt};

use crate::Relation;
use crate::next::next_step;
use crate::step::{Draft, Part, Step};
use sp_base::Memory;
use sp_term::{Node, Pool, Shape};

/// The place of a part.
fn place(pool: &mut Pool, part: Part) -> Result<Node, Memory>
    requires { IsPartWithin (length pool.old) part }
    ensures grows { Grows pool.old pool.new }
    ensures place { IfOk result (λ n. IsPlace pool.new (part_tree pool.old part) n.0) }
{
    match part {
        Part::Have(n) => Ok(n),
        Part::Number(c) => pool.add(Shape::Literal(c)),
        Part::Truth(b) => pool.add(Shape::Truth(b)),
    }
}

/// The places of two parts.
#[tactic(auto, using(crate::proofs::PartLemmas::parts))]
fn places(pool: &mut Pool, x: Part, y: Part) -> Result<(Node, Node), Memory>
    requires x { IsPartWithin (length pool.old) x }
    requires y { IsPartWithin (length pool.old) y }
    ensures grows { Grows pool.old pool.new }
    ensures x { IfOk result (λ r. IsPlace pool.new (part_tree pool.old x) r.0.0) }
    ensures y { IfOk result (λ r. IsPlace pool.new (part_tree pool.old y) r.1.0) }
{
    let a = place(pool, x)?;
    let b = place(pool, y)?;
    Ok((a, b))
}

/// A node over places of the pool for one over parts.
fn drawn(pool: &mut Pool, draft: Draft) -> Result<Shape, Memory>
    requires { IsDraftWithin (length pool.old) draft }
    ensures grows { Grows pool.old pool.new }
    ensures drawn { IfOk result (λ s. IsDrawnAt (draft_tree pool.old draft) pool.new s) }
{
    match draft {
        Draft::Add(x, y) => {
            let (x, y) = places(pool, x, y)?;
            Ok(Shape::Add(x, y))
        }
        Draft::Multiply(x, y) => {
            let (x, y) = places(pool, x, y)?;
            Ok(Shape::Multiply(x, y))
        }
        Draft::Remainder(x, y) => {
            let (x, y) = places(pool, x, y)?;
            Ok(Shape::Remainder(x, y))
        }
        Draft::Element(m, x) => Ok(Shape::Element(m, x)),
        Draft::Update(m, x, y) => Ok(Shape::Update(m, x, y)),
        Draft::Compare(r, x, y) => {
            let (x, y) = places(pool, x, y)?;
            Ok(comparison(r, x, y))
        }
        Draft::Not(p) => Ok(Shape::Not(p)),
    }
}

fn comparison(r: Relation, x: Node, y: Node) -> Shape
    ensures tree { (ts : List Tree) → shape_tree ts result ≡ compared r (tree_at ts x.0) (tree_at ts y.0) }
    ensures below { (n : ℕ) → x.0 < n → y.0 < n → IsBelow n result }
{
    match r {
        Relation::Equal => Shape::Equal(x, y),
        Relation::Less => Shape::Less(x, y),
        Relation::LessOrEqual => Shape::LessOrEqual(x, y),
    }
}

/// The place of what the rules lead to from a node whose parts are simple.
#[tactic(auto, using(crate::proofs::LeadLemmas::driver))]
pub fn root(pool: &mut Pool, shape: Shape) -> Result<Node, Memory>
    requires { IsBelow (length pool.old) shape }
    ensures grows { Grows pool.old pool.new }
    ensures led { IfOk result (λ n. IsLedAt (shape_tree pool.old shape) pool.new n.0) }
{
    match next_step(pool, shape) {
        Step::Stay => pool.add(shape),
        Step::Is(part) => place(pool, part),
        Step::Make(draft) => {
            let made = drawn(pool, draft)?;
            root(pool, made)
        }
        Step::MakePlus(draft, c) => {
            let made = drawn(pool, draft)?;
            let x = root(pool, made)?;
            let y = pool.add(Shape::Literal(c))?;
            root(pool, Shape::Add(x, y))
        }
        Step::MakeModulo(draft, c) => {
            let made = drawn(pool, draft)?;
            let x = root(pool, made)?;
            let y = pool.add(Shape::Literal(c))?;
            root(pool, Shape::Remainder(x, y))
        }
    }
}
