//! The formulas of a condition that are left, each once.

ghost use Rattle.std.specs.Prelude.{◌≡◌, ◌<◌, ◌≤◌, [], ◌++◌, length, take, drop, true, false, IfOk, IfSome};
ghost use Rattle.sp_term.specs.Conditions.{trees};
ghost use Rattle.sp_term.specs.Tree.{Truth};
ghost use Rattle.sp_term.specs.Pools.{tree_at, IsDistinct};
ghost use Rattle.sp_simp.specs.Same.{tree_eq};
ghost use Rattle.sp_simp.specs.Simplified.{conjuncts, all_conjuncts, goals_left};
ghost use Rattle.sp_simp.specs.code.Marks.{conjunction as conjunction_of, conjunction_at, kept_with, with_one, left, trees_at, AreWithin, IsKept};

use crate::roots::truth;
use bumpalo::Bump;
use bumpalo::collections::into_bump_slice;
use sp_base::Memory;
use sp_term::{Node, Pool, Shape, Term};
use std::alloc::Global;

/// The formulas, the marks of their places in a pool, and whether `false` is among them.
#[derive(Drop)]
pub struct Kept<'a> {
    terms: Vec<&'a Term<'a>, &'a Bump>,
    marks: Vec<bool>,
    contradiction: bool,
}

/// The two sides of an `and`.
fn conjunction(pool: &Pool, n: Node) -> Option<(Node, Node)>
    requires { n.0 < length pool.now }
    ensures is { conjunction_at pool.now result ≡ conjunction_of (tree_at pool.now n.0) }
    ensures first { IfSome result (λ p. p.0.0 < n.0) }
    ensures second { IfSome result (λ p. p.1.0 < n.0) }
{
    match pool.shape(n) {
        Shape::And(p, q) => Some((p, q)),
        _ => None,
    }
}

#[tactic(auto, using(crate::proofs::MarkLemmas::tests))]
fn is_true(pool: &Pool, n: Node) -> bool
    requires { n.0 < length pool.now }
    ensures { result ≡ tree_eq (Truth true) (tree_at pool.now n.0) }
{
    match truth(pool, n) {
        Some(b) => b,
        None => false,
    }
}

#[tactic(auto, using(crate::proofs::MarkLemmas::tests))]
fn is_false(pool: &Pool, n: Node) -> bool
    requires { n.0 < length pool.now }
    ensures { result ≡ tree_eq (tree_at pool.now n.0) (Truth false) }
{
    match truth(pool, n) {
        Some(b) => !b,
        None => false,
    }
}

impl<'a> Kept<'a> {
    /// Nothing is left yet, of formulas of a pool.
    pub fn new(alloc: Global, arena: &'a Bump, pool: &Pool<'a>) -> Result<Kept<'a>, Memory>
        ensures none { IfOk result (λ k. left k ≡ []) }
        ensures kept { IfOk result (λ k. IsKept pool.now k) }
    {
        Ok(Kept {
            terms: Vec::new(arena),
            marks: Vec::from_elem(alloc, false, pool.len())?,
            contradiction: false,
        })
    }

    /// Adds a formula, where it isn't there.
    fn add(&mut self, pool: &Pool<'a>, n: Node) -> Result<(), Memory>
        requires place { n.0 < length pool.now }
        requires distinct { IsDistinct pool.now }
        requires kept { IsKept pool.now self.old }
        ensures left { IfOk result (λ _. left self.new ≡ with_one (left self.old) (tree_at pool.now n.0)) }
        ensures kept { IfOk result (λ _. IsKept pool.now self.new) }
    {
        if self.marks[n.0] {
            return Ok(());
        }
        self.terms.push(pool.term(n))?;
        self.marks[n.0] = true;
        self.contradiction |= is_false(pool, n);
        Ok(())
    }

    /// Adds what an `and` joins, but what is true or is there.
    #[tactic(auto, using(crate::proofs::MarkLemmas::keeping))]
    pub fn keep(&mut self, pool: &Pool<'a>, n: Node) -> Result<(), Memory>
        requires place { n.0 < length pool.now }
        requires distinct { IsDistinct pool.now }
        requires kept { IsKept pool.now self.old }
        ensures left { IfOk result (λ _. left self.new ≡ kept_with (left self.old) (conjuncts (tree_at pool.now n.0))) }
        ensures kept { IfOk result (λ _. IsKept pool.now self.new) }
    {
        match conjunction(pool, n) {
            Some((p, q)) => {
                self.keep(pool, p)?;
                self.keep(pool, q)
            }
            None => {
                if is_true(pool, n) {
                    Ok(())
                } else {
                    self.add(pool, n)
                }
            }
        }
    }

    /// Adds what formulas join, but what is true or is there.
    pub fn keep_all(&mut self, pool: &Pool<'a>, ns: &[Node]) -> Result<(), Memory>
        requires places { AreWithin (length pool.now) ns.now }
        requires distinct { IsDistinct pool.now }
        requires kept { IsKept pool.now self.old }
        ensures left { IfOk result (λ _. left self.new ≡ kept_with (left self.old) (all_conjuncts (trees_at pool.now ns.now))) }
        ensures kept { IfOk result (λ _. IsKept pool.now self.new) }
    {
        for n in ns {
            self.keep(pool, *n)?;
        }
        Ok(())
    }

    /// Adds the goals that formulas join: none where a hypothesis is false, and else those that are neither true nor there.
    pub fn keep_goals(&mut self, pool: &Pool<'a>, ns: &[Node]) -> Result<(), Memory>
        requires places { AreWithin (length pool.now) ns.now }
        requires distinct { IsDistinct pool.now }
        requires kept { IsKept pool.now self.old }
        ensures { IfOk result (λ _. left self.new ≡ left self.old ++ goals_left (left self.old) (all_conjuncts (trees_at pool.now ns.now))) }
    {
        if self.contradiction {
            return Ok(());
        }
        self.keep_all(pool, ns)?;
        Ok(())
    }

    /// How many formulas are left.
    pub fn len(&self) -> usize
        ensures { result ≡ length (left self.now) }
    {
        self.terms.len()
    }

    /// The first formulas, and those after them.
    pub fn into_parts(self, count: usize) -> (&'a [&'a Term<'a>], &'a [&'a Term<'a>])
        requires { count ≤ length (left self) }
        ensures first { trees result.0.now ≡ take count (left self.entry) }
        ensures rest { trees result.1.now ≡ drop count (left self.entry) }
    {
        into_bump_slice(self.terms).split_at(count)
    }
}
