//! The simple forms of a pool's terms, each made once.

ghost use Rattle.std.specs.Prelude.{◌≡◌, ◌<◌, List, length, IfOk, IsOk, IsSome, OnErr, OnOk, Some};
ghost use Rattle.std.specs.FinMap as maps;
ghost use Rattle.sp_term.specs.Tree.{Tree};
ghost use Rattle.sp_term.specs.Pools.{tree_at, Grows};
ghost use Rattle.sp_simp.specs.Memos.{AreRight, IsSimpleAt};

use crate::root::root;
use sp_base::Memory;
use sp_term::{Node, Pool, Shape};
use std::alloc::Global;
use std::collections::BTreeMap;
use std::marker::Model;

/// For places of one pool, the places of their simple forms. A contract sees it as a finite map from places to places.
#[derive(Drop)]
pub struct Memo {
    forms: BTreeMap<usize, usize>,
}

impl Model for Memo {
    ghost use Rattle.std.specs.FinMap as maps;
    ghost use Rattle.std.specs.Coded.{coded_ℕ};
    ghost use Rattle.sp_simp.specs.Memos.{Forms};

    ghost Value = { Forms };

    ghost coded = { maps.code coded_ℕ coded_ℕ };

    ghost view = { λ m. maps.from_entries m.forms.entries };
}

impl Memo {
    /// A memo without entries. It takes no memory.
    #[tactic(auto, using(crate::proofs::MemoLemmas::right_empty))]
    pub fn new(alloc: Global) -> Memo
        ensures empty { result ≡ maps.empty }
        ensures right { (ts : List Tree) → AreRight ts result }
    {
        Memo {
            forms: BTreeMap::new(alloc),
        }
    }

    /// How many entries it has.
    pub fn len(&self) -> usize
        ensures { result ≡ maps.len self.now }
    {
        self.forms.len()
    }

    fn get(&self, n: Node) -> Option<usize>
        ensures { result ≡ maps.get self.now n.0 }
    {
        self.forms.get(&n.0).copied()
    }

    fn insert(&mut self, n: Node, r: Node) -> Result<(), Memory>
        ensures ok { OnOk result (self.new ≡ maps.insert self.old n.0 r.0) }
        ensures err { OnErr result (self.new ≡ self.old) }
    {
        let Ok(_) = self.forms.insert(n.0, r.0) else {
            return Err(Memory);
        };
        Ok(())
    }

    /// The place of the simple form of the tree at a place. Each memo is used with one pool. Where the place has an entry
    /// nothing changes; else trees are appended to the pool, and entries are added, some of them after `Memory` too.
    #[cycle(simple)]
    #[tactic(auto, using(crate::proofs::MemoLemmas::memos))]
    pub fn simple(&mut self, pool: &mut Pool, n: Node) -> Result<Node, Memory>
        requires place { n.0 < length pool.old }
        requires right { AreRight pool.old self.old }
        ensures grows { Grows pool.old pool.new }
        ensures right { AreRight pool.new self.new }
        ensures form { IfOk result (λ r. IsSimpleAt (tree_at pool.old n.0) pool.new r.0) }
        ensures entry { IfOk result (λ r. maps.get self.new n.0 ≡ Some r.0) }
        ensures had { IsSome (maps.get self.old n.0) → IsOk result }
        ensures same_memo { IsSome (maps.get self.old n.0) → self.new ≡ self.old }
        ensures same_pool { IsSome (maps.get self.old n.0) → pool.new ≡ pool.old }
    {
        match self.get(n) {
            Some(r) => Ok(Node(r)),
            None => {
                let r = self.fresh(pool, n)?;
                self.insert(n, r)?;
                Ok(r)
            }
        }
    }

    /// The simple forms of two trees.
    #[cycle(simple)]
    #[tactic(auto, using(crate::proofs::MemoLemmas::forms))]
    fn two(&mut self, pool: &mut Pool, x: Node, y: Node) -> Result<(Node, Node), Memory>
        requires x { x.0 < length pool.old }
        requires y { y.0 < length pool.old }
        requires right { AreRight pool.old self.old }
        ensures grows { Grows pool.old pool.new }
        ensures right { AreRight pool.new self.new }
        ensures x { IfOk result (λ r. IsSimpleAt (tree_at pool.old x.0) pool.new r.0.0) }
        ensures y { IfOk result (λ r. IsSimpleAt (tree_at pool.old y.0) pool.new r.1.0) }
    {
        let a = self.simple(pool, x)?;
        let b = self.simple(pool, y)?;
        Ok((a, b))
    }

    /// The simple forms of three trees.
    #[cycle(simple)]
    #[tactic(auto, using(crate::proofs::MemoLemmas::forms))]
    fn three(
        &mut self,
        pool: &mut Pool,
        x: Node,
        y: Node,
        z: Node,
    ) -> Result<(Node, Node, Node), Memory>
        requires x { x.0 < length pool.old }
        requires y { y.0 < length pool.old }
        requires z { z.0 < length pool.old }
        requires right { AreRight pool.old self.old }
        ensures grows { Grows pool.old pool.new }
        ensures right { AreRight pool.new self.new }
        ensures x { IfOk result (λ r. IsSimpleAt (tree_at pool.old x.0) pool.new r.0.0) }
        ensures y { IfOk result (λ r. IsSimpleAt (tree_at pool.old y.0) pool.new r.1.0) }
        ensures z { IfOk result (λ r. IsSimpleAt (tree_at pool.old z.0) pool.new r.2.0) }
    {
        let (a, b) = self.two(pool, x, y)?;
        let c = self.simple(pool, z)?;
        Ok((a, b, c))
    }

    /// The simple forms of five trees.
    #[cycle(simple)]
    #[tactic(auto, using(crate::proofs::MemoLemmas::forms))]
    fn five(
        &mut self,
        pool: &mut Pool,
        x: Node,
        y: Node,
        z: Node,
        u: Node,
        w: Node,
    ) -> Result<(Node, Node, Node, Node, Node), Memory>
        requires x { x.0 < length pool.old }
        requires y { y.0 < length pool.old }
        requires z { z.0 < length pool.old }
        requires u { u.0 < length pool.old }
        requires w { w.0 < length pool.old }
        requires right { AreRight pool.old self.old }
        ensures grows { Grows pool.old pool.new }
        ensures right { AreRight pool.new self.new }
        ensures x { IfOk result (λ r. IsSimpleAt (tree_at pool.old x.0) pool.new r.0.0) }
        ensures y { IfOk result (λ r. IsSimpleAt (tree_at pool.old y.0) pool.new r.1.0) }
        ensures z { IfOk result (λ r. IsSimpleAt (tree_at pool.old z.0) pool.new r.2.0) }
        ensures u { IfOk result (λ r. IsSimpleAt (tree_at pool.old u.0) pool.new r.3.0) }
        ensures w { IfOk result (λ r. IsSimpleAt (tree_at pool.old w.0) pool.new r.4.0) }
    {
        let (a, b, c) = self.three(pool, x, y, z)?;
        let (d, e) = self.two(pool, u, w)?;
        Ok((a, b, c, d, e))
    }

    /// The simple form of a node, from those of its parts.
    #[cycle(simple)]
    #[tactic(auto, using(crate::proofs::MemoLemmas::forms))]
    fn fresh(&mut self, pool: &mut Pool, n: Node) -> Result<Node, Memory>
        requires place { n.0 < length pool.old }
        requires right { AreRight pool.old self.old }
        ensures grows { Grows pool.old pool.new }
        ensures right { AreRight pool.new self.new }
        ensures form { IfOk result (λ r. IsSimpleAt (tree_at pool.old n.0) pool.new r.0) }
    {
        match pool.shape(n) {
            Shape::Literal(_) | Shape::Truth(_) | Shape::Variable(_) => Ok(n),
            Shape::Add(x, y) => {
                let (x, y) = self.two(pool, x, y)?;
                root(pool, Shape::Add(x, y))
            }
            Shape::Subtract(x, y) => {
                let (x, y) = self.two(pool, x, y)?;
                root(pool, Shape::Subtract(x, y))
            }
            Shape::Multiply(x, y) => {
                let (x, y) = self.two(pool, x, y)?;
                root(pool, Shape::Multiply(x, y))
            }
            Shape::Divide(x, y) => {
                let (x, y) = self.two(pool, x, y)?;
                root(pool, Shape::Divide(x, y))
            }
            Shape::Remainder(x, y) => {
                let (x, y) = self.two(pool, x, y)?;
                root(pool, Shape::Remainder(x, y))
            }
            Shape::ByteAnd(x, y) => {
                let (x, y) = self.two(pool, x, y)?;
                root(pool, Shape::ByteAnd(x, y))
            }
            Shape::ByteOr(x, y) => {
                let (x, y) = self.two(pool, x, y)?;
                root(pool, Shape::ByteOr(x, y))
            }
            Shape::ByteXor(x, y) => {
                let (x, y) = self.two(pool, x, y)?;
                root(pool, Shape::ByteXor(x, y))
            }
            Shape::Parity(x) => {
                let x = self.simple(pool, x)?;
                root(pool, Shape::Parity(x))
            }
            Shape::Bit(k, x) => {
                let x = self.simple(pool, x)?;
                root(pool, Shape::Bit(k, x))
            }
            Shape::Psw(x, y, z, u, w) => {
                let (x, y, z, u, w) = self.five(pool, x, y, z, u, w)?;
                root(pool, Shape::Psw(x, y, z, u, w))
            }
            Shape::If(x, y, z) => {
                let (x, y, z) = self.three(pool, x, y, z)?;
                root(pool, Shape::If(x, y, z))
            }
            Shape::Element(x, y) => {
                let (x, y) = self.two(pool, x, y)?;
                root(pool, Shape::Element(x, y))
            }
            Shape::Update(x, y, z) => {
                let (x, y, z) = self.three(pool, x, y, z)?;
                root(pool, Shape::Update(x, y, z))
            }
            Shape::Total(x, y, z) => {
                let (x, y, z) = self.three(pool, x, y, z)?;
                root(pool, Shape::Total(x, y, z))
            }
            Shape::Equal(x, y) => {
                let (x, y) = self.two(pool, x, y)?;
                root(pool, Shape::Equal(x, y))
            }
            Shape::Less(x, y) => {
                let (x, y) = self.two(pool, x, y)?;
                root(pool, Shape::Less(x, y))
            }
            Shape::LessOrEqual(x, y) => {
                let (x, y) = self.two(pool, x, y)?;
                root(pool, Shape::LessOrEqual(x, y))
            }
            Shape::Not(x) => {
                let x = self.simple(pool, x)?;
                root(pool, Shape::Not(x))
            }
            Shape::And(x, y) => {
                let (x, y) = self.two(pool, x, y)?;
                root(pool, Shape::And(x, y))
            }
            Shape::Or(x, y) => {
                let (x, y) = self.two(pool, x, y)?;
                root(pool, Shape::Or(x, y))
            }
            Shape::Implies(x, y) => {
                let (x, y) = self.two(pool, x, y)?;
                root(pool, Shape::Implies(x, y))
            }
            Shape::Iff(x, y) => {
                let (x, y) = self.two(pool, x, y)?;
                root(pool, Shape::Iff(x, y))
            }
            Shape::ForAll(k, x, y, z) => {
                let (x, y, z) = self.three(pool, x, y, z)?;
                root(pool, Shape::ForAll(k, x, y, z))
            }
            Shape::ForSome(k, x, y, z) => {
                let (x, y, z) = self.three(pool, x, y, z)?;
                root(pool, Shape::ForSome(k, x, y, z))
            }
        }
    }
}
