ghost use Rattle.std.specs.Prelude.{◌≡◌, ◌<◌, ◌↔◌, ◌++◌, ◌∷◌, [], length, IfOk, IfSome, IfNone, OnErr, IsTrue};
ghost use Rattle.sp_term.specs.Terms.{tree_of};
ghost use Rattle.sp_term.specs.Intervals.{interval, literal as literal_of, is_memory_variable};
ghost use Rattle.sp_term.specs.Pools.{tree_at, shape_tree, IsBelow, IsDistinct, Grows, IsPlace, IsAdded, IsAbsent};

use crate::interval::{
    hull, is_memory, of_difference, of_multiple, of_quotient, of_remainder, of_sum, of_total,
    of_variable,
};
use crate::{Interval, Kind, Node, Shape, Term, make};
use bumpalo::Bump;
use indexmap::IndexMap;
use sp_base::Memory;
use std::alloc::Global;
use std::marker::Model;

/// What a pool keeps of a node: its term, and the interval of its tree.
#[derive(Clone, Copy)]
pub struct Entry<'a> {
    term: &'a Term<'a>,
    span: Option<Interval>,
}

/// Nodes, each shape once and each after its parts. A contract sees it as the list of their trees.
#[derive(Drop)]
pub struct Pool<'a> {
    arena: &'a Bump,
    table: IndexMap<Shape, Entry<'a>>,
}

impl<'a> Model for Pool<'a> {
    ghost use Rattle.std.specs.Prelude.{List};
    ghost use Rattle.std.specs.Coded.{coded_list};
    ghost use Rattle.sp_term.specs.Tree.{Tree};
    ghost use Rattle.sp_term.specs.code.TreeCode.{tree_code};

    ghost Value = { List Tree };

    ghost coded = { coded_list tree_code };

    ghost use Rattle.sp_term.specs.code.Table.{trees_in, IsTable};

    ghost view = { λ p. trees_in p.table.entries };

    ghost invariant = { λ p. IsTable p.table.entries };
}

impl<'a> Pool<'a> {
    /// A pool without nodes. It takes no memory.
    pub fn new(alloc: Global, arena: &'a Bump) -> Pool<'a>
        ensures { result ≡ [] }
    {
        Pool {
            arena,
            table: IndexMap::new(alloc),
        }
    }

    /// How many nodes it has.
    pub fn len(&self) -> usize
        ensures { result ≡ length self.now }
    {
        self.table.len()
    }

    /// The tree at a place.
    pub fn term(&self, n: Node) -> &'a Term<'a>
        requires { n.0 < length self.now }
        ensures { result.now ≡ tree_at self.now n.0 }
    {
        self.entry(n).term
    }

    /// The interval of the tree at a place. It was found when the node was added.
    pub fn span(&self, n: Node) -> Option<Interval>
        requires { n.0 < length self.now }
        ensures { result ≡ interval (tree_at self.now n.0) }
    {
        self.entry(n).span
    }

    /// The number at a place, if a literal stands there.
    pub fn literal(&self, n: Node) -> Option<i64>
        requires { n.0 < length self.now }
        ensures { result ≡ literal_of (tree_at self.now n.0) }
    {
        match self.term(n).kind() {
            Kind::Literal(c) => Some(*c),
            _ => None,
        }
    }

    fn is_memory_variable(&self, n: Node) -> bool
        requires { n.0 < length self.now }
        ensures { result ≡ is_memory_variable (tree_at self.now n.0) }
    {
        match self.term(n).kind() {
            Kind::Variable(v) => is_memory(*v),
            _ => false,
        }
    }

    #[tactic(auto, using(crate::proofs::TableLemmas::entry_span))]
    fn entry(&self, n: Node) -> Entry<'a>
        requires { n.0 < length self.now }
        ensures term { result.term.now ≡ tree_at self.now n.0 }
        ensures span { result.span ≡ interval (tree_at self.now n.0) }
    {
        match self.table.get_index(n.0) {
            Some((_, entry)) => *entry,
            None => unreachable!(),
        }
    }

    /// The node at a place. Its parts stand below it.
    #[tactic(auto, using(crate::proofs::TableLemmas::entry_shape, crate::proofs::TableLemmas::entry_below))]
    pub fn shape(&self, n: Node) -> Shape
        requires { n.0 < length self.now }
        ensures tree { shape_tree self.now result ≡ tree_at self.now n.0 }
        ensures below { IsBelow n.0 result }
    {
        match self.table.get_index(n.0) {
            Some((shape, _)) => *shape,
            None => unreachable!(),
        }
    }

    /// Whether two places have one tree.
    #[tactic(auto, using(crate::proofs::TableLemmas::one_place))]
    pub fn same(&self, x: Node, y: Node) -> bool
        requires x { x.0 < length self.now }
        requires y { y.0 < length self.now }
        ensures { IsTrue result ↔ (tree_at self.now x.0 ≡ tree_at self.now y.0) }
    {
        let _ = &self.table;
        x.0 == y.0
    }

    /// No two places have one tree.
    #[tactic(auto, using(crate::proofs::TableLemmas::distinct_trees))]
    pub fn distinct(&self)
        ensures { IsDistinct self.now }
    {
        let _ = &self.table;
    }

    /// The node with the terms of its parts.
    fn kind(&self, shape: Shape) -> Kind<'a>
        requires { IsBelow (length self.now) shape }
        ensures { tree_of result ≡ shape_tree self.now shape }
    {
        match shape {
            Shape::Literal(n) => Kind::Literal(n),
            Shape::Truth(b) => Kind::Truth(b),
            Shape::Variable(w) => Kind::Variable(w),
            Shape::Add(x, y) => Kind::Add(self.term(x), self.term(y)),
            Shape::Subtract(x, y) => Kind::Subtract(self.term(x), self.term(y)),
            Shape::Multiply(x, y) => Kind::Multiply(self.term(x), self.term(y)),
            Shape::Divide(x, y) => Kind::Divide(self.term(x), self.term(y)),
            Shape::Remainder(x, y) => Kind::Remainder(self.term(x), self.term(y)),
            Shape::ByteAnd(x, y) => Kind::ByteAnd(self.term(x), self.term(y)),
            Shape::ByteOr(x, y) => Kind::ByteOr(self.term(x), self.term(y)),
            Shape::ByteXor(x, y) => Kind::ByteXor(self.term(x), self.term(y)),
            Shape::Parity(x) => Kind::Parity(self.term(x)),
            Shape::Bit(k, x) => Kind::Bit(k, self.term(x)),
            Shape::Psw(s, z, ac, p, cy) => Kind::Psw(
                self.term(s),
                self.term(z),
                self.term(ac),
                self.term(p),
                self.term(cy),
            ),
            Shape::If(p, x, y) => Kind::If(self.term(p), self.term(x), self.term(y)),
            Shape::Element(m, x) => Kind::Element(self.term(m), self.term(x)),
            Shape::Update(m, x, y) => Kind::Update(self.term(m), self.term(x), self.term(y)),
            Shape::Total(m, x, y) => Kind::Total(self.term(m), self.term(x), self.term(y)),
            Shape::Equal(x, y) => Kind::Equal(self.term(x), self.term(y)),
            Shape::Less(x, y) => Kind::Less(self.term(x), self.term(y)),
            Shape::LessOrEqual(x, y) => Kind::LessOrEqual(self.term(x), self.term(y)),
            Shape::Not(p) => Kind::Not(self.term(p)),
            Shape::And(p, q) => Kind::And(self.term(p), self.term(q)),
            Shape::Or(p, q) => Kind::Or(self.term(p), self.term(q)),
            Shape::Implies(p, q) => Kind::Implies(self.term(p), self.term(q)),
            Shape::Iff(p, q) => Kind::Iff(self.term(p), self.term(q)),
            Shape::ForAll(k, x, y, p) => Kind::ForAll(k, self.term(x), self.term(y), self.term(p)),
            Shape::ForSome(k, x, y, p) => Kind::ForSome(
                k,
                self.term(x),
                self.term(y),
                self.term(p),
            ),
        }
    }

    /// The interval of a node.
    fn shape_span(&self, shape: Shape) -> Option<Interval>
        requires { IsBelow (length self.now) shape }
        ensures { result ≡ interval (shape_tree self.now shape) }
    {
        match shape {
            Shape::Literal(n) => Some(Interval { low: n, high: n }),
            Shape::Variable(v) => of_variable(v),
            Shape::Add(x, y) => of_sum(self.span(x), self.span(y)),
            Shape::Subtract(x, y) => of_difference(self.span(x), self.span(y)),
            Shape::Multiply(x, y) => of_multiple(self.literal(x), self.span(y)),
            Shape::Divide(x, y) => of_quotient(self.span(x), self.literal(y)),
            Shape::Remainder(_, y) => of_remainder(self.literal(y)),
            Shape::ByteAnd(_, _) | Shape::ByteOr(_, _) | Shape::ByteXor(_, _) => {
                Some(Interval { low: 0, high: 255 })
            }
            Shape::Parity(_) | Shape::Bit(_, _) => Some(Interval { low: 0, high: 1 }),
            Shape::Psw(_, _, _, _, _) => Some(Interval { low: 2, high: 215 }),
            Shape::If(_, x, y) | Shape::Update(x, _, y) => hull(self.span(x), self.span(y)),
            Shape::Element(m, _) => self.span(m),
            Shape::Total(m, _, _) => of_total(self.is_memory_variable(m)),
            _ => None,
        }
    }

    /// The place of a node, if it stands in the pool.
    #[tactic(auto, using(crate::proofs::FindLemmas::found_place, crate::proofs::FindLemmas::absent_place))]
    fn find(&self, shape: Shape) -> Option<usize>
        requires { IsBelow (length self.now) shape }
        ensures found { IfSome result (λ n. IsPlace self.now (shape_tree self.now shape) n) }
        ensures absent { IfNone result (IsAbsent self.now (shape_tree self.now shape)) }
    {
        self.table.get_index_of(&shape)
    }

    /// Appends a node that doesn't stand in the pool.
    #[tactic(auto, using(crate::proofs::FindLemmas::push_table, crate::proofs::FindLemmas::push_trees))]
    fn push(&mut self, shape: Shape, entry: Entry<'a>) -> Result<(), Memory>
        requires below { IsBelow (length self.old) shape }
        requires absent { IsAbsent self.old (shape_tree self.old shape) }
        requires term { entry.term.now ≡ shape_tree self.old shape }
        requires span { entry.span ≡ interval (shape_tree self.old shape) }
        ensures pushed { IfOk result (λ _. self.new ≡ self.old ++ shape_tree self.old shape ∷ []) }
        ensures err { OnErr result (self.new ≡ self.old) }
    {
        let Ok(_) = self.table.insert(shape, entry) else {
            return Err(Memory);
        };
        Ok(())
    }

    /// The place of a node. Where it doesn't stand in the pool yet it is appended. After `Memory` the pool is as before.
    pub fn add(&mut self, shape: Shape) -> Result<Node, Memory>
        requires { IsBelow (length self.old) shape }
        ensures added { IfOk result (λ n. IsAdded self.old (shape_tree self.old shape) self.new n.0) }
        ensures grows { Grows self.old self.new }
        ensures place { IfOk result (λ n. IsPlace self.new (shape_tree self.old shape) n.0) }
        ensures err { OnErr result (self.new ≡ self.old) }
    {
        if let Some(n) = self.find(shape) {
            return Ok(Node(n));
        }
        let span = self.shape_span(shape);
        let term = make(self.arena, self.kind(shape))?;
        let n = self.len();
        self.push(shape, Entry { term, span })?;
        Ok(Node(n))
    }
}
