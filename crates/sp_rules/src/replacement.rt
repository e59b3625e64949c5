//! One tree in the places of another one, over a pool: what each tree of the pool becomes is found once.

ghost use Rattle.std.specs.Prelude.{◌≡◌, ◌<◌, ◌++◌, ◌∷◌, [], length, IfOk, OnOk};
ghost use Rattle.sp_term.specs.Pools.{tree_at, shape_tree, IsBelow, Grows, IsPlace};
ghost use Rattle.sp_steps.specs.Rewriting.{stands_in_tree, rewritten};
ghost use Rattle.sp_rules.specs.code.Rewritten.{from_tree, to_tree, with_new_parts, stands_in_parts, rewritten_where, now_if, IsReplacement, IsMore, IsDone};

use bumpalo::Bump;
use sp_base::Memory;
use sp_term::{Node, Pool, Shape, Term};
use std::alloc::Global;

/// A pool, the place of the tree that is replaced and of the one that comes for it, and of each of the first trees the
/// place of what it becomes and whether the tree that is replaced stands in it.
#[derive(Drop)]
struct Replacement<'a> {
    pool: Pool<'a>,
    from: Node,
    to: Node,
    places: Vec<usize>,
    marks: Vec<bool>,
}

impl<'a> Replacement<'a> {
    /// What the tree at a place becomes.
    fn at(&self, n: Node) -> Node
        requires replacement { IsReplacement self.now }
        requires place { n.0 < length self.now.places.items }
        ensures { IsPlace self.now.pool (rewritten (from_tree self.now) (to_tree self.now) (tree_at self.now.pool n.0)) result.0 }
    {
        Node(self.places[n.0])
    }

    /// Whether the tree that is replaced stands in the one at a place.
    fn has(&self, n: Node) -> bool
        requires replacement { IsReplacement self.now }
        requires place { n.0 < length self.now.places.items }
        ensures { result ≡ stands_in_tree (from_tree self.now) (tree_at self.now.pool n.0) }
    {
        self.marks[n.0]
    }

    /// A node with what its parts become.
    fn with_parts(&self, shape: Shape) -> Shape
        requires replacement { IsReplacement self.now }
        requires parts { IsBelow (length self.now.places.items) shape }
        ensures below { IsBelow (length self.now.pool) result }
        ensures tree { shape_tree self.now.pool result ≡ with_new_parts (from_tree self.now) (to_tree self.now) (shape_tree self.now.pool shape) }
    {
        match shape {
            Shape::Literal(_) | Shape::Truth(_) | Shape::Variable(_) => shape,
            Shape::Add(x, y) => Shape::Add(self.at(x), self.at(y)),
            Shape::Subtract(x, y) => Shape::Subtract(self.at(x), self.at(y)),
            Shape::Multiply(x, y) => Shape::Multiply(self.at(x), self.at(y)),
            Shape::Divide(x, y) => Shape::Divide(self.at(x), self.at(y)),
            Shape::Remainder(x, y) => Shape::Remainder(self.at(x), self.at(y)),
            Shape::ByteAnd(x, y) => Shape::ByteAnd(self.at(x), self.at(y)),
            Shape::ByteOr(x, y) => Shape::ByteOr(self.at(x), self.at(y)),
            Shape::ByteXor(x, y) => Shape::ByteXor(self.at(x), self.at(y)),
            Shape::Parity(x) => Shape::Parity(self.at(x)),
            Shape::Bit(k, x) => Shape::Bit(k, self.at(x)),
            Shape::Psw(x, y, z, u, w) => Shape::Psw(
                self.at(x),
                self.at(y),
                self.at(z),
                self.at(u),
                self.at(w),
            ),
            Shape::If(x, y, z) => Shape::If(self.at(x), self.at(y), self.at(z)),
            Shape::Element(x, y) => Shape::Element(self.at(x), self.at(y)),
            Shape::Update(x, y, z) => Shape::Update(self.at(x), self.at(y), self.at(z)),
            Shape::Total(x, y, z) => Shape::Total(self.at(x), self.at(y), self.at(z)),
            Shape::Equal(x, y) => Shape::Equal(self.at(x), self.at(y)),
            Shape::Less(x, y) => Shape::Less(self.at(x), self.at(y)),
            Shape::LessOrEqual(x, y) => Shape::LessOrEqual(self.at(x), self.at(y)),
            Shape::Not(x) => Shape::Not(self.at(x)),
            Shape::And(x, y) => Shape::And(self.at(x), self.at(y)),
            Shape::Or(x, y) => Shape::Or(self.at(x), self.at(y)),
            Shape::Implies(x, y) => Shape::Implies(self.at(x), self.at(y)),
            Shape::Iff(x, y) => Shape::Iff(self.at(x), self.at(y)),
            Shape::ForAll(k, x, y, z) => Shape::ForAll(k, self.at(x), self.at(y), self.at(z)),
            Shape::ForSome(k, x, y, z) => Shape::ForSome(k, self.at(x), self.at(y), self.at(z)),
        }
    }

    /// Whether the tree that is replaced stands in a part of a node.
    fn parts_have(&self, shape: Shape) -> bool
        requires replacement { IsReplacement self.now }
        requires parts { IsBelow (length self.now.places.items) shape }
        ensures { result ≡ stands_in_parts (from_tree self.now) (shape_tree self.now.pool shape) }
    {
        match shape {
            Shape::Literal(_) | Shape::Truth(_) | Shape::Variable(_) => false,
            Shape::Add(x, y) => self.has(x) || self.has(y),
            Shape::Subtract(x, y) => self.has(x) || self.has(y),
            Shape::Multiply(x, y) => self.has(x) || self.has(y),
            Shape::Divide(x, y) => self.has(x) || self.has(y),
            Shape::Remainder(x, y) => self.has(x) || self.has(y),
            Shape::ByteAnd(x, y) => self.has(x) || self.has(y),
            Shape::ByteOr(x, y) => self.has(x) || self.has(y),
            Shape::ByteXor(x, y) => self.has(x) || self.has(y),
            Shape::Parity(x) => self.has(x),
            Shape::Bit(_, x) => self.has(x),
            Shape::Psw(x, y, z, u, w) => self.has(x)
                || self.has(y)
                || self.has(z)
                || self.has(u)
                || self.has(w),
            Shape::If(x, y, z) => self.has(x) || self.has(y) || self.has(z),
            Shape::Element(x, y) => self.has(x) || self.has(y),
            Shape::Update(x, y, z) => self.has(x) || self.has(y) || self.has(z),
            Shape::Total(x, y, z) => self.has(x) || self.has(y) || self.has(z),
            Shape::Equal(x, y) => self.has(x) || self.has(y),
            Shape::Less(x, y) => self.has(x) || self.has(y),
            Shape::LessOrEqual(x, y) => self.has(x) || self.has(y),
            Shape::Not(x) => self.has(x),
            Shape::And(x, y) => self.has(x) || self.has(y),
            Shape::Or(x, y) => self.has(x) || self.has(y),
            Shape::Implies(x, y) => self.has(x) || self.has(y),
            Shape::Iff(x, y) => self.has(x) || self.has(y),
            Shape::ForAll(_, x, y, z) => self.has(x) || self.has(y) || self.has(z),
            Shape::ForSome(_, x, y, z) => self.has(x) || self.has(y) || self.has(z),
        }
    }

    /// What one more tree becomes.
    fn push(&mut self, place: Node, mark: bool) -> Result<(), Memory>
        ensures places { OnOk result (self.new.places.items ≡ self.old.places.items ++ place.0 ∷ []) }
        ensures marks { OnOk result (self.new.marks.items ≡ self.old.marks.items ++ mark ∷ []) }
        ensures pool { self.new.pool ≡ self.old.pool }
        ensures from { self.new.from ≡ self.old.from }
        ensures to { self.new.to ≡ self.old.to }
    {
        self.places.push(place.0)?;
        self.marks.push(mark)?;
        Ok(())
    }

    /// Finds what the next tree becomes.
    fn go_on(&mut self) -> Result<(), Memory>
        requires replacement { IsReplacement self.old }
        requires more { length self.old.places.items < length self.old.pool }
        ensures { OnOk result (IsMore self.old self.new) }
    {
        let n = Node(self.places.len());
        if self.pool.same(n, self.from) {
            self.push(self.to, true)?;
            return Ok(());
        }
        let shape = self.pool.shape(n);
        let mark = self.parts_have(shape);
        let shape = self.with_parts(shape);
        let place = self.pool.add(shape)?;
        self.push(place, mark)?;
        Ok(())
    }

    /// Finds what the trees up to a place become.
    fn go_to(&mut self, n: Node) -> Result<(), Memory>
        requires replacement { IsReplacement self.old }
        requires place { n.0 < length self.old.pool }
        ensures { OnOk result (IsDone self.old n.0 self.new) }
    {
        'trees: while self.places.len() <= n.0 {
            self.go_on()?;
        }
        Ok(())
    }

    /// What the tree at a place becomes, where the tree that is replaced stands in it.
    fn found(&self, n: Node) -> Option<&'a Term<'a>>
        requires replacement { IsReplacement self.now }
        requires place { n.0 < length self.now.places.items }
        ensures { now_if result ≡ rewritten_where (from_tree self.now) (to_tree self.now) (tree_at self.now.pool n.0) }
    {
        if self.has(n) {
            Some(self.pool.term(self.at(n)))
        } else {
            None
        }
    }
}

/// A term with one tree in each outermost place of another one, if there is a place.
pub fn replaced<'a>(
    alloc: Global,
    arena: &'a Bump,
    t: &'a Term<'a>,
    x: &'a Term<'a>,
    y: &'a Term<'a>,
) -> Result<Option<&'a Term<'a>>, Memory>
    ensures { IfOk result (λ r. now_if r ≡ rewritten_where x.now y.now t.now) }
{
    let mut pool = Pool::new(alloc, arena);
    let n = pool.take(t)?;
    let from = pool.take(x)?;
    let to = pool.take(y)?;
    let mut replacement = Replacement {
        pool,
        from,
        to,
        places: Vec::new(alloc),
        marks: Vec::new(alloc),
    };
    replacement.go_to(n)?;
    Ok(replacement.found(n))
}
