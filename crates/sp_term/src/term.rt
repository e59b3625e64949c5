ghost use Rattle.std.specs.Prelude.{◌≡◌, ◌-◌, ◌^◌, ◌↔◌, min, IfOk, IsTrue};
ghost use Rattle.sp_term.specs.Tree.{nodes, depth_of};
ghost use Rattle.sp_term.specs.Terms.{tree_of};

use crate::Var;
use bumpalo::Bump;
use sp_base::Memory;
use std::marker::Model;

/// A term, a formula or a memory: a node of an arena. A contract sees it as its whole tree, however nodes are shared.
#[cycle(term)]
#[derive(Drop)]
pub struct Term<'a> {
    kind: Kind<'a>,
    size: u64,
    depth: u32,
}

/// A node with its parts.
#[cycle(term)]
#[derive(Drop)]
pub enum Kind<'a> {
    /// A decimal literal.
    Literal(i64),
    /// `true` or `false`.
    Truth(bool),
    /// A variable.
    Variable(Var),
    /// `(x + y)`
    Add(&'a Term<'a>, &'a Term<'a>),
    /// `(x - y)`
    Subtract(&'a Term<'a>, &'a Term<'a>),
    /// `(x * y)`
    Multiply(&'a Term<'a>, &'a Term<'a>),
    /// `(x div y)`, rounded down, 0 by 0.
    Divide(&'a Term<'a>, &'a Term<'a>),
    /// `(x mod y)`, of the sign of y, 0 by 0.
    Remainder(&'a Term<'a>, &'a Term<'a>),
    /// `band(x,y)`, of the numbers modulo 256.
    ByteAnd(&'a Term<'a>, &'a Term<'a>),
    /// `bor(x,y)`, of the numbers modulo 256.
    ByteOr(&'a Term<'a>, &'a Term<'a>),
    /// `bxor(x,y)`, of the numbers modulo 256.
    ByteXor(&'a Term<'a>, &'a Term<'a>),
    /// `par(x)`: 1 where x modulo 256 has an even number of ones.
    Parity(&'a Term<'a>),
    /// `bit(k,x)`: bit k of x, k from 0 to 7.
    Bit(u8, &'a Term<'a>),
    /// `psw(s,z,ac,p,cy)`: the flags as a byte.
    Psw(&'a Term<'a>, &'a Term<'a>, &'a Term<'a>, &'a Term<'a>, &'a Term<'a>),
    /// `if(p,x,y)`: x where p is true, else y.
    If(&'a Term<'a>, &'a Term<'a>, &'a Term<'a>),
    /// `element(m,[x])`: what the memory m has at x.
    Element(&'a Term<'a>, &'a Term<'a>),
    /// `update(m,[x],y)`: the memory m with y at x.
    Update(&'a Term<'a>, &'a Term<'a>, &'a Term<'a>),
    /// `total(m,[x],[y])`: the sum of what the memory m has from x to y.
    Total(&'a Term<'a>, &'a Term<'a>, &'a Term<'a>),
    /// `(x = y)`
    Equal(&'a Term<'a>, &'a Term<'a>),
    /// `(x < y)`
    Less(&'a Term<'a>, &'a Term<'a>),
    /// `(x <= y)`
    LessOrEqual(&'a Term<'a>, &'a Term<'a>),
    /// `(not p)`
    Not(&'a Term<'a>),
    /// `(p and q)`
    And(&'a Term<'a>, &'a Term<'a>),
    /// `(p or q)`
    Or(&'a Term<'a>, &'a Term<'a>),
    /// `(p -> q)`
    Implies(&'a Term<'a>, &'a Term<'a>),
    /// `(p <-> q)`
    Iff(&'a Term<'a>, &'a Term<'a>),
    /// `for_all(i1: x..y, p)`, with the number of the variable first.
    ForAll(u32, &'a Term<'a>, &'a Term<'a>, &'a Term<'a>),
    /// `for_some(i1: x..y, p)`
    ForSome(u32, &'a Term<'a>, &'a Term<'a>, &'a Term<'a>),
}

impl<'a> Model for Term<'a> {
    ghost use Rattle.std.specs.Prelude.{◌≡◌, min, ◌-◌, ◌^◌};
    ghost use Rattle.sp_term.specs.Tree.{Tree, nodes, depth_of};
    ghost use Rattle.sp_term.specs.code.TreeCode.{tree_code};

    ghost Value = { Tree };

    ghost coded = { tree_code };

    ghost use Rattle.sp_term.specs.Terms.{tree_of};

    ghost view = { λ t. tree_of t.kind };

    ghost invariant = { λ t. (t.size ≡ min (nodes (tree_of t.kind)) (2 ^ 64 - 1)) × (t.depth ≡ min (depth_of (tree_of t.kind)) (2 ^ 32 - 1)) };

    ghost size = { nodes };
}

impl<'a> Term<'a> {
    /// The node with its parts.
    pub fn kind(&self) -> &Kind<'a>
        ensures { tree_of result.now ≡ self.now }
    {
        &self.kind
    }
}

/// The number of a term's nodes as a tree, at most 2 to the power 64 minus 1. The number of a bit and a bound name are no
/// nodes.
pub fn size(t: &Term) -> u64
    ensures { result ≡ min (nodes t.now) (2 ^ 64 - 1) }
{
    t.size
}

/// The depth of a term as a tree, at most 2 to the power 32 minus 1. That of a literal is 1.
pub fn depth(t: &Term) -> u32
    ensures { result ≡ min (depth_of t.now) (2 ^ 32 - 1) }
{
    t.depth
}

fn kind_size(kind: &Kind) -> u64
    ensures { result ≡ min (nodes (tree_of kind.now)) (2 ^ 64 - 1) }
{
    match kind {
        Kind::Literal(_) | Kind::Truth(_) | Kind::Variable(_) => 1,
        Kind::Parity(x) | Kind::Bit(_, x) | Kind::Not(x) => 1u64.saturating_add(size(x)),
        Kind::Add(x, y)
        | Kind::Subtract(x, y)
        | Kind::Multiply(x, y)
        | Kind::Divide(x, y)
        | Kind::Remainder(x, y)
        | Kind::ByteAnd(x, y)
        | Kind::ByteOr(x, y)
        | Kind::ByteXor(x, y)
        | Kind::Element(x, y)
        | Kind::Equal(x, y)
        | Kind::Less(x, y)
        | Kind::LessOrEqual(x, y)
        | Kind::And(x, y)
        | Kind::Or(x, y)
        | Kind::Implies(x, y)
        | Kind::Iff(x, y) => 1u64.saturating_add(size(x)).saturating_add(size(y)),
        Kind::If(x, y, z)
        | Kind::Update(x, y, z)
        | Kind::Total(x, y, z)
        | Kind::ForAll(_, x, y, z)
        | Kind::ForSome(_, x, y, z) => 1u64
            .saturating_add(size(x))
            .saturating_add(size(y))
            .saturating_add(size(z)),
        Kind::Psw(s, z, ac, p, cy) => 1u64
            .saturating_add(size(s))
            .saturating_add(size(z))
            .saturating_add(size(ac))
            .saturating_add(size(p))
            .saturating_add(size(cy)),
    }
}

fn kind_depth(kind: &Kind) -> u32
    ensures { result ≡ min (depth_of (tree_of kind.now)) (2 ^ 32 - 1) }
{
    match kind {
        Kind::Literal(_) | Kind::Truth(_) | Kind::Variable(_) => 1,
        Kind::Parity(x) | Kind::Bit(_, x) | Kind::Not(x) => 1u32.saturating_add(depth(x)),
        Kind::Add(x, y)
        | Kind::Subtract(x, y)
        | Kind::Multiply(x, y)
        | Kind::Divide(x, y)
        | Kind::Remainder(x, y)
        | Kind::ByteAnd(x, y)
        | Kind::ByteOr(x, y)
        | Kind::ByteXor(x, y)
        | Kind::Element(x, y)
        | Kind::Equal(x, y)
        | Kind::Less(x, y)
        | Kind::LessOrEqual(x, y)
        | Kind::And(x, y)
        | Kind::Or(x, y)
        | Kind::Implies(x, y)
        | Kind::Iff(x, y) => 1u32.saturating_add(depth(x).max(depth(y))),
        Kind::If(x, y, z)
        | Kind::Update(x, y, z)
        | Kind::Total(x, y, z)
        | Kind::ForAll(_, x, y, z)
        | Kind::ForSome(_, x, y, z) => 1u32.saturating_add(depth(x).max(depth(y)).max(depth(z))),
        Kind::Psw(s, z, ac, p, cy) => 1u32.saturating_add(
            depth(s)
                .max(depth(z))
                .max(depth(ac))
                .max(depth(p))
                .max(depth(cy)),
        ),
    }
}

/// A node in the arena.
pub fn make<'a>(arena: &'a Bump, kind: Kind<'a>) -> Result<&'a Term<'a>, Memory>
    ensures { IfOk result (λ t. t.now ≡ tree_of kind.entry) }
{
    let size = kind_size(&kind);
    let depth = kind_depth(&kind);
    match arena.try_alloc(Term { kind, size, depth }) {
        Ok(t) => Ok(t),
        Err(_) => Err(Memory),
    }
}
