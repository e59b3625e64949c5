ghost use Rattle.std.specs.Prelude.{◌<◌, length, IsTrue, IfOk};
ghost use Rattle.sp_term.specs.Pools.{IsBelow};

use crate::nodes::ROWS;
use bumpalo::Bump;
use sp_base::{Loc, Memory};
use sp_term::{Kind, Node, Pool, Shape, Term, Var, depth, make, same, size, substitute};
use std::alloc::Global;
use std::process::Abort;
use std::test::Fail;

/// Whether the parts of a node stand below a place.
fn is_below(shape: Shape, place: usize) -> bool
    ensures { IsTrue result → IsBelow place shape }
{
    match shape {
        Shape::Literal(_) | Shape::Truth(_) | Shape::Variable(_) => true,
        Shape::Parity(x) | Shape::Bit(_, x) | Shape::Not(x) => x.0 < place,
        Shape::Add(x, y)
        | Shape::Subtract(x, y)
        | Shape::Multiply(x, y)
        | Shape::Divide(x, y)
        | Shape::Remainder(x, y)
        | Shape::ByteAnd(x, y)
        | Shape::ByteOr(x, y)
        | Shape::ByteXor(x, y)
        | Shape::Element(x, y)
        | Shape::Equal(x, y)
        | Shape::Less(x, y)
        | Shape::LessOrEqual(x, y)
        | Shape::And(x, y)
        | Shape::Or(x, y)
        | Shape::Implies(x, y)
        | Shape::Iff(x, y) => x.0 < place && y.0 < place,
        Shape::If(x, y, z)
        | Shape::Update(x, y, z)
        | Shape::Total(x, y, z)
        | Shape::ForAll(_, x, y, z)
        | Shape::ForSome(_, x, y, z) => x.0 < place && y.0 < place && z.0 < place,
        Shape::Psw(s, z, ac, p, cy) => {
            s.0 < place && z.0 < place && ac.0 < place && p.0 < place && cy.0 < place
        }
    }
}

/// The place at which a node comes to stand.
fn added(rt: &impl Abort, pool: &mut Pool, shape: Shape) -> Result<Node, Fail>
    ensures { IfOk result (λ n. n.0 < length pool.new) }
{
    assert!(rt; is_below(shape, pool.len()));
    Ok(pool.add(shape)?)
}

/// The term at a place.
fn term_at<'a>(rt: &impl Abort, pool: &Pool<'a>, place: usize) -> &'a Term<'a> {
    assert!(rt; place < pool.len());
    pool.term(Node(place))
}

/// Adds all rows.
fn fill(rt: &impl Abort, pool: &mut Pool) -> Result<(), Fail> {
    for row in &ROWS {
        let _n = added(rt, pool, row.shape)?;
    }
    Ok(())
}

/// What a pool says of a place.
fn check_place(rt: &impl Abort, pool: &Pool, place: usize) -> Result<(), Fail> {
    assert!(rt; place < ROWS.len());
    assert!(rt; place < pool.len());
    let row = &ROWS[place];
    let n = Node(place);
    let t = pool.term(n);
    let literal = match row.shape {
        Shape::Literal(c) => Some(c),
        _ => None,
    };
    assert_eq!(rt; size(t), row.size, "{place}");
    assert_eq!(rt; depth(t), row.depth, "{place}");
    assert_eq!(rt; pool.span(n), row.span, "{place}");
    assert_eq!(rt; pool.literal(n), literal, "{place}");
    assert!(rt; pool.shape(n) == row.shape, "{place}");
    Ok(())
}

/// Each node has the place of its row, also where it is added once more, or its term is taken.
#[test]
fn nodes_have_one_place(rt: HostRuntime) -> Result<(), Fail> {
    let arena = Bump::new(rt.alloc());
    let mut pool = Pool::new(rt.alloc(), &arena);
    assert_eq!(rt; pool.len(), 0);
    fill(&rt, &mut pool)?;
    fill(&rt, &mut pool)?;
    for place in 0..ROWS.len() {
        check_place(&rt, &pool, place)?;
        let t = term_at(&rt, &pool, place);
        let n = pool.take(t)?;
        assert_eq!(rt; n.0, place);
    }
    assert_eq!(rt; pool.len(), ROWS.len());
    Ok(())
}

/// Two terms are the same exactly where they stand at one place, also where they share nothing.
#[test]
fn places_tell_terms_apart(rt: HostRuntime) -> Result<(), Fail> {
    let arena = Bump::new(rt.alloc());
    let mut one = Pool::new(rt.alloc(), &arena);
    let mut other = Pool::new(rt.alloc(), &arena);
    fill(&rt, &mut one)?;
    fill(&rt, &mut other)?;
    for i in 0..ROWS.len() {
        for j in 0..ROWS.len() {
            let x = term_at(&rt, &one, i);
            let y = term_at(&rt, &other, j);
            assert_eq!(rt; same(x, y), i == j, "{i} {j}");
            assert!(rt; i < one.len() && j < one.len());
            assert_eq!(rt; one.same(Node(i), Node(j)), i == j);
        }
    }
    Ok(())
}

/// A term taken into an empty pool brings its parts, each once and before the nodes that have it.
#[test]
fn a_taken_term_brings_its_parts(rt: HostRuntime) -> Result<(), Fail> {
    let arena = Bump::new(rt.alloc());
    let mut pool = Pool::new(rt.alloc(), &arena);
    fill(&rt, &mut pool)?;
    for (place, count) in &COUNTS {
        let t = term_at(&rt, &pool, *place);
        let mut fresh = Pool::new(rt.alloc(), &arena);
        let n = fresh.take(t)?;
        assert_eq!(rt; fresh.len(), *count, "{place}");
        assert_eq!(rt; n.0 + 1, *count, "{place}");
    }
    Ok(())
}

/// A place, and how many parts its tree has, each counted once.
static COUNTS: [(usize, usize); 8] = [
    (0, 1),
    (9, 3),
    (14, 2),
    (19, 2),
    (21, 8),
    (23, 8),
    (34, 6),
    (44, 7),
];

/// The place of a term, a variable, the place of what comes in its stead, and the place of the result.
static REPLACED: [(usize, Var, usize, usize); 9] = [
    (4, Var::Now(Loc::A), 0, 0),
    (4, Var::Entry(Loc::A), 0, 4),
    (9, Var::Now(Loc::A), 7, 40),
    (22, Var::Mem, 22, 44),
    (25, Var::Any(9), 0, 25),
    // for_all(i1: 0..5, (i1 < k_1)): its variable isn't free
    (34, Var::Bound(1), 0, 34),
    // for_some(i1: 0..i1, (i1 < k_1)): it is free in an end alone
    (35, Var::Bound(1), 0, 41),
    (34, Var::Any(1), 4, 43),
    (34, Var::Bound(2), 4, 34),
];

#[test]
fn free_variables_are_replaced(rt: HostRuntime) -> Result<(), Fail> {
    let arena = Bump::new(rt.alloc());
    let mut pool = Pool::new(rt.alloc(), &arena);
    fill(&rt, &mut pool)?;
    for (place, name, by, want) in &REPLACED {
        let t = term_at(&rt, &pool, *place);
        let by = term_at(&rt, &pool, *by);
        let r = substitute(rt.alloc(), &arena, t, *name, by)?;
        let n = pool.take(r)?;
        assert_eq!(rt; n.0, *want, "{place}");
    }
    Ok(())
}

/// With a variable in its own place each term is itself.
#[test]
fn a_variable_in_its_place_changes_nothing(rt: HostRuntime) -> Result<(), Fail> {
    let arena = Bump::new(rt.alloc());
    let mut pool = Pool::new(rt.alloc(), &arena);
    fill(&rt, &mut pool)?;
    for place in 0..ROWS.len() {
        let t = term_at(&rt, &pool, place);
        let by = term_at(&rt, &pool, 7);
        let r = substitute(rt.alloc(), &arena, t, Var::Any(1), by)?;
        assert!(rt; same(r, t), "{place}");
    }
    Ok(())
}

/// Sums of a term with itself, one over another, from a variable on.
fn doubled<'a>(arena: &'a Bump, times: u32) -> Result<&'a Term<'a>, Memory> {
    let mut t = make(arena, Kind::Variable(Var::Entry(Loc::B)))?;
    for _ in 0..times {
        t = make(arena, Kind::Add(t, t))?;
    }
    Ok(t)
}

#[test]
fn shared_sums_take_one_place_each(rt: HostRuntime) -> Result<(), Fail> {
    let arena = Bump::new(rt.alloc());
    let mut pool = Pool::new(rt.alloc(), &arena);
    let mut n = added(&rt, &mut pool, Shape::Variable(Var::Entry(Loc::B)))?;
    for _ in 0..60 {
        n = added(&rt, &mut pool, Shape::Add(n, n))?;
    }
    assert_eq!(rt; pool.len(), 61);
    let t = term_at(&rt, &pool, n.0);
    assert_eq!(rt; size(t), 2_305_843_009_213_693_951);
    assert_eq!(rt; depth(t), 61);
    assert_eq!(rt; size(doubled(&arena, 64)?), u64::MAX);
    let mut fresh = Pool::new(rt.alloc(), &arena);
    let n = fresh.take(doubled(&arena, 16)?)?;
    assert_eq!(rt; n.0, 16);
    assert_eq!(rt; fresh.len(), 17);
    Ok(())
}
