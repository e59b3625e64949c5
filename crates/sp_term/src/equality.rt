ghost use Rattle.std.specs.Prelude.{◌≡◌, ◌↔◌, IsTrue};
ghost use Rattle.sp_term.specs.Terms.{tree_of};

use crate::{Kind, Term, size};

/// Whether two terms are one tree. It compares trees: a part that is shared is gone over wherever it stands. Where terms
/// share much, the places of a pool tell it at once.
#[cycle(same)]
pub fn same(x: &Term, y: &Term) -> bool
    ensures { IsTrue result ↔ (x.now ≡ y.now) }
{
    size(x) == size(y) && same_kinds(x.kind(), y.kind())
}

#[cycle(same)]
fn same_kinds(x: &Kind, y: &Kind) -> bool
    ensures { IsTrue result ↔ (tree_of x.now ≡ tree_of y.now) }
{
    match (x, y) {
        (Kind::Literal(n1), Kind::Literal(n2)) => n1 == n2,
        (Kind::Truth(b1), Kind::Truth(b2)) => b1 == b2,
        (Kind::Variable(w1), Kind::Variable(w2)) => w1 == w2,
        (Kind::Add(x1, y1), Kind::Add(x2, y2)) => same(x1, x2) && same(y1, y2),
        (Kind::Subtract(x1, y1), Kind::Subtract(x2, y2)) => same(x1, x2) && same(y1, y2),
        (Kind::Multiply(x1, y1), Kind::Multiply(x2, y2)) => same(x1, x2) && same(y1, y2),
        (Kind::Divide(x1, y1), Kind::Divide(x2, y2)) => same(x1, x2) && same(y1, y2),
        (Kind::Remainder(x1, y1), Kind::Remainder(x2, y2)) => same(x1, x2) && same(y1, y2),
        (Kind::ByteAnd(x1, y1), Kind::ByteAnd(x2, y2)) => same(x1, x2) && same(y1, y2),
        (Kind::ByteOr(x1, y1), Kind::ByteOr(x2, y2)) => same(x1, x2) && same(y1, y2),
        (Kind::ByteXor(x1, y1), Kind::ByteXor(x2, y2)) => same(x1, x2) && same(y1, y2),
        (Kind::Parity(x1), Kind::Parity(x2)) => same(x1, x2),
        (Kind::Bit(k1, x1), Kind::Bit(k2, x2)) => k1 == k2 && same(x1, x2),
        (Kind::Psw(s1, z1, ac1, p1, cy1), Kind::Psw(s2, z2, ac2, p2, cy2)) => same(s1, s2)
            && same(z1, z2)
            && same(ac1, ac2)
            && same(p1, p2)
            && same(cy1, cy2),
        (Kind::If(p1, x1, y1), Kind::If(p2, x2, y2)) => same(p1, p2)
            && same(x1, x2)
            && same(y1, y2),
        (Kind::Element(m1, x1), Kind::Element(m2, x2)) => same(m1, m2) && same(x1, x2),
        (Kind::Update(m1, x1, y1), Kind::Update(m2, x2, y2)) => same(m1, m2)
            && same(x1, x2)
            && same(y1, y2),
        (Kind::Total(m1, x1, y1), Kind::Total(m2, x2, y2)) => same(m1, m2)
            && same(x1, x2)
            && same(y1, y2),
        (Kind::Equal(x1, y1), Kind::Equal(x2, y2)) => same(x1, x2) && same(y1, y2),
        (Kind::Less(x1, y1), Kind::Less(x2, y2)) => same(x1, x2) && same(y1, y2),
        (Kind::LessOrEqual(x1, y1), Kind::LessOrEqual(x2, y2)) => same(x1, x2) && same(y1, y2),
        (Kind::Not(p1), Kind::Not(p2)) => same(p1, p2),
        (Kind::And(p1, q1), Kind::And(p2, q2)) => same(p1, p2) && same(q1, q2),
        (Kind::Or(p1, q1), Kind::Or(p2, q2)) => same(p1, p2) && same(q1, q2),
        (Kind::Implies(p1, q1), Kind::Implies(p2, q2)) => same(p1, p2) && same(q1, q2),
        (Kind::Iff(p1, q1), Kind::Iff(p2, q2)) => same(p1, p2) && same(q1, q2),
        (Kind::ForAll(k1, x1, y1, p1), Kind::ForAll(k2, x2, y2, p2)) => k1 == k2
            && same(x1, x2)
            && same(y1, y2)
            && same(p1, p2),
        (Kind::ForSome(k1, x1, y1, p1), Kind::ForSome(k2, x2, y2, p2)) => k1 == k2
            && same(x1, x2)
            && same(y1, y2)
            && same(p1, p2),
        _ => false,
    }
}
