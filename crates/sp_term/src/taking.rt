//! Whole terms taken into a pool.
ghost use Rattle.std.specs.Prelude.{◌≡◌, ◌++◌, length, IfOk};
ghost use Rattle.sp_term.specs.Terms.{tree_of};
ghost use Rattle.sp_term.specs.Pools.{shape_tree, IsBelow, Grows, IsPlace};
ghost use Rattle.sp_term.specs.Parts.{AppendsOnly, parts, parts_below};

use crate::{Kind, Node, Pool, Shape, Term};
use sp_base::Memory;

impl<'a> Pool<'a> {
    /// The place of a term. Those of its parts that don't stand in the pool yet are appended, and nothing else is; after
    /// `Memory` some of them may have been.
    #[cycle(take)]
    #[tactic(auto, using(crate::proofs::PartLemmas::below_appended, crate::proofs::PartLemmas::itself_appended))]
    pub fn take(&mut self, t: &Term) -> Result<Node, Memory>
        ensures grows { Grows self.old self.new }
        ensures place { IfOk result (λ n. IsPlace self.new t.now n.0) }
        ensures parts { AppendsOnly self.old self.new (parts t.now) }
    {
        let shape = self.take_parts(t.kind())?;
        self.add(shape)
    }

    /// The node whose parts are taken.
    #[cycle(take)]
    #[tactic(auto, using(crate::proofs::PartLemmas::none_appended))]
    fn take_parts(&mut self, kind: &Kind) -> Result<Shape, Memory>
        ensures grows { Grows self.old self.new }
        ensures below { IfOk result (λ s. IsBelow (length self.new) s) }
        ensures tree { IfOk result (λ s. shape_tree self.new s ≡ tree_of kind.now) }
        ensures parts { AppendsOnly self.old self.new (parts_below (tree_of kind.now)) }
    {
        match kind {
            Kind::Literal(n) => Ok(Shape::Literal(*n)),
            Kind::Truth(b) => Ok(Shape::Truth(*b)),
            Kind::Variable(w) => Ok(Shape::Variable(*w)),
            Kind::Add(x, y) => {
                let (x, y) = self.take_two(x, y)?;
                Ok(Shape::Add(x, y))
            }
            Kind::Subtract(x, y) => {
                let (x, y) = self.take_two(x, y)?;
                Ok(Shape::Subtract(x, y))
            }
            Kind::Multiply(x, y) => {
                let (x, y) = self.take_two(x, y)?;
                Ok(Shape::Multiply(x, y))
            }
            Kind::Divide(x, y) => {
                let (x, y) = self.take_two(x, y)?;
                Ok(Shape::Divide(x, y))
            }
            Kind::Remainder(x, y) => {
                let (x, y) = self.take_two(x, y)?;
                Ok(Shape::Remainder(x, y))
            }
            Kind::ByteAnd(x, y) => {
                let (x, y) = self.take_two(x, y)?;
                Ok(Shape::ByteAnd(x, y))
            }
            Kind::ByteOr(x, y) => {
                let (x, y) = self.take_two(x, y)?;
                Ok(Shape::ByteOr(x, y))
            }
            Kind::ByteXor(x, y) => {
                let (x, y) = self.take_two(x, y)?;
                Ok(Shape::ByteXor(x, y))
            }
            Kind::Parity(x) => {
                let x = self.take(x)?;
                Ok(Shape::Parity(x))
            }
            Kind::Bit(k, x) => {
                let x = self.take(x)?;
                Ok(Shape::Bit(*k, x))
            }
            Kind::Psw(s, z, ac, p, cy) => {
                let (s, z, ac, p, cy) = self.take_five(s, z, ac, p, cy)?;
                Ok(Shape::Psw(s, z, ac, p, cy))
            }
            Kind::If(p, x, y) => {
                let (p, x, y) = self.take_three(p, x, y)?;
                Ok(Shape::If(p, x, y))
            }
            Kind::Element(m, x) => {
                let (m, x) = self.take_two(m, x)?;
                Ok(Shape::Element(m, x))
            }
            Kind::Update(m, x, y) => {
                let (m, x, y) = self.take_three(m, x, y)?;
                Ok(Shape::Update(m, x, y))
            }
            Kind::Total(m, x, y) => {
                let (m, x, y) = self.take_three(m, x, y)?;
                Ok(Shape::Total(m, x, y))
            }
            Kind::Equal(x, y) => {
                let (x, y) = self.take_two(x, y)?;
                Ok(Shape::Equal(x, y))
            }
            Kind::Less(x, y) => {
                let (x, y) = self.take_two(x, y)?;
                Ok(Shape::Less(x, y))
            }
            Kind::LessOrEqual(x, y) => {
                let (x, y) = self.take_two(x, y)?;
                Ok(Shape::LessOrEqual(x, y))
            }
            Kind::Not(p) => {
                let p = self.take(p)?;
                Ok(Shape::Not(p))
            }
            Kind::And(p, q) => {
                let (p, q) = self.take_two(p, q)?;
                Ok(Shape::And(p, q))
            }
            Kind::Or(p, q) => {
                let (p, q) = self.take_two(p, q)?;
                Ok(Shape::Or(p, q))
            }
            Kind::Implies(p, q) => {
                let (p, q) = self.take_two(p, q)?;
                Ok(Shape::Implies(p, q))
            }
            Kind::Iff(p, q) => {
                let (p, q) = self.take_two(p, q)?;
                Ok(Shape::Iff(p, q))
            }
            Kind::ForAll(k, x, y, p) => {
                let (x, y, p) = self.take_three(x, y, p)?;
                Ok(Shape::ForAll(*k, x, y, p))
            }
            Kind::ForSome(k, x, y, p) => {
                let (x, y, p) = self.take_three(x, y, p)?;
                Ok(Shape::ForSome(*k, x, y, p))
            }
        }
    }

    #[cycle(take)]
    #[tactic(auto, using(crate::proofs::PartLemmas::wider, crate::proofs::PartLemmas::then_appended))]
    fn take_two(&mut self, x: &Term, y: &Term) -> Result<(Node, Node), Memory>
        ensures grows { Grows self.old self.new }
        ensures x { IfOk result (λ r. IsPlace self.new x.now r.0.0) }
        ensures y { IfOk result (λ r. IsPlace self.new y.now r.1.0) }
        ensures parts { AppendsOnly self.old self.new (parts x.now ++ parts y.now) }
    {
        let x = self.take(x)?;
        let y = self.take(y)?;
        Ok((x, y))
    }

    #[cycle(take)]
    #[tactic(auto, using(crate::proofs::PartLemmas::wider, crate::proofs::PartLemmas::then_appended))]
    fn take_three(&mut self, x: &Term, y: &Term, z: &Term) -> Result<(Node, Node, Node), Memory>
        ensures grows { Grows self.old self.new }
        ensures x { IfOk result (λ r. IsPlace self.new x.now r.0.0) }
        ensures y { IfOk result (λ r. IsPlace self.new y.now r.1.0) }
        ensures z { IfOk result (λ r. IsPlace self.new z.now r.2.0) }
        ensures parts { AppendsOnly self.old self.new (parts x.now ++ parts y.now ++ parts z.now) }
    {
        let (x, y) = self.take_two(x, y)?;
        let z = self.take(z)?;
        Ok((x, y, z))
    }

    #[cycle(take)]
    #[tactic(auto, using(crate::proofs::PartLemmas::wider, crate::proofs::PartLemmas::then_appended))]
    fn take_five(
        &mut self,
        s: &Term,
        z: &Term,
        ac: &Term,
        p: &Term,
        cy: &Term,
    ) -> Result<(Node, Node, Node, Node, Node), Memory>
        ensures grows { Grows self.old self.new }
        ensures s { IfOk result (λ r. IsPlace self.new s.now r.0.0) }
        ensures z { IfOk result (λ r. IsPlace self.new z.now r.1.0) }
        ensures ac { IfOk result (λ r. IsPlace self.new ac.now r.2.0) }
        ensures p { IfOk result (λ r. IsPlace self.new p.now r.3.0) }
        ensures cy { IfOk result (λ r. IsPlace self.new cy.now r.4.0) }
        ensures parts { AppendsOnly self.old self.new (parts s.now ++ parts z.now ++ parts ac.now ++ parts p.now ++ parts cy.now) }
    {
        let (s, z, ac) = self.take_three(s, z, ac)?;
        let p = self.take(p)?;
        let cy = self.take(cy)?;
        Ok((s, z, ac, p, cy))
    }
}
