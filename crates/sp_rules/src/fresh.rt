//! The first number of a variable `k_j` that a subgoal doesn't have.

ghost use Rattle.std.specs.Prelude.{◌≡◌, ◌||◌, IfOk, OnOk};
ghost use Rattle.std.specs.FinSet as set;
ghost use Rattle.sp_term.specs.declared.var.Var.{Var};
ghost use Rattle.sp_term.specs.declared.var.Var.TheVariants as var;
ghost use Rattle.sp_term.specs.Free.{var_eq};
ghost use Rattle.sp_term.specs.Conditions.{trees};
ghost use Rattle.sp_steps.specs.Subgoals.{subgoal, some_has, IsFresh};
ghost use Rattle.sp_rules.specs.code.Fresh.{Gains, has, either, IsFirstAbsent};

use sp_base::Memory;
use sp_term::{Kind, Term, Var};
use std::alloc::Global;
use std::collections::BTreeSet;
use std::marker::Model;

/// Numbers of variables `k_j`. A contract sees them as a finite set.
#[derive(Drop)]
struct Used {
    numbers: BTreeSet<u32>,
}

impl Model for Used {
    ghost use Rattle.std.specs.FinSet as set;
    ghost use Rattle.std.specs.Coded.{coded_ℕ};
    ghost use Rattle.sp_rules.specs.code.Fresh.{Numbers};

    ghost Value = { Numbers };

    ghost coded = { set.code coded_ℕ };

    ghost view = { λ u. set.from_list u.numbers.keys };
}

impl Used {
    fn new(alloc: Global) -> Used
        ensures { result ≡ set.empty }
    {
        Used {
            numbers: BTreeSet::new(alloc),
        }
    }

    fn has(&self, j: u32) -> bool
        ensures { result ≡ set.contains self.now j }
    {
        self.numbers.contains(&j)
    }

    fn insert(&mut self, j: u32) -> Result<(), Memory>
        ensures { OnOk result (self.new ≡ set.insert self.old j) }
    {
        let Ok(_) = self.numbers.insert(j) else {
            return Err(Memory);
        };
        Ok(())
    }

    /// The number of a variable, where it is some `k_j`.
    fn add_variable(&mut self, v: Var) -> Result<(), Memory>
        ensures { IfOk result (λ _. Gains self.old (λ j. var_eq (var.Any j) v) self.new) }
    {
        match v {
            Var::Any(j) => self.insert(j),
            _ => Ok(()),
        }
    }

    /// The numbers of the variables of a term.
    #[cycle(add)]
    #[tactic(auto, using(crate::proofs::FreshLemmas::gains_nothing))]
    fn add(&mut self, t: &Term) -> Result<(), Memory>
        ensures { IfOk result (λ _. Gains self.old (has t.now) self.new) }
    {
        match t.kind() {
            Kind::Literal(_) | Kind::Truth(_) => Ok(()),
            Kind::Variable(v) => self.add_variable(*v),
            Kind::Parity(x) | Kind::Bit(_, x) | Kind::Not(x) => self.add(x),
            Kind::Add(x, y)
            | Kind::Subtract(x, y)
            | Kind::Multiply(x, y)
            | Kind::Divide(x, y)
            | Kind::Remainder(x, y)
            | Kind::ByteAnd(x, y)
            | Kind::ByteOr(x, y)
            | Kind::ByteXor(x, y)
            | Kind::Element(x, y)
            | Kind::Equal(x, y)
            | Kind::Less(x, y)
            | Kind::LessOrEqual(x, y)
            | Kind::And(x, y)
            | Kind::Or(x, y)
            | Kind::Implies(x, y)
            | Kind::Iff(x, y) => self.add_two(x, y),
            Kind::If(x, y, z)
            | Kind::Update(x, y, z)
            | Kind::Total(x, y, z)
            | Kind::ForAll(_, x, y, z)
            | Kind::ForSome(_, x, y, z) => self.add_three(x, y, z),
            Kind::Psw(s, z, ac, p, cy) => self.add_five(s, z, ac, p, cy),
        }
    }

    #[cycle(add)]
    #[tactic(auto, using(crate::proofs::FreshLemmas::gains_then))]
    fn add_two(&mut self, x: &Term, y: &Term) -> Result<(), Memory>
        ensures { IfOk result (λ _. Gains self.old (either (has x.now) (has y.now)) self.new) }
    {
        self.add(x)?;
        self.add(y)
    }

    #[cycle(add)]
    #[tactic(auto, using(crate::proofs::FreshLemmas::gains_then))]
    fn add_three(&mut self, x: &Term, y: &Term, z: &Term) -> Result<(), Memory>
        ensures { IfOk result (λ _. Gains self.old (either (either (has x.now) (has y.now)) (has z.now)) self.new) }
    {
        self.add_two(x, y)?;
        self.add(z)
    }

    #[cycle(add)]
    #[tactic(auto, using(crate::proofs::FreshLemmas::gains_then))]
    fn add_five(&mut self, s: &Term, z: &Term, ac: &Term, p: &Term, cy: &Term) -> Result<(), Memory>
        ensures { IfOk result (λ _. Gains self.old (either (either (either (either (has s.now) (has z.now)) (has ac.now)) (has p.now)) (has cy.now)) self.new) }
    {
        self.add_three(s, z, ac)?;
        self.add(p)?;
        self.add(cy)
    }

    /// The numbers of the variables of terms.
    fn add_all(&mut self, ts: &[&Term]) -> Result<(), Memory>
        ensures { IfOk result (λ _. Gains self.old (λ j. some_has j (trees ts.now)) self.new) }
    {
        for t in ts {
            self.add(t)?;
        }
        Ok(())
    }

    /// The least number from 1 that isn't there.
    fn first_absent(&self) -> Result<u32, Memory>
        ensures { IfOk result (λ j. IsFirstAbsent self.now j) }
    {
        let mut j = 1u32;
        while self.has(j) {
            match j.checked_add(1) {
                Some(next) => j = next,
                None => return Err(Memory),
            }
        }
        Ok(j)
    }
}

/// The least j from 1 for which `k_j` stands nowhere in a subgoal.
pub fn fresh(alloc: Global, hypotheses: &[&Term], goal: &Term) -> Result<u32, Memory>
    ensures { IfOk result (λ j. IsFresh (subgoal (trees hypotheses.now) goal.now) j) }
{
    let mut used = Used::new(alloc);
    used.add_all(hypotheses)?;
    used.add(goal)?;
    used.first_absent()
}
