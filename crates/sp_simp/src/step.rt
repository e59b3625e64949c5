//! What a rule writes in the place of a node of a pool.

ghost use Rattle.std.specs.Prelude.{◌≡◌, length};
ghost use Rattle.sp_simp.specs.Rules as spec;
ghost use Rattle.sp_simp.specs.code.Plans.{plan, IsStepWithin};

use crate::Relation;
use sp_term::{Node, Pool};

/// A part: a place, or a literal or a truth value that the rule makes.
#[derive(Clone, Copy)]
pub enum Part {
    Have(Node),
    Number(i64),
    Truth(bool),
}

/// A node over such parts.
#[derive(Clone, Copy)]
pub enum Draft {
    Add(Part, Part),
    Multiply(Part, Part),
    Remainder(Part, Part),
    Element(Node, Node),
    Update(Node, Node, Node),
    Compare(Relation, Part, Part),
    Not(Node),
}

/// What a rule writes: nothing, a part, a node, the sum of a node and a literal, or a node modulo a literal.
#[derive(Clone, Copy)]
pub enum Step {
    Stay,
    Is(Part),
    Make(Draft),
    MakePlus(Draft, i64),
    MakeModulo(Draft, i64),
}

/// What the first of two rules that matches writes.
pub fn first(pool: &Pool, a: Step, b: Step) -> Step
    requires a { IsStepWithin (length pool.now) a }
    requires b { IsStepWithin (length pool.now) b }
    ensures plans { plan pool.now result ≡ spec.first (plan pool.now a) (plan pool.now b) }
    ensures within { IsStepWithin (length pool.now) result }
{
    match a {
        Step::Stay => b,
        step => step,
    }
}
