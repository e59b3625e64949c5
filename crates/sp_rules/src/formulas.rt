//! Formulas that steps build, within the limits on nodes and depth.

ghost use Rattle.std.specs.Prelude.{◌≡◌, ◌∷◌, [], pos, true, false, IfOk};
ghost use Rattle.sp_term.specs.Tree.{Literal, Truth, Add, Equal, Implies};
ghost use Rattle.sp_term.specs.Terms.{tree_of};
ghost use Rattle.sp_term.specs.Conditions.{trees};
ghost use Rattle.sp_simp.specs.Same.{tree_eq};
ghost use Rattle.sp_simp.specs.Rules.{truth as truth_of};
ghost use Rattle.sp_rules.specs.code.Outcome.{IsLimited, joined_goals, goal_now};

use bumpalo::Bump;
use bumpalo::collections::into_bump_slice;
use sp_base::Memory;
use sp_steps::RuleRefusal;
use sp_term::{Kind, Term, depth, make, same, size};

/// The most nodes of a formula that is built or given.
const MOST_NODES: u64 = 65_536;

/// The greatest depth of a formula that is built or given.
const DEEPEST: u32 = 2_000;

/// The formula, where it is within the limits.
pub fn within_limits<'a>(t: &'a Term<'a>) -> Result<&'a Term<'a>, RuleRefusal>
    ensures { IsLimited result t.now }
{
    if size(t) <= MOST_NODES && depth(t) <= DEEPEST {
        Ok(t)
    } else {
        Err(RuleRefusal::NoApply)
    }
}

/// A formula that is built, where it is within the limits.
pub fn built<'a>(arena: &'a Bump, kind: Kind<'a>) -> Result<&'a Term<'a>, RuleRefusal>
    ensures { IsLimited result (tree_of kind.entry) }
{
    let t = make(arena, kind)?;
    within_limits(t)
}

pub fn number<'a>(arena: &'a Bump, n: i64) -> Result<&'a Term<'a>, Memory>
    ensures { IfOk result (λ t. t.now ≡ Literal n) }
{
    make(arena, Kind::Literal(n))
}

pub fn sum<'a>(arena: &'a Bump, x: &'a Term<'a>, y: &'a Term<'a>) -> Result<&'a Term<'a>, Memory>
    ensures { IfOk result (λ t. t.now ≡ Add x.now y.now) }
{
    make(arena, Kind::Add(x, y))
}

/// `(p -> (x = y))`, where it is within the limits.
pub fn equal_where<'a>(
    arena: &'a Bump,
    p: &'a Term<'a>,
    x: &'a Term<'a>,
    y: &'a Term<'a>,
) -> Result<&'a Term<'a>, RuleRefusal>
    ensures { IsLimited result (Implies p.now (Equal x.now y.now)) }
{
    let q = make(arena, Kind::Equal(x, y))?;
    built(arena, Kind::Implies(p, q))
}

/// `false`
pub fn falsehood<'a>(arena: &'a Bump) -> Result<&'a Term<'a>, Memory>
    ensures { IfOk result (λ t. t.now ≡ Truth false) }
{
    make(arena, Kind::Truth(false))
}

/// Whether two terms are one tree.
#[tactic(auto, using(crate::proofs::FormulaLemmas::decided))]
pub fn is_same(x: &Term, y: &Term) -> bool
    ensures { result ≡ tree_eq x.now y.now }
{
    same(x, y)
}

/// Whether a term is true or false, if it is one of these.
fn truth(t: &Term) -> Option<bool>
    ensures { result ≡ truth_of t.now }
{
    match t.kind() {
        Kind::Truth(b) => Some(*b),
        _ => None,
    }
}

#[tactic(auto, using(sp_simp::proofs::MarkLemmas::tests))]
pub fn is_true(t: &Term) -> bool
    ensures { result ≡ tree_eq (Truth true) t.now }
{
    match truth(t) {
        Some(b) => b,
        None => false,
    }
}

#[tactic(auto, using(sp_simp::proofs::MarkLemmas::tests))]
pub fn is_false(t: &Term) -> bool
    ensures { result ≡ tree_eq t.now (Truth false) }
{
    match truth(t) {
        Some(b) => !b,
        None => false,
    }
}

/// Goals as one formula, `(C1 and (C2 and ..))`; none where there are no goals.
pub fn conjunction<'a>(
    arena: &'a Bump,
    goals: &'a [&'a Term<'a>],
) -> Result<Option<&'a Term<'a>>, Memory>
    ensures { IfOk result (λ r. goal_now r ≡ joined_goals (trees goals.now)) }
{
    let Some((first, after)) = goals.split_first() else {
        return Ok(None);
    };
    match conjunction(arena, after)? {
        None => Ok(Some(*first)),
        Some(rest) => {
            let joined = make(arena, Kind::And(first, rest))?;
            Ok(Some(joined))
        }
    }
}

/// What is added to the hypotheses of a subgoal.
#[derive(Clone, Copy)]
pub struct Added<'a> {
    pub list: &'a [&'a Term<'a>],
}

/// Nothing is added.
pub fn nothing<'a>() -> Added<'a>
    ensures { trees result.list.now ≡ [] }
{
    Added { list: &[] }
}

pub fn list_of_one<'a>(arena: &'a Bump, p: &'a Term<'a>) -> Result<Added<'a>, Memory>
    ensures { IfOk result (λ l. trees l.list.now ≡ p.now ∷ []) }
{
    let mut list = Vec::new(arena);
    list.push(p)?;
    Ok(Added {
        list: into_bump_slice(list),
    })
}

pub fn list_of_two<'a>(
    arena: &'a Bump,
    p: &'a Term<'a>,
    q: &'a Term<'a>,
) -> Result<Added<'a>, Memory>
    ensures { IfOk result (λ l. trees l.list.now ≡ p.now ∷ q.now ∷ []) }
{
    let mut list = Vec::new(arena);
    list.push(p)?;
    list.push(q)?;
    Ok(Added {
        list: into_bump_slice(list),
    })
}

pub fn list_of_three<'a>(
    arena: &'a Bump,
    p: &'a Term<'a>,
    q: &'a Term<'a>,
    r: &'a Term<'a>,
) -> Result<Added<'a>, Memory>
    ensures { IfOk result (λ l. trees l.list.now ≡ p.now ∷ q.now ∷ r.now ∷ []) }
{
    let mut list = Vec::new(arena);
    list.push(p)?;
    list.push(q)?;
    list.push(r)?;
    Ok(Added {
        list: into_bump_slice(list),
    })
}
