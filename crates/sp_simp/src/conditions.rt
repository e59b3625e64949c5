//! Simple forms of terms and of conditions.

ghost use Rattle.std.specs.Prelude.{IfOk};
ghost use Rattle.sp_term.specs.Conditions.{trees, condition_of};
ghost use Rattle.sp_term.specs.Pools.{Grows};
ghost use Rattle.sp_simp.specs.Simple.{IsSimpleForm};
ghost use Rattle.sp_simp.specs.Simplified.{IsSimplified};
ghost use Rattle.sp_simp.specs.Memos.{AreRight};
ghost use Rattle.sp_simp.specs.code.Marks.{AreSimpleAt};

use crate::Memo;
use crate::kept::Kept;
use bumpalo::Bump;
use sp_base::Memory;
use sp_term::{Cond, Node, Pool, Term};
use std::alloc::Global;

/// The simple form of a term.
pub fn simple<'a>(alloc: Global, t: &'a Term<'a>, arena: &'a Bump) -> Result<&'a Term<'a>, Memory>
    ensures { IfOk result (λ r. IsSimpleForm t.now r.now) }
{
    let mut pool = Pool::new(alloc, arena);
    let mut memo = Memo::new(alloc);
    let n = pool.take(t)?;
    let r = memo.simple(&mut pool, n)?;
    Ok(pool.term(r))
}

/// The places of the simple forms of terms.
#[tactic(auto, using(crate::proofs::MemoLemmas::right_grown, crate::proofs::MarkLemmas::forms_grown, crate::proofs::MarkLemmas::forms_more))]
fn simple_places(
    alloc: Global,
    pool: &mut Pool,
    memo: &mut Memo,
    ts: &[&Term],
) -> Result<Vec<Node>, Memory>
    requires right { AreRight pool.old memo.old }
    ensures grows { Grows pool.old pool.new }
    ensures right { AreRight pool.new memo.new }
    ensures forms { IfOk result (λ v. AreSimpleAt (trees ts.now) pool.new v.items) }
{
    let mut places = Vec::new(alloc);
    for t in ts {
        let n = pool.take(t)?;
        let r = memo.simple(pool, n)?;
        places.push(r)?;
    }
    Ok(places)
}

/// The simplified condition: its formulas simple, split at each `and`, and without those that are known. A condition without
/// goals is true. What is known of memories stays.
pub fn simplify<'a>(alloc: Global, c: Cond<'a>, arena: &'a Bump) -> Result<Cond<'a>, Memory>
    ensures { IfOk result (λ r. IsSimplified (condition_of c.entry) (condition_of r)) }
{
    let mut pool = Pool::new(alloc, arena);
    let mut memo = Memo::new(alloc);
    let hyps = simple_places(alloc, &mut pool, &mut memo, c.hyps)?;
    let goals = simple_places(alloc, &mut pool, &mut memo, c.goals)?;
    pool.distinct();
    let mut kept = Kept::new(alloc, arena, &pool)?;
    kept.keep_all(&pool, &hyps)?;
    let count = kept.len();
    kept.keep_goals(&pool, &goals)?;
    let (hyps, goals) = kept.into_parts(count);
    Ok(Cond {
        hyps,
        goals,
        frames: c.frames,
    })
}
