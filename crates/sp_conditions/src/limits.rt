//! The limits on a condition's nodes and depth.
ghost use Rattle.std.specs.Prelude.{◌≡◌, ◌+◌, ◌-◌, ◌^◌, ◌<◌, ◌≤◌, ◌++◌, map, max, min};
ghost use Rattle.std.specs.List.{fold, sum};
ghost use Rattle.sp_term.specs.Conditions.{trees};
ghost use Rattle.sp_term.specs.Tree.{depth_of, nodes};
ghost use Rattle.sp_conditions.specs.code.Limits.{AreWithin};

use sp_cond::CondRefusal;
use sp_term::{Term, depth, size};

/// The most nodes of a condition.
const MOST_NODES: u64 = 65_536;

/// The greatest depth of a condition.
const DEEPEST: u32 = 2_000;

/// A count and the nodes of formulas together, up to the greatest u64.
#[tactic(auto, using(crate::proofs::LimitLemmas::counted_more))]
fn nodes_with(count: u64, formulas: &[&Term]) -> u64
    ensures { result ≡ min (count + sum (map nodes (trees formulas.now))) (2 ^ 64 - 1) }
{
    let mut total = count;
    'formulas: for t in formulas {
        total = total.saturating_add(size(t));
    }
    total
}

/// The greatest of a depth and the depths of formulas, up to the greatest u32.
#[tactic(auto, using(crate::proofs::LimitLemmas::looked_more))]
fn depth_with(most: u32, formulas: &[&Term]) -> u32
    ensures { result ≡ min (fold (λ n t. max n (depth_of t)) most (trees formulas.now)) (2 ^ 32 - 1) }
{
    let mut deepest = most;
    'formulas: for t in formulas {
        deepest = deepest.max(depth(t));
    }
    deepest
}

/// Whether formulas are within the limits.
pub fn within_limits(hypotheses: &[&Term], goals: &[&Term]) -> Result<(), CondRefusal>
    ensures { AreWithin (trees hypotheses.now ++ trees goals.now) result }
{
    let count = nodes_with(nodes_with(0, hypotheses), goals);
    if count > MOST_NODES {
        return Err(CondRefusal::TooLarge(count));
    }
    let deepest = depth_with(depth_with(0, hypotheses), goals);
    if deepest > DEEPEST {
        return Err(CondRefusal::TooDeep(deepest));
    }
    Ok(())
}
