//! The truth of notes.
ghost use Rattle.std.specs.Prelude.{◌≡◌};
ghost use Rattle.sp_logic.specs.View.{comparison_of, connective_of, quantifier_of};
ghost use Rattle.sp_eval.specs.Nodes.{count_through};
ghost use Rattle.sp_eval.specs.code.Small.{IsSmall};
ghost use Rattle.sp_eval.specs.code.Truth.{compares, connects, truth_over_none, joined, quantifies};
ghost use Rattle.sp_eval.specs.code.Setting.{HasCores, IsPaid, note_truth, note_nodes, IsSmallNote, nodes_of_index, truth_of_index, IsSmallOver};

use crate::arithmetic::count_between;
use crate::quantity::number_at;
use crate::scope::Scope;
use crate::setting::Setting;
use sp_base::Name;
use sp_logic::{Comparison, Connective, Note, Quantifier};

/// Whether two numbers compare so.
fn compares(comparison: Comparison, x: i128, y: i128) -> bool
    ensures { result ≡ compares (comparison_of comparison) x y }
{
    match comparison {
        Comparison::Equal => x == y,
        Comparison::Unequal => x != y,
        Comparison::Less => x < y,
        Comparison::LessOrEqual => x <= y,
        Comparison::Greater => x > y,
        Comparison::GreaterOrEqual => x >= y,
    }
}

/// The truth of two notes with a connective.
fn connects(connective: Connective, p: bool, q: bool) -> bool
    ensures { result ≡ connects (connective_of connective) p q }
{
    match connective {
        Connective::And => p && q,
        Connective::Or => p || q,
        Connective::Implies => !p || q,
        Connective::Iff => p == q,
    }
}

/// A quantifier with the first and the last of its indices.
#[derive(Clone, Copy)]
struct Indices {
    quantifier: Quantifier,
    low: i128,
    high: i128,
}

/// What a quantifier over no index is.
fn truth_over_none(quantifier: Quantifier) -> bool
    ensures { result ≡ truth_over_none (quantifier_of quantifier) }
{
    match quantifier {
        Quantifier::ForAll => true,
        Quantifier::ForSome => false,
    }
}

/// The truth over two parts of a range.
fn join(quantifier: Quantifier, first: bool, rest: bool) -> bool
    ensures { result ≡ joined (quantifier_of quantifier) first rest }
{
    match quantifier {
        Quantifier::ForAll => first && rest,
        Quantifier::ForSome => first || rest,
    }
}

/// The truth of a note over indices, None where it has more nodes there than are left.
#[cycle(notes)]
fn truth_over<'a>(
    at: &Setting<'_>,
    scope: &'a Scope<'a>,
    name: &'a Name,
    indices: Indices,
    part: &'a Note,
    left: &mut u64,
) -> Option<bool>
    requires cores { HasCores at.now }
    requires low { IsSmall indices.low }
    requires high { IsSmall indices.high }
    requires small { IsSmallOver at.now scope.now name.now part.now indices.low indices.high }
    ensures { IsPaid result left.old left.new
        (count_through (nodes_of_index at.now scope.now name.now part.now) indices.low indices.high)
        (quantifies (quantifier_of indices.quantifier)
        (truth_of_index at.now scope.now name.now part.now) indices.low indices.high) }
{
    let count = count_between(indices.low, indices.high);
    if count > u128::from(*left) {
        return None;
    }
    let mut truth = truth_over_none(indices.quantifier);
    let mut index = indices.low;
    for done in 0..count as u64 {
        let inner = Scope::Inner(name, index, scope);
        let here = truth_at(at, &inner, part, left)?;
        truth = join(indices.quantifier, truth, here);
        index += 1;
    }
    Some(truth)
}

/// The truth of a note, None where it has more nodes than are left; what it has is taken from these.
#[cycle(notes)]
pub fn truth_at<'a>(
    at: &Setting<'_>,
    scope: &'a Scope<'a>,
    note: &'a Note,
    left: &mut u64,
) -> Option<bool>
    requires cores { HasCores at.now }
    requires small { IsSmallNote at.now scope.now note.now }
    ensures { IsPaid result left.old left.new
        (note_nodes at.now scope.now note.now) (note_truth at.now scope.now note.now) }
{
    if *left == 0 {
        return None;
    }
    *left -= 1;
    match note {
        Note::Constant(truth) => Some(*truth),
        Note::Compare(comparison, first, second) => {
            let x = number_at(at, scope, first, left)?;
            let y = number_at(at, scope, second, left)?;
            Some(compares(*comparison, x, y))
        }
        Note::Not(part) => Some(!truth_at(at, scope, part, left)?),
        Note::Connect(connective, first, second) => {
            let p = truth_at(at, scope, first, left)?;
            let q = truth_at(at, scope, second, left)?;
            Some(connects(*connective, p, q))
        }
        Note::Quantify(quantifier, name, first, last, part) => {
            let low = number_at(at, scope, first, left)?;
            let high = number_at(at, scope, last, left)?;
            let indices = Indices {
                quantifier: *quantifier,
                low,
                high,
            };
            truth_over(at, scope, name, indices, part, left)
        }
    }
}
