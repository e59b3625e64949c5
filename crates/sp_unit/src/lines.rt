//! The lowest line that breaks a rule.
ghost use Rattle.std.specs.Prelude.{◌≡◌, ◌<◌, ◌+◌, drop, length};
ghost use Rattle.sp_base.specs.Refused.{Answers};
ghost use Rattle.sp_unit.specs.Faults.{AreRight, IsFirstFault};
ghost use Rattle.sp_unit.specs.code.Entries.{entries_of};
ghost use Rattle.sp_unit.specs.code.Scopes.{IsScope, source_of};

use crate::above::Above;
use crate::entry::Entry;
use crate::faults::fault;
use crate::refusal::UnitRefusal;
use crate::scope::Scope;
use crate::seen::{Seen, add_line, repeats};
use sp_base::Refused;
use std::alloc::Global;

/// The lines below one.
pub(crate) fn lines_below<'a, 'b>(entries: &'b [Entry<'a>], i: usize) -> &'b [Entry<'a>]
    requires { i < length entries.now }
    ensures { result.now ≡ drop (i + 1) entries.now }
{
    &entries[i + 1..]
}

/// Whether no line breaks a rule, or the lowest that does, with the first way in which it does.
pub(crate) fn first_fault(
    alloc: Global,
    scope: &Scope<'_>,
    entries: &[Entry<'_>],
) -> Result<(), UnitRefusal>
    requires { IsScope scope.now }
    ensures { Answers (λ _. AreRight (source_of scope.now) (entries_of entries.now)) (IsFirstFault (source_of scope.now) (entries_of entries.now)) result }
{
    let mut above = Above::nothing();
    let mut seen = Seen::new(alloc);
    for (i, e) in entries.iter().enumerate() {
        let below = lines_below(entries, i);
        let repeated = repeats(scope, &seen, e);
        if let Some(kind) = fault(alloc, scope, above, repeated, e, below)? {
            return Err(Refused::At(e.line(), kind));
        }
        above = above.after(e, below);
        add_line(scope, &mut seen, e)?;
    }
    Ok(())
}
