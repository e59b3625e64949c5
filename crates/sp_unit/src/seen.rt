//! The names of areas above a line.
ghost use Rattle.std.specs.Prelude.{◌≡◌, ◌∷◌, [], ◌++◌, ℕ, List, OnOk, is_some, nat_eq};
ghost use Rattle.std.specs.Cmp.Lexicographic.{pointwise};
ghost use Rattle.std.specs.Map.{lookup};
ghost use Rattle.sp_unit.specs.Faults as faults;
ghost use Rattle.sp_unit.specs.Lines as lines;
ghost use Rattle.sp_unit.specs.code.Aboves.{repeats_in, HasSeen};
ghost use Rattle.sp_unit.specs.code.Entries.{entry_of};
ghost use Rattle.sp_unit.specs.code.Scopes.{source_of};

use crate::entry::Entry;
use crate::scope::Scope;
use crate::tables::area_by;
use indexmap::IndexMap;
use sp_base::{Memory, Name};
use sp_prog::Area;

/// The names of the areas that lines declare.
pub(crate) type Seen = IndexMap<Name, ()>;

/// The area that a line declares.
fn area_at(scope: &Scope<'_>, e: &Entry<'_>) -> Option<Area>
    ensures { result ≡ faults.area_in (source_of scope.now) (entry_of e.now) }
{
    match e {
        Entry::Statement(_) => None,
        Entry::Annotation(note) => area_by(&note.part, scope.names),
    }
}

/// Whether a line declares an area whose name one above has.
pub(crate) fn repeats(scope: &Scope<'_>, seen: &Seen, e: &Entry<'_>) -> bool
    ensures { (all : List lines.Entry) → HasSeen seen.now.entries (source_of scope.now) all → result ≡ repeats_in (source_of scope.now) all (entry_of e.now) }
{
    match area_at(scope, e) {
        Some(area) => seen.contains_key(&area.name),
        None => false,
    }
}

/// Takes in one more line.
pub(crate) fn add_line(scope: &Scope<'_>, seen: &mut Seen, e: &Entry<'_>) -> Result<(), Memory>
    ensures { OnOk result ((all : List lines.Entry) → HasSeen seen.old.entries (source_of scope.now) all
        → HasSeen seen.new.entries (source_of scope.now) (all ++ entry_of e.now ∷ [])) }
{
    if let Some(area) = area_at(scope, e) {
        seen.insert(area.name, ())?;
    }
    Ok(())
}
