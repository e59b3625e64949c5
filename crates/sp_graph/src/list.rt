ghost use Rattle.std.specs.Prelude.{◌≡◌, ◌∷◌, [], List, IfOk, OnErr, MatchOption};
ghost use Rattle.sp_graph.specs.declared.walk.Walk.{Walk};

use crate::{Search, Walk};
use sp_base::Memory;
use sp_prog::Unit;
use std::marker::Model;

/// The walks of a routine of a unit that are still to come, in order. Contracts see their list.
#[derive(Debug, Drop)]
pub struct Walks<'u> {
    pub(crate) unit: &'u Unit,
    pub(crate) search: Search,
}

impl<'u> Model for Walks<'u> {
    ghost Value = { List Walk };

    ghost view = { λ walks. walks.search };
}

impl<'u> Walks<'u> {
    /// The next walk.
    pub fn next(&mut self) -> Result<Option<Walk>, Memory>
        ensures ok { IfOk result (λ r. MatchOption r ((self.old ≡ []) × (self.new ≡ [])) (λ walk. self.old ≡ walk ∷ self.new)) }
        ensures err { OnErr result (self.new ≡ self.old) }
    {
        Ok(self.search.next()?)
    }
}
