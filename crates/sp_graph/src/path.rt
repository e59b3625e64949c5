ghost use Rattle.std.specs.Prelude.{◌≡◌, ◌∷◌, ◌++◌, [], List, OnOk, OnErr, IfOk, MatchOption};
ghost use Rattle.sp_graph.specs.declared.walk.Step.{Step};

use crate::{Step, Steps};
use sp_base::Seq;
use std::alloc::{AllocError, Global};
use std::marker::Model;

/// The steps from a cut point to where a search is.
#[derive(Debug, Drop)]
pub struct Path {
    items: Vec<Step>,
}

impl Model for Path {
    ghost Value = { List Step };

    ghost view = { λ path. path.items.items };
}

impl Path {
    pub fn new(alloc: Global) -> Path
        ensures { result ≡ [] }
    {
        Path {
            items: Vec::new(alloc),
        }
    }

    pub fn push(&mut self, step: Step) -> Result<(), AllocError>
        ensures ok { OnOk result (self.new ≡ self.old ++ step ∷ []) }
        ensures err { OnErr result (self.new ≡ self.old) }
    {
        self.items.push(step)?;
        Ok(())
    }

    pub fn pop(&mut self) -> Option<Step>
        ensures { MatchOption result ((self.old ≡ []) × (self.new ≡ [])) (λ step. self.old ≡ self.new ++ step ∷ []) }
    {
        self.items.pop()
    }

    /// The steps as those of a walk.
    pub fn copy(&self) -> Result<Steps, AllocError>
        ensures { IfOk result (λ s. s ≡ self.now) }
    {
        Ok(Seq::from_vec(self.items.clone()?))
    }
}
