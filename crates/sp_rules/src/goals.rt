ghost use Rattle.std.specs.Prelude.{◌≡◌, ◌↔◌, [], IfOk, IsTrue};
ghost use Rattle.sp_term.specs.Conditions.{condition_of};
ghost use Rattle.sp_steps.specs.Subgoals.{start};
ghost use Rattle.sp_rules.specs.First.{IsFirst};

use crate::work::{Work, enter};
use bumpalo::Bump;
use sp_base::Memory;
use sp_steps::RuleRefusal;
use sp_term::{Cond, Term};
use std::alloc::Global;
use std::marker::Model;

/// What `cases` goes by: a hypothesis with a number, or a formula.
#[derive(Clone, Copy, Drop)]
pub enum Case<'a> {
    Hyp(u32),
    Formula(&'a Term<'a>),
}

/// The subgoals of a script, each with its hypotheses and its goal, and how the memory variables are related.
#[derive(Drop)]
pub struct Goals<'a> {
    pub work: Work<'a>,
}

/// A subgoal: its hypotheses, numbered from 1, and its goal.
#[derive(Drop)]
pub struct Subgoal<'a> {
    pub hypotheses: Vec<&'a Term<'a>>,
    pub goal: &'a Term<'a>,
}

/// The subgoals after a step.
pub type After<'a> = Result<Goals<'a>, RuleRefusal>;

impl<'a> Model for Goals<'a> {
    ghost use Rattle.sp_steps.specs.Subgoals.{State};
    ghost use Rattle.sp_rules.specs.code.Work.{state_of, IsWork};
    ghost use Rattle.sp_rules.specs.code.StateCode.{state_code};

    ghost Value = { State };

    ghost coded = { state_code };

    ghost view = { λ g. state_of g.work };

    ghost invariant = { λ g. IsWork g.work };
}

impl<'a> Goals<'a> {
    /// The first subgoals of a simplified condition: its hypotheses, and its goals joined by `and`; none where it has no
    /// goals. It isn't simplified again.
    pub fn new(alloc: Global, c: Cond<'a>, arena: &'a Bump) -> Result<Goals<'a>, Memory>
        ensures { IfOk result (λ g. g ≡ start (condition_of c.entry)) }
    {
        let work = Work::new(alloc, c, arena)?;
        Ok(Goals { work })
    }

    /// Whether no subgoal is left.
    pub fn is_empty(&self) -> bool
        ensures { IsTrue result ↔ (self.now.subgoals ≡ []) }
    {
        self.work.is_empty()
    }

    /// Takes the first subgoal out, to be shown: this subgoal and those after it, or None where there is none.
    pub fn take_first(self) -> Result<Option<(Subgoal<'a>, Goals<'a>)>, Memory>
        ensures { IfOk result (λ first. IsFirst first self.entry) }
    {
        match enter(self) {
            Ok((work, goal)) => {
                let mut hypotheses = Vec::new(work.alloc());
                hypotheses.extend_from_slice(work.hypotheses())?;
                Ok(Some((Subgoal { hypotheses, goal }, Goals { work })))
            }
            Err(RuleRefusal::NoApply) => Ok(None),
            Err(RuleRefusal::Memory) => Err(Memory),
        }
    }
}
