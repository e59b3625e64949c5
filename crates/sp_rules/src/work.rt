//! The subgoals as a stack. The hypotheses of the first one stand in one list, and each waiting subgoal shares their
//! beginning.

ghost use Rattle.std.specs.Prelude.{◌≡◌, ◌↔◌, ◌∷◌, ◌++◌, [], map, take, option_map, IfOk, OnOk, IsTrue};
ghost use Rattle.sp_term.specs.Conditions.{trees, change_of, condition_of};
ghost use Rattle.sp_steps.specs.Subgoals.{subgoal, hypothesis as hypothesis_in, start};
ghost use Rattle.sp_rules.specs.code.Work.{hypotheses_of, rest_of, changes_of, state_of, IsWork};
ghost use Rattle.sp_rules.specs.code.Outcome.{Becomes, placed_in, IsPushed, IsEntered, IsTakenOut};

use crate::formulas::{Added, conjunction, list_of_one, list_of_three, list_of_two, nothing};
use crate::goals::{After, Goals};
use bumpalo::Bump;
use sp_base::Memory;
use sp_steps::RuleRefusal;
use sp_term::{Cond, MemFrame, Term};
use std::alloc::Global;

/// A subgoal that waits: how many hypotheses it shares, what it has after these, and its goal.
#[derive(Clone, Copy)]
pub struct Waiting<'a> {
    kept: usize,
    added: &'a [&'a Term<'a>],
    goal: &'a Term<'a>,
}

/// Hypotheses at work, the waiting subgoals with the first one last, and how the memory variables are related.
#[derive(Drop)]
pub struct Work<'a> {
    alloc: Global,
    hypotheses: Vec<&'a Term<'a>>,
    waiting: Vec<Waiting<'a>>,
    frames: &'a [MemFrame<'a>],
}

/// The most hypotheses of a subgoal where some are added.
const MOST_HYPOTHESES: usize = 4_096;

/// The most subgoals where their number rises.
const MOST_SUBGOALS: usize = 4_096;

impl<'a> Work<'a> {
    /// The subgoals of a condition: one with its goals joined, or none where it has no goals.
    #[tactic(auto, using(crate::proofs::WorkLemmas::started))]
    pub fn new(alloc: Global, c: Cond<'a>, arena: &'a Bump) -> Result<Work<'a>, Memory>
        ensures work { IfOk result (λ w. IsWork w) }
        ensures state { IfOk result (λ w. state_of w ≡ start (condition_of c.entry)) }
    {
        match conjunction(arena, c.goals)? {
            Some(goal) => {
                let first = Waiting {
                    kept: 0,
                    added: c.hyps,
                    goal,
                };
                Work::with_first(alloc, c, first)
            }
            None => Ok(Work::without_goals(alloc, c)),
        }
    }

    #[tactic(auto, using(crate::proofs::WorkLemmas::empty_works))]
    fn without_goals(alloc: Global, c: Cond<'a>) -> Work<'a>
        ensures waiting { result.waiting.items ≡ [] }
        ensures frames { result.frames ≡ c.entry.frames }
        ensures work { IsWork result }
    {
        Work {
            alloc,
            hypotheses: Vec::new(alloc),
            waiting: Vec::new(alloc),
            frames: c.frames,
        }
    }

    fn with_first(alloc: Global, c: Cond<'a>, first: Waiting<'a>) -> Result<Work<'a>, Memory>
        ensures hypotheses { IfOk result (λ w. w.hypotheses.items ≡ []) }
        ensures waiting { IfOk result (λ w. w.waiting.items ≡ first.entry ∷ []) }
        ensures frames { IfOk result (λ w. w.frames ≡ c.entry.frames) }
    {
        let mut waiting = Vec::new(alloc);
        waiting.push(first)?;
        Ok(Work {
            alloc,
            hypotheses: Vec::new(alloc),
            waiting,
            frames: c.frames,
        })
    }

    pub fn is_empty(&self) -> bool
        ensures { IsTrue result ↔ (rest_of self.now ≡ []) }
    {
        self.waiting.is_empty()
    }

    pub fn alloc(&self) -> Global {
        self.alloc
    }

    /// The hypotheses at work.
    pub fn hypotheses(&self) -> &[&'a Term<'a>]
        ensures { trees result.now ≡ hypotheses_of self.now }
    {
        &self.hypotheses
    }

    /// How the memory variables are related.
    pub fn frames(&self) -> &'a [MemFrame<'a>]
        ensures { map change_of result.now ≡ changes_of self.now }
    {
        self.frames
    }

    /// The hypothesis with a number from 1, if there is one.
    pub fn hypothesis(&self, k: u32) -> Option<&'a Term<'a>>
        ensures { option_map (λ h. h.now) result ≡ hypothesis_in (hypotheses_of self.now) k }
    {
        if k == 0 {
            return None;
        }
        self.hypotheses.get(k as usize - 1).copied()
    }

    /// Takes the first subgoal out: its hypotheses are then at work, and its goal is given. `NoApply` where there is none.
    fn first(&mut self) -> Result<&'a Term<'a>, RuleRefusal>
        requires { IsWork self.old }
        ensures work { IfOk result (λ _. IsWork self.new) }
        ensures entered { IsEntered result (rest_of self.old) self.new }
        ensures changes { changes_of self.new ≡ changes_of self.old }
    {
        let Some(first) = self.waiting.pop() else {
            return Err(RuleRefusal::NoApply);
        };
        self.load(first.kept, first.added)?;
        Ok(first.goal)
    }

    /// Some hypotheses stay at work, and others come after them.
    fn load(&mut self, kept: usize, added: &[&'a Term<'a>]) -> Result<(), Memory>
        ensures hypotheses { OnOk result (hypotheses_of self.new ≡ take kept (hypotheses_of self.old) ++ trees added.now) }
        ensures waiting { self.new.waiting ≡ self.old.waiting }
        ensures frames { self.new.frames ≡ self.old.frames }
    {
        self.hypotheses.truncate(kept);
        self.hypotheses.extend_from_slice(added)?;
        Ok(())
    }

    /// One more subgoal, with all the hypotheses at work and some more.
    fn push(&mut self, added: Added<'a>, goal: &'a Term<'a>) -> Result<(), RuleRefusal>
        requires { IsWork self.old }
        ensures work { IfOk result (λ _. IsWork self.new) }
        ensures pushed { IsPushed result self.old self.new (trees added.entry.list.now) goal.now }
        ensures hypotheses { self.new.hypotheses ≡ self.old.hypotheses }
        ensures frames { self.new.frames ≡ self.old.frames }
    {
        let kept = self.hypotheses.len();
        let added = added.list;
        if !added.is_empty() && kept + added.len() > MOST_HYPOTHESES {
            return Err(RuleRefusal::NoApply);
        }
        self.wait(Waiting { kept, added, goal })?;
        Ok(())
    }

    fn wait(&mut self, subgoal: Waiting<'a>) -> Result<(), Memory>
        ensures waiting { OnOk result (self.new.waiting.items ≡ self.old.waiting.items ++ subgoal.entry ∷ []) }
        ensures hypotheses { self.new.hypotheses ≡ self.old.hypotheses }
        ensures frames { self.new.frames ≡ self.old.frames }
    {
        self.waiting.push(subgoal)?;
        Ok(())
    }

    /// The first subgoal goes.
    pub fn done(self) -> After<'a>
        requires { IsWork self }
        ensures { Becomes result (placed_in self.entry []) }
    {
        Ok(Goals { work: self })
    }

    /// One subgoal in the place of the first one.
    pub fn one(self, added: Added<'a>, goal: &'a Term<'a>) -> After<'a>
        requires { IsWork self }
        ensures { Becomes result (placed_in self.entry (subgoal (trees added.entry.list.now) goal.now ∷ [])) }
    {
        let mut work = self;
        work.push(added, goal)?;
        Ok(Goals { work })
    }

    /// Two subgoals in the place of the first one.
    pub fn two(
        self,
        one_added: Added<'a>,
        one_goal: &'a Term<'a>,
        added: Added<'a>,
        goal: &'a Term<'a>,
    ) -> After<'a>
        requires { IsWork self }
        ensures { Becomes result (placed_in self.entry (subgoal (trees one_added.entry.list.now) one_goal.now ∷ subgoal (trees added.entry.list.now) goal.now ∷ [])) }
    {
        let mut work = self;
        if work.waiting.len() + 2 > MOST_SUBGOALS {
            return Err(RuleRefusal::NoApply);
        }
        work.push(added, goal)?;
        work.push(one_added, one_goal)?;
        Ok(Goals { work })
    }

    /// The goal is another one.
    pub fn turn(self, goal: &'a Term<'a>) -> After<'a>
        requires { IsWork self }
        ensures { Becomes result (placed_in self.entry (subgoal [] goal.now ∷ [])) }
    {
        self.one(nothing(), goal)
    }

    /// Two subgoals with nothing added.
    pub fn turn_two(self, one: &'a Term<'a>, other: &'a Term<'a>) -> After<'a>
        requires { IsWork self }
        ensures { Becomes result (placed_in self.entry (subgoal [] one.now ∷ subgoal [] other.now ∷ [])) }
    {
        self.two(nothing(), one, nothing(), other)
    }

    /// A hypothesis is added.
    pub fn add_one(self, arena: &'a Bump, p: &'a Term<'a>, goal: &'a Term<'a>) -> After<'a>
        requires { IsWork self }
        ensures { Becomes result (placed_in self.entry (subgoal (p.now ∷ []) goal.now ∷ [])) }
    {
        let added = list_of_one(arena, p)?;
        self.one(added, goal)
    }

    /// Two hypotheses are added.
    pub fn add_two(
        self,
        arena: &'a Bump,
        p: &'a Term<'a>,
        q: &'a Term<'a>,
        goal: &'a Term<'a>,
    ) -> After<'a>
        requires { IsWork self }
        ensures { Becomes result (placed_in self.entry (subgoal (p.now ∷ q.now ∷ []) goal.now ∷ [])) }
    {
        let added = list_of_two(arena, p, q)?;
        self.one(added, goal)
    }

    /// Three hypotheses are added.
    pub fn add_three(
        self,
        arena: &'a Bump,
        p: &'a Term<'a>,
        q: &'a Term<'a>,
        r: &'a Term<'a>,
        goal: &'a Term<'a>,
    ) -> After<'a>
        requires { IsWork self }
        ensures { Becomes result (placed_in self.entry (subgoal (p.now ∷ q.now ∷ r.now ∷ []) goal.now ∷ [])) }
    {
        let added = list_of_three(arena, p, q, r)?;
        self.one(added, goal)
    }
}

/// The subgoals with the first one taken out, and its goal. `NoApply` where there is none.
pub fn enter<'a>(goals: Goals<'a>) -> Result<(Work<'a>, &'a Term<'a>), RuleRefusal>
    ensures work { IfOk result (λ r. IsWork r.0) }
    ensures entered { IsTakenOut result goals.entry }
{
    let mut work = goals.work;
    let goal = work.first()?;
    Ok((work, goal))
}
