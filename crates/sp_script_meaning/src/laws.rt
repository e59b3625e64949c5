//! What holds of scripts and conditions alone, as contracts of functions that do nothing.

ghost use Rattle.std.specs.Prelude.{◌≡◌, ℕ, List, ◌++◌, Result};
ghost use Rattle.sp_base.specs.Image.{ImageMap};
ghost use Rattle.sp_term.specs.Admissible.{Condition};
ghost use Rattle.sp_steps.specs.Subgoals.{State};
ghost use Rattle.sp_script_text.specs.declared.rule.Rule.{Rule};
ghost use Rattle.sp_script_text.specs.declared.script.Script.{Script};
ghost use Rattle.sp_script_text.specs.declared.script.Written.{Written};
ghost use Rattle.sp_script_meaning.specs.declared.refusal.Proved.{Proved};
ghost use Rattle.sp_script_meaning.specs.declared.refusal.ScriptRefusal.{ScriptRefusal};
ghost use Rattle.sp_script_meaning.specs.Checking.{Leads, Proves, IsStuck, IsUnfinished, AnswersCheck, IsCompleteCheck};

/// Steps lead from one list of subgoals to one other at most.
#[tactic(auto, using(crate::proofs::OneLemmas::leads_one))]
pub fn steps_lead_one_way()
    ensures { (image : ImageMap) (steps : List Written) (old one other : State) → Leads image steps old one → Leads image steps old other → one ≡ other }
{}

/// Steps that go on where others ended lead on.
#[tactic(auto, using(crate::proofs::OneLemmas::leads_on))]
pub fn steps_go_on()
    ensures { (image : ImageMap) (first more : List Written) (old middle new : State) → Leads image first old middle → Leads image more middle new → Leads image (first ++ more) old new }
{}

/// A script shows its condition, or one step is the first that doesn't apply, or all apply and a subgoal is left: no two of
/// these hold. So an answer that says the right thing is the only one.
#[tactic(auto, using(crate::proofs::OneLemmas::complete_check))]
pub fn a_script_has_one_answer()
    ensures { (image : ImageMap) (c : Condition) (s : Script) (result : Result Proved ScriptRefusal) → AnswersCheck image c s result → IsCompleteCheck image c s result }
{}
