//! What holds of scripts that are proved, as a contract of a function that does nothing.

ghost use Rattle.std.specs.Prelude.{Result, IfOk};
ghost use Rattle.sp_base.specs.Image.{ImageMap};
ghost use Rattle.sp_term.specs.Admissible.{Region, Condition, IsValid};
ghost use Rattle.sp_steps.specs.Subgoals.{start};
ghost use Rattle.sp_steps.specs.Soundness.{IsProper};
ghost use Rattle.sp_script_text.specs.declared.script.Script.{Script};
ghost use Rattle.sp_script_meaning.specs.declared.refusal.Proved.{Proved};
ghost use Rattle.sp_script_meaning.specs.declared.refusal.ScriptRefusal.{ScriptRefusal};
ghost use Rattle.sp_script_meaning.specs.Checking.{AnswersCheck};

/// A condition of closed formulas whose script is answered with `Proved` is true in every admissible environment, wherever
/// the stack lies.
pub fn proved_conditions_are_true()
    ensures { (image : ImageMap) (stack : Region) (c : Condition) (s : Script) (result : Result Proved ScriptRefusal) → AnswersCheck image c s result →
        IsProper (start c) → IfOk result (λ _. IsValid image stack c) }
{}
