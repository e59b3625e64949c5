//! What a script shows is true, as a contract of a function that does nothing.

ghost use Rattle.sp_base.specs.Image.{ImageMap};
ghost use Rattle.sp_term.specs.Admissible.{Region, Condition, IsValid};
ghost use Rattle.sp_steps.specs.Subgoals.{start};
ghost use Rattle.sp_steps.specs.Soundness.{IsProper};
ghost use Rattle.sp_script_text.specs.declared.script.Script.{Script};
ghost use Rattle.sp_script_meaning.specs.Checking.{Proves};

/// A condition of closed formulas that a script shows is true in every admissible environment.
pub fn shown_conditions_are_true()
    ensures { (image : ImageMap) (stack : Region) (c : Condition) (s : Script) → IsProper (start c) → Proves image c s → IsValid image stack c }
{}
