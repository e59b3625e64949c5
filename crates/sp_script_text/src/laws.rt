//! What holds of steps, lines and files alone, as contracts of functions that do nothing.

ghost use Rattle.std.specs.Prelude.{◌≡◌, ℕ, List, ◌∷◌, [], codes, pos, negsuc, Some, None, true};
ghost use Rattle.sp_base.specs.declared.location.Loc.TheVariants as loc;
ghost use Rattle.sp_term.specs.declared.var.Var.TheVariants as var;
ghost use Rattle.sp_term.specs.Tree.{Truth, Variable};
ghost use Rattle.sp_script_text.specs.declared.script.Title.{Title};
ghost use Rattle.sp_script_text.specs.declared.script.Script.{Script};
ghost use Rattle.sp_script_text.specs.declared.refusal.ScriptKind.{ScriptKind};
ghost use Rattle.sp_script_text.specs.Steps.{Step, Close, UseBoth, Cut, Rewrite, Linear, Frame};
ghost use Rattle.sp_script_text.specs.StepTexts.{IsStep};
ghost use Rattle.sp_script_text.specs.Files.{IsIdle, IsHead, IsEnd, IsFile, IsCause};
ghost use Rattle.sp_script_text.specs.Examples.{IsNoStep, IsNoHead, first_of_a};

/// A line is one step at most.
#[tactic(auto, using(crate::proofs::StepLemmas::one_step))]
pub fn a_line_is_one_step()
    ensures { (line : List ℕ) (step other : Step) → IsStep step line → IsStep other line → step ≡ other }
{}

/// A text is a file of scripts in one way at most, or is refused at one line in one way, and never both.
#[tactic(auto, using(crate::proofs::UniqueLemmas::one_file, crate::proofs::UniqueLemmas::one_cause, crate::proofs::UniqueLemmas::apart))]
pub fn a_text_has_one_reading()
    ensures file { (text : List ℕ) (a b : List Script) → IsFile text a → IsFile text b → a ≡ b }
    ensures cause { (text : List ℕ) (line there : ℕ) (kind other : ScriptKind) → IsCause text line kind → IsCause text there other → (line ≡ there) × (kind ≡ other) }
    ensures apart { (text : List ℕ) (scripts : List Script) (line : ℕ) (kind : ScriptKind) → IsFile text scripts → IsCause text line kind → ⊥ }
{}

/// Steps as they are written, each beside a line that differs in one thing and is none.
pub fn steps_by_example()
    ensures hypothesis { IsStep (Close 12) (codes "close h12") }
    ensures zero { IsNoStep (codes "close h0") }
    ensures leading { IsNoStep (codes "close h012") }
    ensures case { IsNoStep (codes "Close h12") }
    ensures blanks { IsStep (UseBoth 1 2) (codes " use  h1 h2 ") }
    ensures comma { IsNoStep (codes "use h1,h2") }
    ensures back { IsStep (Rewrite 1 None true) (codes "rewrite h1 back") }
    ensures back_first { IsNoStep (codes "rewrite back h1") }
    ensures formula { IsStep (Cut (Truth true)) (codes "cut true") }
    ensures sort { IsNoStep (codes "cut a") }
    ensures glued { IsNoStep (codes "cut(a = 0)") }
    ensures numbers { IsStep (Linear (pos 0) ((negsuc 0, 4) ∷ [])) (codes "linear 0 -1 h4") }
    ensures nameless { IsNoStep (codes "linear 0 -1") }
    ensures memory { IsStep (Frame (Variable var.Mem) (Variable (var.Now loc.A))) (codes "frame mem a") }
    ensures memory_last { IsNoStep (codes "frame a mem") }
{}

/// Lines that say nothing, first lines and last lines of scripts, each beside a line that differs in one thing.
pub fn lines_by_example()
    ensures comment { IsIdle (codes "-- x") }
    ensures indented { ¬ IsIdle (codes " -- x") }
    ensures head { IsHead first_of_a (codes "script a.1") }
    ensures zero { IsNoHead (codes "script a.0") }
    ensures number { IsNoHead (codes "script a") }
    ensures name { IsNoHead (codes "script 1.1") }
    ensures last { IsEnd (codes "end ") }
    ensures no_last { ¬ IsEnd (codes "ends") }
{}
