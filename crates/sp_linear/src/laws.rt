//! What holds of polynomials and of the step `linear`, as contracts of functions that do nothing.

ghost use Rattle.std.specs.Prelude.{◌≡◌, ◌↔◌, ℕ, ◌≤◌, ℤ, pos, ◌≤ℤ◌, false, true, List, Some, length, unsigned_abs};
ghost use Rattle.std.specs.List.{AllByRecursion};
ghost use Rattle.sp_term.specs.Tree.{Tree};
ghost use Rattle.sp_term.specs.Value.{Env, int_of, IsTrueIn};
ghost use Rattle.sp_linear.specs.Polynomials.{polynomial, coefficient_in, size, count};
ghost use Rattle.sp_linear.specs.Linear.{form_of, negated, is_equality, IsSum, Follows};

/// A term's value comes from its coefficients alone.
pub fn polynomials_keep_values()
    ensures { (s t : Tree) → ((p : List Tree) → coefficient_in p s ≡ coefficient_in p t) → (e : Env) → int_of e s ≡ int_of e t }
{}

/// No coefficient is greater in absolute value than the size of the term, and the term multiplied out has as many monomials
/// as its count.
pub fn coefficients_are_within_sizes()
    ensures size { (p : List Tree) (t : Tree) → unsigned_abs (coefficient_in p t) ≤ size t }
    ensures count { (t : Tree) → length (polynomial t) ≡ count t }
{}

/// A comparison is true exactly where its form is at least 0, an equation where it is 0, and a goal is false exactly where the
/// negated goal is at least 0.
pub fn forms_mean_their_formulas()
    ensures comparison { (e : Env) (h form : Tree) → form_of h ≡ Some form → is_equality h ≡ false →
        IsTrueIn e h ↔ (pos 0 ≤ℤ int_of e form) }
    ensures equation { (e : Env) (h form : Tree) → form_of h ≡ Some form → is_equality h ≡ true → IsTrueIn e h ↔ (int_of e form ≡ pos 0) }
    ensures negated { (e : Env) (goal against : Tree) → negated goal ≡ Some against → ¬ (IsTrueIn e goal) ↔ (pos 0 ≤ℤ int_of e against) }
{}

/// Multipliers and hypotheses have one sum.
pub fn a_list_has_one_sum()
    ensures { (by : List (ℤ × Tree)) (s t : Tree) → IsSum by s → IsSum by t → s ≡ t }
{}

/// Where the hypotheses named are true, so is the goal.
pub fn linear_keeps_truth()
    ensures { (e : Env) (n0 : ℤ) (by : List (ℤ × Tree)) (goal : Tree) → Follows n0 by goal → AllByRecursion (λ h. IsTrueIn e h.1) by →
        IsTrueIn e goal }
{}
