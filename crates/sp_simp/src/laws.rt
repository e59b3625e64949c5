//! What holds of simple forms and intervals, as contracts of functions that do nothing.

ghost use Rattle.std.specs.Prelude.{◌≡◌, ◌↔◌, ℕ, ◌≤◌, ℤ, pos, negsuc, ◌≤ℤ◌, Bool, true, false, IsTrue, List, [], ◌∷◌, Option, Some, None, All};
ghost use Rattle.sp_base.specs.Image.{ImageMap};
ghost use Rattle.sp_base.specs.declared.location.Loc.TheVariants as loc;
ghost use Rattle.sp_term.specs.declared.interval.Interval.{Interval};
ghost use Rattle.sp_term.specs.declared.var.Var.{Var};
ghost use Rattle.sp_term.specs.declared.var.Var.TheVariants as var;
ghost use Rattle.sp_term.specs.Tree.{
  Tree,
  Literal,
  Truth,
  Variable,
  Add,
  Multiply,
  Divide,
  Remainder,
  ByteAnd,
  Bit,
  Psw,
  If,
  Element,
  Update,
  Equal,
  Less,
  Not,
  And,
  nodes,
};
ghost use Rattle.sp_term.specs.Sorts.{Sort, Int, Memory, HasSort};
ghost use Rattle.sp_term.specs.Free.{is_free, IsClosed};
ghost use Rattle.sp_term.specs.Value.{Env, value, int_of, map_of};
ghost use Rattle.sp_term.specs.Intervals.{interval};
ghost use Rattle.sp_term.specs.Admissible.{Region, Change, Condition, IsAdmissible, IsTrueAt};
ghost use Rattle.sp_simp.specs.Ranges.{IsInRanges};
ghost use Rattle.sp_simp.specs.Same.{tree_eq};
ghost use Rattle.sp_simp.specs.Rules.{Right, Is, Made, MadePlus, MadeModulo, rule, written};
ghost use Rattle.sp_simp.specs.Simple.{IsSimpleForm};
ghost use Rattle.sp_simp.specs.Simplified.{IsFormula, IsSimplified, fresh, goals_left, all_conjuncts};

/// The test of two trees passes exactly where they are one.
pub fn trees_are_compared()
    ensures { (x y : Tree) → IsTrue (tree_eq x y) ↔ (x ≡ y) }
{}

/// Every tree has a simple form, and no other one.
pub fn a_tree_has_one_simple_form()
    ensures one { (t r s : Tree) → IsSimpleForm t r → IsSimpleForm t s → r ≡ s }
    ensures some { (t : Tree) → (r : Tree) × IsSimpleForm t r }
{}

/// No rule makes a tree have more nodes, and so the simple form of a tree has no more than it.
pub fn no_rule_adds_nodes()
    ensures rule { (t : Tree) (p : Right) → rule t ≡ Some p → nodes (written p) ≤ nodes t }
    ensures form { (t r : Tree) → IsSimpleForm t r → nodes r ≤ nodes t }
{}

/// In an admissible environment each variable is in its range.
pub fn admissible_environments_are_in_ranges()
    ensures { (image : ImageMap) (stack : Region) (changes : List Change) (e : Env) → IsAdmissible image stack changes e → IsInRanges stack e }
{}

/// The value of a term lies in its interval, and each cell of a memory in the memory's.
pub fn terms_lie_in_their_intervals()
    ensures term { (stack : Region) (e : Env) (t : Tree) (i : Interval) → IsInRanges stack e → HasSort t Int → interval t ≡ Some i →
        (i.low ≤ℤ int_of e t) × (int_of e t ≤ℤ i.high) }
    ensures memory { (stack : Region) (e : Env) (t : Tree) (i : Interval) (z : ℤ) → IsInRanges stack e → HasSort t Memory → interval t ≡ Some i →
        (i.low ≤ℤ map_of e t z) × (map_of e t z ≤ℤ i.high) }
{}

/// Each rule keeps the value of a term in every environment in which the variables are in their ranges.
pub fn rules_keep_values()
    ensures { (stack : Region) (e : Env) (t : Tree) (s : Sort) (p : Right) → IsInRanges stack e → HasSort t s → rule t ≡ Some p →
        value e t ≡ value e (written p) }
{}

/// The simple form of a term has its value in every environment in which the variables are in their ranges, and so in every
/// admissible one.
pub fn simple_forms_keep_values()
    ensures ranges { (stack : Region) (e : Env) (t r : Tree) (s : Sort) → IsInRanges stack e → HasSort t s → IsSimpleForm t r →
        value e t ≡ value e r }
    ensures admissible { (image : ImageMap) (stack : Region) (changes : List Change) (e : Env) (t r : Tree) (s : Sort) →
        IsAdmissible image stack changes e → HasSort t s → IsSimpleForm t r → value e t ≡ value e r }
{}

/// The simple form of a term has its sort, and no other free variables. That of a closed one is closed.
pub fn simple_forms_keep_terms()
    ensures sort { (t r : Tree) (s : Sort) → IsSimpleForm t r → HasSort t s → HasSort r s }
    ensures free { (v : Var) (t r : Tree) → IsSimpleForm t r → IsTrue (is_free v r) → IsTrue (is_free v t) }
    ensures closed { (t r : Tree) → IsSimpleForm t r → IsClosed t → IsClosed r }
{}

/// A condition of formulas has one simplified condition, which is true in the same environments.
pub fn conditions_keep_their_truth()
    ensures one { (c r q : Condition) → IsSimplified c r → IsSimplified c q → r ≡ q }
    ensures truth { (stack : Region) (e : Env) (c r : Condition) → IsInRanges stack e → All IsFormula c.hypotheses → All IsFormula c.goals →
        IsSimplified c r → IsTrueAt e c ↔ IsTrueAt e r }
{}

/// What single rules write, each beside a node that differs in one thing.
pub fn rules_by_example()
    ensures sum { rule (Add (Literal (pos 9223372036854775806)) (Literal (pos 1))) ≡ Some (Is (Literal (pos 9223372036854775807))) }
    ensures sum_too_great { rule (Add (Literal (pos 9223372036854775807)) (Literal (pos 1))) ≡ None }
    ensures small { let a = Variable (var.Now loc.A) in rule (Remainder a (Literal (pos 256))) ≡ Some (Is a) }
    ensures not_small { rule (Remainder (Variable (var.Now loc.A)) (Literal (pos 255))) ≡ None }
    ensures parts { let x = Variable (var.Any 1) in let n = Literal (pos 256) in
        rule (Add (Multiply n (Divide x n)) (Remainder x n)) ≡ Some (Is x) }
    ensures parts_exchanged { (k : ℕ) → let x = Variable (var.Any k) in let n = Literal (pos 256) in
        rule (Add (Remainder x n) (Multiply n (Divide x n))) ≡ None }
    ensures divisor { (k : ℕ) → let x = Variable (var.Any k) in
        rule (Remainder (Remainder x (Literal (pos 256))) (Literal (pos 16))) ≡ Some (Made (Remainder x (Literal (pos 16)))) }
    ensures no_divisor { (k : ℕ) → rule (Remainder (Remainder (Variable (var.Any k)) (Literal (pos 256))) (Literal (pos 3))) ≡ None }
    ensures written_cell { (m v : Tree) → let x = Variable (var.Any 1) in rule (Element (Update m x v) x) ≡ Some (Is v) }
    ensures other_offset { (m v : Tree) → let x = Variable (var.Any 1) in let y = Add x (Literal (pos 2)) in
        rule (Element (Update m (Add x (Literal (pos 1))) v) y) ≡ Some (Made (Element m y)) }
    ensures perhaps_same { (m v : Tree) → rule (Element (Update m (Variable (var.Any 1)) v) (Variable (var.Any 2))) ≡ None }
    ensures right_side { (k : ℕ) → let x = Variable (var.Any k) in
        rule (Less (Literal (pos 5)) (Add x (Literal (pos 3)))) ≡ Some (Made (Less (Literal (pos 2)) x)) }
    ensures left_side { (k : ℕ) → let x = Variable (var.Any k) in
        rule (Less (Add x (Literal (pos 3))) (Literal (pos 5))) ≡ Some (Made (Less x (Literal (pos 2)))) }
    ensures first_number { (x y : Tree) → let p = Less x y in rule (Equal (If p (Literal (pos 1)) (Literal (pos 0))) (Literal (pos 1))) ≡ Some (Is p) }
    ensures second_number { (x y : Tree) → let p = Less x y in
        rule (Equal (If p (Literal (pos 1)) (Literal (pos 0))) (Literal (pos 0))) ≡ Some (Made (Not p)) }
{}

/// Conditions are split at each `and`, and what is known goes; a hypothesis that is false leaves no goal.
pub fn simplified_conditions_by_example()
    ensures split { (x y : Tree) → all_conjuncts (And (Equal x y) (And (Less x y) (Less y x)) ∷ []) ≡ Equal x y ∷ Less x y ∷ Less y x ∷ [] }
    ensures repeated { let p = Less (Literal (pos 1)) (Variable (var.Any 1)) in fresh [] (p ∷ p ∷ []) ≡ p ∷ [] }
    ensures known { let p = Less (Literal (pos 1)) (Variable (var.Any 1)) in let q = Less (Literal (pos 2)) (Variable (var.Any 1)) in
        fresh (p ∷ []) (q ∷ p ∷ Truth true ∷ []) ≡ q ∷ [] }
    ensures absurd_hypothesis { (p : Tree) → goals_left (Truth false ∷ []) (p ∷ []) ≡ [] }
    ensures true_hypothesis { let p = Less (Literal (pos 1)) (Variable (var.Any 1)) in goals_left [] (p ∷ []) ≡ p ∷ [] }
{}
