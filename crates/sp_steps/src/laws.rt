//! What holds of steps, as contracts of functions that do nothing.

ghost use Rattle.std.specs.Prelude.{◌≡◌, ◌≤◌, ℕ, ℤ, pos, negsuc, Bool, true, false, List, [], ◌∷◌, ◌++◌, length, Option, Some, None};
ghost use Rattle.std.specs.FinMap as maps;
ghost use Rattle.sp_term.specs.declared.var.Var.TheVariants as var;
ghost use Rattle.sp_term.specs.Tree.{
  Tree,
  Literal,
  Truth,
  Variable,
  Add,
  Equal,
  Less,
  LessOrEqual,
  Not,
  And,
  Or,
  Implies,
  Iff,
  ForAll,
  ForSome,
  Element,
  Update,
  Total,
};
ghost use Rattle.sp_term.specs.Admissible.{Change};
ghost use Rattle.sp_steps.specs.declared.side.Side.TheVariants as side;
ghost use Rattle.sp_steps.specs.Subgoals.{Subgoal, State, subgoal, hypothesis, joined, first_subgoals, IsFresh};
ghost use Rattle.sp_steps.specs.Steps.{Step, New, Piece, Taken, Built, turned, with_added, adds};
ghost use Rattle.sp_steps.specs.Rewriting.{stands_in_tree, rewritten};
ghost use Rattle.sp_steps.specs.Rows.{split_goal, introduced, on_side, unpacked, used, cases_of, given, divided, loaded, bit_of, outside, change_of_memory};
ghost use Rattle.sp_steps.specs.Next.{Row, after, IsNext};

/// A step makes one list of subgoals at most of a state.
pub fn a_step_has_one_next_state()
    ensures row { (cs : List Change) (g : Subgoal) (step : Step) (one other : List New) → Row cs g step one → Row cs g step other → one ≡ other }
    ensures state { (step : Step) (old one other : State) → IsNext step old one → IsNext step old other → one ≡ other }
{}

/// A subgoal has one fresh variable at most, and none of a lower number is new.
pub fn a_subgoal_has_one_fresh_variable()
    ensures { (g : Subgoal) (i j : ℕ) → IsFresh g i → IsFresh g j → i ≡ j }
{}

/// No step applies where no subgoal is left.
pub fn nothing_follows_the_last_subgoal()
    ensures { (step : Step) (old new : State) → old.subgoals ≡ [] → IsNext step old new → ⊥ }
{}

/// Goals are joined to the right, and hypotheses are numbered from 1.
pub fn first_states_by_example()
    ensures goals { (hs : List Tree) (p q r : Tree) → first_subgoals hs (p ∷ q ∷ r ∷ []) ≡ subgoal hs (And p (And q r)) ∷ [] }
    ensures one { (hs : List Tree) (p : Tree) → first_subgoals hs (p ∷ []) ≡ subgoal hs p ∷ [] }
    ensures none { (hs : List Tree) → first_subgoals hs [] ≡ [] }
    ensures numbered { (p q : Tree) → hypothesis (p ∷ q ∷ []) 2 ≡ Some q }
    ensures from_one { (p q : Tree) → hypothesis (p ∷ q ∷ []) 0 ≡ None }
    ensures to_the_last { (p q : Tree) → hypothesis (p ∷ q ∷ []) 3 ≡ None }
{}

/// The new subgoals take the place of the first one; what is added stands after the hypotheses.
pub fn new_subgoals_stand_first()
    ensures two { (h p q : Tree) (rest : Subgoal) → after (h ∷ []) (rest ∷ []) (turned (Taken p) ∷ with_added (Taken p ∷ []) (Taken q) ∷ []) ≡
        Some (subgoal (h ∷ []) p ∷ subgoal (h ∷ p ∷ []) q ∷ rest ∷ []) }
    ensures none { (h : Tree) (rest : Subgoal) → after (h ∷ []) (rest ∷ []) [] ≡ Some (rest ∷ []) }
{}

/// Where a step adds a hypothesis there are at most 4,096, and where it raises the number of subgoals there are at most 4,096.
/// A step that doesn't isn't held up by what is there.
pub fn limits_by_example()
    ensures hypotheses { (hs : List Tree) (p q : Tree) → length hs ≡ 4096 → after hs [] (with_added (Taken p ∷ []) (Taken q) ∷ []) ≡ None }
    ensures one_fewer { (hs : List Tree) (p q : Tree) → length hs ≡ 4095 →
        after hs [] (with_added (Taken p ∷ []) (Taken q) ∷ []) ≡ Some (subgoal (hs ++ p ∷ []) q ∷ []) }
    ensures nothing_added { (hs : List Tree) (q : Tree) → length hs ≡ 5000 → after hs [] (turned (Taken q) ∷ []) ≡ Some (subgoal (hs ++ []) q ∷ []) }
    ensures subgoals { (hs : List Tree) (rest : List Subgoal) (p q : Tree) → length rest ≡ 4095 →
        after hs rest (turned (Taken p) ∷ turned (Taken q) ∷ []) ≡ None }
    ensures one_subgoal_fewer { (hs : List Tree) (rest : List Subgoal) (p q : Tree) → length rest ≡ 4094 →
        after hs rest (turned (Taken p) ∷ turned (Taken q) ∷ []) ≡ Some (subgoal (hs ++ []) p ∷ subgoal (hs ++ []) q ∷ rest) }
    ensures no_more { (hs : List Tree) (rest : List Subgoal) (p : Tree) → length rest ≡ 5000 →
        after hs rest (turned (Taken p) ∷ []) ≡ Some (subgoal (hs ++ []) p ∷ rest) }
{}

/// What single rules make, each beside a subgoal or an argument that differs in one thing.
pub fn logic_by_example()
    ensures split { (p q : Tree) → split_goal (And p q) ≡ Some (turned (Taken p) ∷ turned (Taken q) ∷ []) }
    ensures no_split { (p q : Tree) → split_goal (Or p q) ≡ None }
    ensures split_equal { (x y : Tree) → split_goal (Equal x y) ≡ Some (turned (Built (LessOrEqual x y)) ∷ turned (Built (LessOrEqual y x)) ∷ []) }
    ensures intro { (p q : Tree) → introduced (Implies p q) ≡ Some (with_added (Taken p ∷ []) (Taken q) ∷ []) }
    ensures no_intro { (p q : Tree) → introduced (Iff p q) ≡ None }
    ensures left { (p q : Tree) → on_side side.Left (Or p q) ≡ Some (turned (Taken p) ∷ []) }
    ensures right { (p q : Tree) → on_side side.Right (Or p q) ≡ Some (turned (Taken q) ∷ []) }
    ensures apart { (x y goal : Tree) → unpacked (Some (Not (Equal x y))) goal ≡ adds (Built (Or (Less x y) (Less y x)) ∷ []) goal }
    ensures not_less { (x y goal : Tree) → unpacked (Some (Not (Less x y))) goal ≡ None }
    ensures cases { (p q goal : Tree) → cases_of (Some (Or p q)) goal ≡ Some (with_added (Taken p ∷ []) (Taken goal) ∷ with_added (Taken q ∷ []) (Taken goal) ∷ []) }
    ensures no_cases { (p q goal : Tree) → cases_of (Some (And p q)) goal ≡ None }
    ensures followed { (goal : Tree) → let p = Less (Literal (pos 0)) (Variable (var.Any 1)) in let q = Truth true in
        used (Some (Implies p q)) (Some p) goal ≡ adds (Taken q ∷ []) goal }
    ensures wrong_way { (goal : Tree) → let p = Less (Literal (pos 0)) (Variable (var.Any 1)) in let q = Truth true in
        used (Some p) (Some (Implies p q)) goal ≡ None }
    ensures other_premise { (goal : Tree) → let p = Less (Literal (pos 0)) (Variable (var.Any 1)) in let q = Truth true in
        used (Some (Implies p q)) (Some q) goal ≡ None }
{}

/// Terms are rewritten from outside, and what was put in isn't looked at again.
pub fn rewriting_by_example()
    ensures outermost { let a = Variable (var.Any 1) in let x = Add a a in rewritten x a (Add x x) ≡ Add a a }
    ensures once { let a = Variable (var.Any 1) in let one = Literal (pos 1) in rewritten a (Add a one) (Add a one) ≡ Add (Add a one) one }
    ensures stands { let a = Variable (var.Any 1) in stands_in_tree a (Not (Equal a (Literal (pos 1)))) ≡ true }
    ensures stands_not { let a = Variable (var.Any 1) in stands_in_tree (Variable (var.Any 2)) (Not (Equal a (Literal (pos 1)))) ≡ false }
{}

/// Areas stand in order, the last one alone; and what rules on numbers ask.
pub fn numbers_by_example()
    ensures areas { (x : Tree) → let lo = λ (n : ℕ). Less x (Literal (pos n)) in let hi = λ (n : ℕ). Less (Literal (pos n)) x in
        outside x ((1, 2) ∷ (3, 4) ∷ (5, 6) ∷ []) ≡ And (Or (lo 1) (hi 2)) (And (Or (lo 3) (hi 4)) (Or (lo 5) (hi 6))) }
    ensures no_areas { (x : Tree) → outside x [] ≡ Truth true }
    ensures no_divisor { (x goal : Tree) → divided x (pos 0) goal ≡ None }
    ensures negative_divisor { (x goal : Tree) → divided x (negsuc 0) goal ≡ None }
    ensures bit_eight { (x goal : Tree) → bit_of (pos 8) x goal ≡ None }
    ensures no_byte { (goal : Tree) → loaded [] (Variable var.MemEntry) (pos 0) maps.empty goal ≡ None }
    ensures entry_has_no_frame { (cs : List Change) (c : Tree) → change_of_memory (Variable var.MemEntry) ((record { variable = var.Mem; earlier = c; areas = [] }) ∷ []) ≡ None }
{}
