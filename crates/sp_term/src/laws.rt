//! What holds of trees, values and environments alone, as contracts of functions that do nothing.

ghost use Rattle.std.specs.Prelude.{◌≡◌, ◌≢◌, ◌⊎◌, ◌↔◌, ℕ, ◌≤◌, ℤ, pos, negsuc, ◌≤ℤ◌, IsTrue, List, [], ◌∷◌, length, Option, Some, None};
ghost use Rattle.std.specs.FinMap as maps;
ghost use Rattle.sp_base.specs.Image.{ImageMap};
ghost use Rattle.sp_base.specs.declared.location.Loc.TheVariants as loc;
ghost use Rattle.sp_term.specs.declared.var.Var.{Var};
ghost use Rattle.sp_term.specs.declared.var.Var.TheVariants as var;
ghost use Rattle.sp_term.specs.Tree.{
  Tree,
  Literal,
  Variable,
  Add,
  Subtract,
  Multiply,
  Divide,
  Remainder,
  ByteXor,
  Bit,
  Psw,
  If,
  Element,
  Update,
  Total,
  Equal,
  Not,
  ForAll,
  ForSome,
  nodes,
  depth_of,
};
ghost use Rattle.sp_term.specs.Sorts.{Sort, HasSort, sort_of};
ghost use Rattle.sp_term.specs.Free.{is_free, IsClosed, replaced};
ghost use Rattle.sp_term.specs.Value.{Env, value, whole, bind, assigned, int_of, map_of, IsTrueIn};
ghost use Rattle.sp_term.specs.declared.interval.Interval.{Interval};
ghost use Rattle.sp_term.specs.Intervals.{interval, from_to, fits};
ghost use Rattle.sp_term.specs.Parts.{parts};
ghost use Rattle.sp_term.specs.Pools.{IsDistinct, IsAdded};
ghost use Rattle.sp_term.specs.Admissible.{Region, Change, IsAdmissible, zeros};

/// A tree is a term of one sort at most.
pub fn a_term_has_one_sort()
    ensures { (t : Tree) (s r : Sort) → HasSort t s → HasSort t r → s ≡ r }
{}

/// The number of a bit and the name of a quantifier are no nodes, and a literal has the depth 1.
pub fn nodes_and_depths_are_counted()
    ensures bit { (k : ℕ) (v : Var) → (nodes (Bit k (Variable v)) ≡ 2) × (depth_of (Bit k (Variable v)) ≡ 2) }
    ensures sum { (m n : ℤ) → (nodes (Add (Literal m) (Literal n)) ≡ 3) × (depth_of (Add (Literal m) (Literal n)) ≡ 2) }
    ensures quantifier { (k : ℕ) (m n : ℤ) (v : Var) → let t = ForAll k (Literal m) (Literal n) (Not (Equal (Variable v) (Literal m))) in
        (nodes t ≡ 7) × (depth_of t ≡ 4) }
{}

/// What a term is in an environment depends on its free variables alone.
pub fn values_depend_on_free_variables()
    ensures { (t : Tree) (e f : Env) → ((v : Var) → IsTrue (is_free v t) → value e (Variable v) ≡ value f (Variable v)) →
        value e t ≡ value f t }
{}

/// A quantifier binds its variable in its formula, not in its two ends.
pub fn quantifiers_bind_in_their_formulas()
    ensures closed { (k : ℕ) (n : ℤ) → IsClosed (ForAll k (Literal n) (Literal n) (Equal (Variable (var.Bound k)) (Literal n))) }
    ensures ends { (k : ℕ) (n : ℤ) → let i = Variable (var.Bound k) in
        IsTrue (is_free (var.Bound k) (ForAll k (Literal n) i (Equal i i))) }
    ensures bound { (k : ℕ) (z : ℤ) (e : Env) → value (bind k z e) (Variable (var.Bound k)) ≡ whole z }
    ensures other { (k : ℕ) (z : ℤ) (e : Env) (v : Var) → v ≢ var.Bound k → value (bind k z e) (Variable v) ≡ value e (Variable v) }
    ensures all { (e : Env) (k : ℕ) (x y p : Tree) → IsTrueIn e (ForAll k x y p) ↔
        ((z : ℤ) → int_of e x ≤ℤ z → z ≤ℤ int_of e y → IsTrueIn (bind k z e) p) }
    ensures some { (e : Env) (k : ℕ) (x y p : Tree) → IsTrueIn e (ForSome k x y p) ↔
        ((z : ℤ) × (int_of e x ≤ℤ z) × (z ≤ℤ int_of e y) × IsTrueIn (bind k z e) p) }
{}

/// With a closed term of its sort in the place of a variable, a tree is what it is where the variable has the term's
/// value.
pub fn replacing_is_assigning()
    ensures { (t by : Tree) (v : Var) (e : Env) → HasSort by (sort_of v) → IsClosed by →
        value e (replaced v by t) ≡ value (assigned v (value e by) e) t }
{}

/// With a term of its sort in the place of a variable, a tree keeps its sort. What is free in it then is free in the term,
/// or was free before and is another variable.
pub fn replacing_keeps_terms()
    ensures sort { (t by : Tree) (v : Var) (s : Sort) → HasSort by (sort_of v) → HasSort t s → HasSort (replaced v by t) s }
    ensures free { (t by : Tree) (v w : Var) → IsTrue (is_free w (replaced v by t)) →
        (IsTrue (is_free w t) × (w ≢ v)) ⊎ IsTrue (is_free w by) }
{}

/// A memory in which one place was changed has the number there, and what it had in each other place.
pub fn memories_change_in_one_place()
    ensures there { (e : Env) (m x y : Tree) → int_of e (Element (Update m x y) x) ≡ int_of e y }
    ensures others { (e : Env) (m x y z : Tree) → int_of e z ≢ int_of e x → int_of e (Element (Update m x y) z) ≡ int_of e (Element m z) }
    ensures cell { (e : Env) (m x : Tree) → int_of e (Total m x x) ≡ int_of e (Element m x) }
{}

/// There are admissible environments: with all values 0, for each stack region, an empty image, and memory that changed
/// nowhere. In each of them a register is a byte, a flag a bit, and the stack region has zeros.
pub fn environments_are_admissible()
    ensures some { (region : Region) → let change : Change = record { variable = var.Mem; earlier = Variable var.MemEntry; areas = [] } in
        IsAdmissible maps.empty region (change ∷ []) zeros }
    ensures register { (image : ImageMap) (region : Region) (changes : List Change) (e : Env) → IsAdmissible image region changes e →
        e.int (var.Now loc.A) ≢ pos 256 }
    ensures flag { (image : ImageMap) (region : Region) (changes : List Change) (e : Env) → IsAdmissible image region changes e →
        e.int (var.Now loc.Cy) ≢ pos 2 }
    ensures stack { (image : ImageMap) (region : Region) (changes : List Change) (e : Env) (a : ℕ) → IsAdmissible image region changes e →
        region.first ≤ a → a ≤ region.last → e.map var.Mem (pos a) ≡ pos 0 }
{}

/// A tree that is added to a list without doubles has one place, and leaves one list.
pub fn adding_has_one_answer()
    ensures { (old one other : List Tree) (t : Tree) (m n : ℕ) → IsDistinct old → IsAdded old t one m → IsAdded old t other n →
        (one ≡ other) × (m ≡ n) }
{}

/// Which interval each form has, by examples: what differs from one to the next in one thing has another one, or none.
pub fn intervals_follow_forms()
    ensures literal { (interval (Literal (pos 9_223_372_036_854_775_807)) ≡ from_to (pos 9_223_372_036_854_775_807) (pos 9_223_372_036_854_775_807))
        × (interval (Literal (pos 9_223_372_036_854_775_808)) ≡ None) }
    ensures sum { let a = Variable (var.Now loc.A) in let most = Literal (pos 9_223_372_036_854_775_552) in
        (interval (Add a most) ≡ from_to (pos 9_223_372_036_854_775_552) (pos 9_223_372_036_854_775_807))
        × (interval (Add a (Literal (pos 9_223_372_036_854_775_553))) ≡ None)
        × (interval (Add a (Variable (var.Any 1))) ≡ None) }
    ensures difference { let a = Variable (var.Now loc.A) in let cy = Variable (var.Now loc.Cy) in
        (interval (Subtract a cy) ≡ from_to (negsuc 0) (pos 255)) × (interval (Subtract cy a) ≡ from_to (negsuc 254) (pos 1)) }
    ensures multiple { let a = Variable (var.Entry loc.A) in
        (interval (Multiply (Literal (pos 2)) a) ≡ from_to (pos 0) (pos 510))
        × (interval (Multiply (Literal (negsuc 1)) a) ≡ from_to (negsuc 509) (pos 0))
        × (interval (Multiply a (Literal (pos 2))) ≡ None) }
    ensures quotient { let x = Subtract (Variable (var.In 1)) (Literal (pos 1)) in
        (interval (Divide x (Literal (pos 16))) ≡ from_to (negsuc 0) (pos 15)) × (interval (Divide x (Literal (pos 0))) ≡ None)
        × (interval (Divide x (Literal (negsuc 15))) ≡ None) }
    ensures remainder { let k = Variable (var.Any 1) in
        (interval (Remainder k (Literal (pos 10))) ≡ from_to (pos 0) (pos 9)) × (interval (Remainder k (Literal (pos 0))) ≡ None)
        × (interval (Remainder k (Literal (negsuc 9))) ≡ None) × (interval (Remainder k k) ≡ None) }
    ensures choice { (p : Tree) → let k = Variable (var.Any 1) in
        (interval (If p (Literal (pos 8)) (Literal (negsuc 2))) ≡ from_to (negsuc 2) (pos 8)) × (interval (If p (Literal (pos 8)) k) ≡ None) }
    ensures cell { (x y z : Tree) → let m = Variable (var.MemAfter 1) in
        (interval (Element m x) ≡ from_to (pos 0) (pos 255))
        × (interval (Element (Update m y (Literal (pos 300))) x) ≡ from_to (pos 0) (pos 300))
        × (interval (Element (Update m y (Variable (var.Bound 1))) x) ≡ None)
        × (interval (Total m x z) ≡ from_to (pos 0) (pos 16_711_680)) × (interval (Total (Update m y (Literal (pos 0))) x z) ≡ None) }
    ensures bytes { (x y z t u : Tree) → (interval (ByteXor x y) ≡ from_to (pos 0) (pos 255)) × (interval (Bit 3 x) ≡ from_to (pos 0) (pos 1))
        × (interval (Psw x y z t u) ≡ from_to (pos 2) (pos 215)) }
{}

/// The ends of an interval are within 64 bits.
pub fn intervals_are_within_64_bits()
    ensures { (t : Tree) (i : Interval) → interval t ≡ Some i → IsTrue (fits i.low) × IsTrue (fits i.high) }
{}

/// A tree has as many parts, with itself, as nodes. Those of a sum are the sum, and the parts of its two sides.
pub fn parts_are_counted_by_nodes()
    ensures count { (t : Tree) → length (parts t) ≡ nodes t }
    ensures sum { (k : ℕ) (n : ℤ) (v : Var) → parts (Add (Literal n) (Bit k (Variable v))) ≡
        Add (Literal n) (Bit k (Variable v)) ∷ Literal n ∷ Bit k (Variable v) ∷ Variable v ∷ [] }
{}
