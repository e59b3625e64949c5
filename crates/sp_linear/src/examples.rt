//! The step `linear` by examples, each beside one that differs in one thing, as contracts of functions that do nothing.

ghost use Rattle.std.specs.Prelude.{◌≡◌, ℤ, pos, negsuc, true, false, List, [], ◌∷◌, replicate};
ghost use Rattle.sp_base.specs.declared.location.Loc.TheVariants as loc;
ghost use Rattle.sp_term.specs.declared.var.Var.TheVariants as var;
ghost use Rattle.sp_term.specs.Tree.{Tree, Literal, Truth, Variable, Add, Subtract, Multiply, Divide, Equal, Less, LessOrEqual, Not};
ghost use Rattle.sp_linear.specs.Polynomials.{coefficient_in, size, count};
ghost use Rattle.sp_linear.specs.Linear.{IsSmall, Follows};

/// Sums and products are multiplied out, a product has one coefficient in whatever order its atoms are written, and every
/// other term is an atom.
pub fn polynomials_by_example()
    ensures square { let a = Variable (var.Now loc.A) in let b = Variable (var.Now loc.B) in let t = Multiply (Add a b) (Add a b) in
        (coefficient_in (a ∷ b ∷ []) t ≡ pos 2) × (coefficient_in (b ∷ a ∷ []) t ≡ pos 2) × (coefficient_in (a ∷ a ∷ []) t ≡ pos 1)
        × (coefficient_in (a ∷ []) t ≡ pos 0) × (coefficient_in [] t ≡ pos 0) }
    ensures difference { let a = Variable (var.Now loc.A) in let b = Variable (var.Now loc.B) in let t = Multiply (Add a b) (Subtract a b) in
        (coefficient_in (a ∷ b ∷ []) t ≡ pos 0) × (coefficient_in (a ∷ a ∷ []) t ≡ pos 1) × (coefficient_in (b ∷ b ∷ []) t ≡ negsuc 0) }
    ensures numbers { let a = Variable (var.Now loc.A) in let t = Multiply (Literal (pos 3)) (Subtract a (Literal (pos 4))) in
        (coefficient_in (a ∷ []) t ≡ pos 3) × (coefficient_in [] t ≡ negsuc 11) }
    ensures atom { let a = Variable (var.Now loc.A) in let q = Divide (Add a a) (Literal (pos 2)) in
        (coefficient_in (q ∷ []) (Add q q) ≡ pos 2) × (coefficient_in (a ∷ []) (Add q q) ≡ pos 0) }
{}

/// A literal has its absolute value as its size, 0 has 1, and an atom 1, whatever stands in it; counts leave numbers aside.
pub fn sizes_and_counts_by_example()
    ensures literal { (size (Literal (negsuc 4)) ≡ 5) × (size (Literal (pos 0)) ≡ 1) × (count (Literal (negsuc 4)) ≡ 1) }
    ensures sum { let a = Variable (var.Now loc.A) in let t = Add a (Literal (pos 7)) in (size t ≡ 8) × (count t ≡ 2) }
    ensures difference { let a = Variable (var.Now loc.A) in let t = Subtract a a in (size t ≡ 2) × (count t ≡ 2) }
    ensures product { let a = Variable (var.Now loc.A) in let t = Add a (Literal (pos 7)) in
        (size (Multiply t t) ≡ 64) × (count (Multiply t t) ≡ 4) × (size (Multiply (Literal (pos 3)) t) ≡ 24) × (count (Multiply (Literal (pos 3)) t) ≡ 2) }
    ensures atom { let a = Variable (var.Now loc.A) in let t = Divide (Add a (Literal (pos 7))) (Literal (pos 100)) in (size t ≡ 1) × (count t ≡ 1) }
{}

/// What is at most something is less than one more, with both taken equally often.
pub fn comparisons_follow()
    ensures once { let b = Variable (var.Entry loc.B) in let c = Variable (var.Entry loc.C) in
        Follows (pos 1) ((pos 1, LessOrEqual b c) ∷ []) (Less b (Add c (Literal (pos 1)))) }
    ensures twice { let b = Variable (var.Entry loc.B) in let c = Variable (var.Entry loc.C) in
        Follows (pos 2) ((pos 2, LessOrEqual b c) ∷ []) (Less b (Add c (Literal (pos 1)))) }
    ensures unequal { let b = Variable (var.Entry loc.B) in let c = Variable (var.Entry loc.C) in
        ¬ (Follows (pos 1) ((pos 2, LessOrEqual b c) ∷ []) (Less b (Add c (Literal (pos 1))))) }
    ensures not_taken { let b = Variable (var.Entry loc.B) in let c = Variable (var.Entry loc.C) in
        ¬ (Follows (pos 0) ((pos 1, LessOrEqual b c) ∷ []) (Less b (Add c (Literal (pos 1))))) }
    ensures too_strong { let b = Variable (var.Entry loc.B) in let c = Variable (var.Entry loc.C) in
        ¬ (Follows (pos 1) ((pos 1, LessOrEqual b c) ∷ []) (Less b c)) }
    ensures product { let a = Variable (var.Now loc.A) in let b = Variable (var.Now loc.B) in
        Follows (pos 1) [] (LessOrEqual (Multiply a b) (Multiply b a)) × ¬ (Follows (pos 1) [] (LessOrEqual (Multiply a a) (Multiply b a))) }
{}

/// An equation may be taken a negative number of times, a comparison may not; nor may the goal.
pub fn signs_are_kept()
    ensures equation { let b = Variable (var.Now loc.B) in let c = Variable (var.Now loc.C) in
        Follows (pos 1) ((negsuc 0, Equal b c) ∷ []) (LessOrEqual c b) }
    ensures comparison { let b = Variable (var.Now loc.B) in let c = Variable (var.Now loc.C) in
        ¬ (Follows (pos 1) ((negsuc 0, LessOrEqual b c) ∷ []) (LessOrEqual c b)) }
    ensures goal { let b = Variable (var.Now loc.B) in let c = Variable (var.Now loc.C) in
        ¬ (Follows (negsuc 0) ((negsuc 0, Equal b c) ∷ []) (Equal b c)) }
{}

/// Hypotheses that are below 0 together close every goal where N0 is 0, and a goal that is no comparison not where it is 1.
pub fn contradictions_close_every_goal()
    ensures strict { let a = Variable (var.Now loc.A) in let b = Variable (var.Now loc.B) in
        Follows (pos 0) ((pos 1, Less a b) ∷ (pos 1, Less b (Add a (Literal (pos 1)))) ∷ []) (Truth false) }
    ensures loose { let a = Variable (var.Now loc.A) in let b = Variable (var.Now loc.B) in
        ¬ (Follows (pos 0) ((pos 1, Less a b) ∷ (pos 1, LessOrEqual b (Add a (Literal (pos 1)))) ∷ []) (Truth false)) }
    ensures no_comparison { let a = Variable (var.Now loc.A) in let b = Variable (var.Now loc.B) in
        ¬ (Follows (pos 1) ((pos 1, Less a b) ∷ (pos 1, Less b (Add a (Literal (pos 1)))) ∷ []) (Truth false)) }
    ensures equation { let a = Variable (var.Now loc.A) in let b = Variable (var.Now loc.B) in
        Follows (pos 0) ((pos 1, Less a b) ∷ (pos 1, Less b a) ∷ []) (Equal a b)
        × ¬ (Follows (pos 1) ((pos 1, Less a b) ∷ (pos 1, Less b a) ∷ []) (Equal a b)) }
    ensures negations { let a = Variable (var.Now loc.A) in let b = Variable (var.Now loc.B) in
        Follows (pos 0) ((pos 1, Not (LessOrEqual b a)) ∷ (pos 1, Not (Less a b)) ∷ []) (Truth false)
        × ¬ (Follows (pos 0) ((pos 1, Not (Less b a)) ∷ (pos 1, Not (Less a b)) ∷ []) (Truth false)) }
{}

/// An equation follows from equations alone, whose sum is N0 times it; its two sides don't change places.
pub fn equations_follow()
    ensures times { let a = Variable (var.Now loc.A) in let b = Variable (var.Now loc.B) in
        Follows (pos 2) ((pos 2, Equal a b) ∷ []) (Equal a b) × ¬ (Follows (pos 1) ((pos 2, Equal a b) ∷ []) (Equal a b)) }
    ensures turned { let a = Variable (var.Now loc.A) in let b = Variable (var.Now loc.B) in
        Follows (pos 1) ((negsuc 0, Equal a b) ∷ []) (Equal b a) × ¬ (Follows (pos 1) ((pos 1, Equal a b) ∷ []) (Equal b a)) }
    ensures comparison { let a = Variable (var.Now loc.A) in let b = Variable (var.Now loc.B) in
        ¬ (Follows (pos 1) ((pos 1, LessOrEqual a b) ∷ []) (Equal a b)) }
    ensures itself { let a = Variable (var.Now loc.A) in Follows (pos 1) [] (Equal a a) × ¬ (Follows (pos 0) [] (Equal a a)) }
    ensures disequation { let a = Variable (var.Now loc.A) in let b = Variable (var.Now loc.B) in
        ¬ (Follows (pos 1) ((pos 1, Not (Equal a b)) ∷ []) (LessOrEqual a b)) }
{}

/// The size of a step is below 2 to the power 120, and its count at most 1,024; a hypothesis counts each time it is named.
pub fn steps_have_limits()
    ensures size { let goal = LessOrEqual (Literal (pos 0)) (Literal (pos 1_152_921_504_606_846_974)) in
        Follows (pos 1_152_921_504_606_846_975) [] goal × ¬ (Follows (pos 1_152_921_504_606_846_976) [] goal) }
    ensures product { let n = Literal (pos 288_230_376_151_711_744) in let m = Literal (pos 4_611_686_018_427_387_904) in
        Follows (pos 1) ((pos 0, LessOrEqual n n) ∷ []) (LessOrEqual (Literal (pos 0)) (Multiply n n))
        × ¬ (Follows (pos 1) ((pos 0, LessOrEqual n n) ∷ []) (LessOrEqual (Literal (pos 0)) (Multiply m m))) }
    ensures count { let a = Variable (var.Now loc.A) in let h : ℤ × Tree = (pos 0, LessOrEqual a a) in
        let four : ℤ × Tree = (pos 0, LessOrEqual a (Add a a)) in let five : ℤ × Tree = (pos 0, LessOrEqual a (Subtract a (Add a a))) in
        IsSmall (pos 0) (four ∷ replicate 340 h) (Truth true) × ¬ (IsSmall (pos 0) (five ∷ replicate 340 h) (Truth true)) }
{}
