//! What holds of trees and texts alone, as contracts of functions that do nothing.

ghost use Rattle.std.specs.Prelude.{◌≡◌, List, ℕ, codes, pos};
ghost use Rattle.sp_base.specs.declared.location.Loc.TheVariants as loc;
ghost use Rattle.sp_term.specs.declared.var.Var.TheVariants as var;
ghost use Rattle.sp_term.specs.Tree.{Tree, Literal, Variable};
ghost use Rattle.sp_fdl.specs.Examples.{Stands, StandsForNone, entry_plus_1, half, below_zero, all_are_a};
ghost use Rattle.sp_fdl.specs.Printed.{text_of};
ghost use Rattle.sp_fdl.specs.Text.{IsReadable, StandsFor};

/// A text stands for one tree at most.
#[tactic(auto, using(crate::proofs::StandsLemmas::one_tree))]
pub fn a_text_stands_for_one_tree()
    ensures { (text : List ℕ) (t u : Tree) → StandsFor text t → StandsFor text u → t ≡ u }
{}

/// The printed text of a term stands for it: of each closed term of depth 2,000 at most, with literals of 64 bits and
/// numbers in names of 32 bits.
#[tactic(auto, using(crate::proofs::PrintedLemmas::printed_stands))]
pub fn a_printed_text_stands_for_its_term()
    ensures { (t : Tree) → IsReadable t → StandsFor (text_of t) t }
{}

/// Texts that stand for terms, and others that differ in one thing and stand for none.
pub fn texts_by_example()
    ensures blanks { Stands (codes "( a~+ 1)") entry_plus_1 }
    ensures ends { StandsForNone (codes "( a~+ 1) ") }
    ensures runs { Stands (codes "(1 div 2)") half }
    ensures glued { StandsForNone (codes "(1 div2)") }
    ensures zeros { Stands (codes "007") (Literal (pos 7)) }
    ensures number { Stands (codes "a_1") (Variable (var.After loc.A 1)) }
    ensures leading { StandsForNone (codes "a_01") }
    ensures run { StandsForNone (codes "a~1") }
    ensures signs { Stands (codes "(a--1)") below_zero }
    ensures minus { StandsForNone (codes "(a - - 1)") }
    ensures wide { StandsForNone (codes "9223372036854775808") }
    ensures sorts { StandsForNone (codes "(1 + true)") }
    ensures scope { Stands (codes "for_all(i1: 0..3,(i1=a))") all_are_a }
    ensures unbound { StandsForNone (codes "i1") }
    ensures unbound_end { StandsForNone (codes "for_all(i1: 0..i1,(i1=a))") }
{}
