//! What sources mean, by example.
ghost use Rattle.sp_reading_laws.specs.Expressions.{HaveOneTree};
ghost use Rattle.sp_reading_laws.specs.Sources.{DividesByZero, EndsThere, NestsTo64, SetsAgain};

/// A zero divisor refuses a source in both rounds, where all names have values.
pub fn zero_divisors_refuse()
    ensures { DividesByZero }
{}

/// A name of SET has the value of its last SET above, and none above its first.
pub fn names_are_set_again()
    ensures { SetsAgain }
{}

/// A source ends with END, which may have an expression.
pub fn sources_end()
    ensures { EndsThere }
{}

/// A statement nests 64 parentheses or NOT at most.
pub fn statements_nest_to_64()
    ensures { NestsTo64 }
{}

/// The words of an expression have one tree.
pub fn expressions_have_one_tree()
    ensures { HaveOneTree }
{}
