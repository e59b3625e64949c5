//! How many nodes notes have, and how large their numbers can become.
ghost use Rattle.sp_eval.specs.Examples.{BoundsAreRight, BoundsParts, CountsNodes};

/// Both sides of each operator count, and each index of a quantifier, also where the value is known before.
pub fn nodes_are_counted()
    ensures { CountsNodes }
{}

/// Bounds below and from 2 to the power 101.
pub fn bounds_are_of_all_parts()
    ensures { BoundsParts }
{}

/// The number of a quantity is at most as large as its bound, on any machines.
pub fn bounds_are_right()
    ensures { BoundsAreRight }
{}
