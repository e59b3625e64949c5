ghost use Rattle.sp_graph_laws.specs.Control.{AccessesByExample, ControlFollowsTheProcessor};
ghost use Rattle.sp_graph_laws.specs.Counts.{AnswersAreOne, LimitsByExample, WalksDouble};
ghost use Rattle.sp_graph_laws.specs.Depths.{DepthsByExample};
ghost use Rattle.sp_graph_laws.specs.Graphs.{GraphsByExample};
ghost use Rattle.sp_graph_laws.specs.Successors.{BeforeByExample, BeforeIsOne, PlacesByExample, SuccessorsByExample};
ghost use Rattle.sp_graph_laws.specs.Walks.{CutsByExample, WalksByExample};

/// Control leaves each instruction as the processor goes on, apart from PCHL.
pub fn control_follows_the_processor()
    ensures { ControlFollowsTheProcessor }
{}

/// Which instructions read or write memory at an address in registers, and which don't.
pub fn accesses_by_example()
    ensures { AccessesByExample }
{}

/// Where each kind of instruction goes on in its routine.
pub fn successors_by_example()
    ensures { SuccessorsByExample }
{}

/// Which instruction and which routine an address names.
pub fn places_by_example()
    ensures { PlacesByExample }
{}

/// Which instructions go on at another one.
pub fn before_by_example()
    ensures { BeforeByExample }
{}

/// The lists of the instructions before each one are one.
pub fn before_is_one()
    ensures { BeforeIsOne }
{}

/// What walks see of each kind of instruction.
pub fn graphs_by_example()
    ensures { GraphsByExample }
{}

/// The walks of small routines, in order.
pub fn walks_by_example()
    ensures { WalksByExample }
{}

/// The cut points of small routines.
pub fn cuts_by_example()
    ensures { CutsByExample }
{}

/// Each jump with a condition to the next instruction doubles the walks.
pub fn walks_double()
    ensures { WalksDouble }
{}

/// 65,536 walks are given, and one more is too many.
pub fn limits_by_example()
    ensures { LimitsByExample }
{}

/// Walks are answered in one way.
pub fn answers_are_one()
    ensures { AnswersAreOne }
{}

/// Depths that differ, and twins in which they don't.
pub fn depths_by_example()
    ensures { DepthsByExample }
{}
