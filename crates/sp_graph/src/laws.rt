ghost use Rattle.sp_graph.specs.Laws.{WalksAreListed, WalksComeInOrder};

/// The list of walks from a cut point has exactly the walks.
pub fn walks_are_listed()
    ensures { WalksAreListed }
{}

/// The branch not taken comes first, an access before what goes on, and assertions end and begin walks.
pub fn walks_come_in_order()
    ensures { WalksComeInOrder }
{}
