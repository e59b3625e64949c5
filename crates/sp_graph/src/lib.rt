//! The graph of a routine: its instructions, what each leads to, the walks on which conditions stand, and an
//! order with successors first (this project's own).
#![tactic(auto)]

mod control;
mod counting;
mod edges;
mod graph;
mod laws;
mod list;
mod nodes;
mod path;
mod places;
mod refusal;
mod routine;
mod search;
mod sorting;
mod sound;
mod walk;

pub use control::{Control, accesses, control_of};
pub use counting::{count, count_all};
pub use edges::{before, successors};
pub use graph::{Branch, End, Node, access_at, branch_at, has_assertion, way_at};
pub use laws::{walks_are_listed, walks_come_in_order};
pub use list::Walks;
pub use nodes::graph_of;
pub use places::{next_of, place_of, routine_at};
pub use refusal::WalksRefusal;
pub use routine::{cuts, walks, walks_in};
pub use search::Search;
pub use sorting::{Outcome, sort};
pub use sound::{Depths, RoutineDepths, Sound};
pub use walk::{Cut, Step, Steps, Walk};
