//! The flow of locations, cells and ports through the routines of a unit: what is used before it is set, and what is
//! read, changed, taken and put without being listed (this project's own).
#![tactic(auto)]

mod cells;
mod checking;
mod counting;
mod direct;
mod fault;
mod kinds;
mod laws;
mod listed;
mod missing;
mod own;
mod ports;
mod refusal;
mod routes;
mod routine;
mod sets;
mod spread;
mod statements;
mod ways;

pub use checking::{Flowing, check};
pub use laws::{kinds_come_in_order, units_flow_by_example, units_have_one_answer};
pub use refusal::{FlowKind, FlowRefusal, Spot};
pub use routes::ways_of;
pub use routine::left_unset;
pub use spread::unset;
pub use ways::{Way, Ways};
