//! From a source to its unit, and whether the unit's structure and flow are right: what the commands on sources with
//! annotations share (this project's own).
#![tactic(auto)]

mod checking;
mod counting;
mod laws;
mod reading;
mod refusal;

pub use checking::{Checked, check};
pub use counting::instruction_count;
pub use laws::sources_have_one_answer;
pub use reading::read_unit;
pub use refusal::{CheckKind, CheckRefusal};
