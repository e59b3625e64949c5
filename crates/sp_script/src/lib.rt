//! Scripts checked: whether the steps of a script show a condition (this project's own).
#![tactic(auto)]

mod checking;
mod following;
mod laws;
mod performing;
mod places;

pub use checking::check;
pub use laws::proved_conditions_are_true;
pub use sp_script_meaning::{Proved, ScriptRefusal};
pub use sp_script_text::{
    NoSuch, ReadScripts, Rule, Script, ScriptKind, Scripts, Title, Written, known, read_scripts,
};
