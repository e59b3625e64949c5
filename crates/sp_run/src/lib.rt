//! What the command `run` does between its words and its text: the words behind the image's name as options, and the
//! run of the image from its stated start.
#![tactic(auto)]

mod course;
mod form;
mod laws;
mod names;
mod parsing;
mod runs;
mod settings;
mod start;
mod targets;
mod texts;
mod values;

pub use form::is_in_form;
pub use laws::a_run_has_one_text;
pub use parsing::read_options;
pub use runs::run;
pub use settings::{Flag, Options, Setting, Settings};
