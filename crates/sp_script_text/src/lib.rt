//! Script files: the steps that are to show the conditions of a program, read line by line (this project's own).
#![tactic(auto)]

mod arguments;
mod digits;
mod laws;
mod lines;
mod reading;
mod refusal;
mod roots;
mod rule;
mod script;
mod splitting;
mod step;
mod stepping;
mod words;

pub use laws::{a_line_is_one_step, a_text_has_one_reading, lines_by_example, steps_by_example};
pub use reading::read_scripts;
pub use refusal::{ReadScripts, ScriptKind, StepRefusal};
pub use rule::Rule;
pub use script::{NoSuch, Script, Scripts, Title, Written, known};
pub use step::{Step, rule_of};
pub use stepping::read_step;
