//! Texts of terms, formulas and memories: printed with one spelling each, and read from any text of the grammar (this
//! project's own; "after FDL" is the only statement made about that language).
#![tactic(auto)]

mod found;
mod laws;
mod names;
mod numbers;
mod operator;
mod printing;
mod reading;
mod refusal;
mod sort;
mod tokens;
mod word;

pub use laws::{a_printed_text_stands_for_its_term, a_text_stands_for_one_tree, texts_by_example};
pub use printing::print;
pub use reading::read;
pub use refusal::FdlRefusal;
