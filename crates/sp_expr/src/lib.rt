//! Expressions of the assembler and their values (8080 Assembly Language Programming Manual, "Arithmetic and logical
//! expressions"; ranks, sixteen-bit values and shifts of 16 or more are this project's own).
#![tactic(auto)]

mod arithmetic;
mod evaluation;
mod expr;
mod laws;
mod level;
mod nesting;
mod refusal;
mod sentence;
mod setting;
mod tokens;
mod word;

use indexmap::IndexMap;
use sp_base::Name;

/// Names with their values, in order of definition.
pub type Symbols = IndexMap<Name, u16>;

pub use expr::{Expr, parse, parse_in, value};
pub use laws::{
    an_expression_has_one_value, limit_by_example, operators_by_example, ranks_by_example,
    refusals_by_example, sentences_are_expressions, sentences_nest_as_their_trees,
    settings_by_example, signs_by_example, spellings_by_example, tokens_by_example,
    values_by_example,
};
pub use refusal::{ExprRefusal, ParseRefusal};
pub use setting::Setting;
pub use sp_words::is_reserved;
pub use word::{Operator, Word};
