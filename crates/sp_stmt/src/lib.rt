//! Statements of the assembler (8080 Assembly Language Programming Manual, "Assembly language instruction format" and the
//! descriptions of instructions and directives; names of at most 31 characters, labels alone on a line and no label before
//! ORG and END are this project's own).
#![tactic(auto)]

mod body;
mod data;
mod expression;
mod laws;
mod operand;
mod plain;
mod reading;
mod refusal;
mod statement;
mod tokens;

pub use laws::{
    a_line_is_one_statement, a_source_has_one_answer, directives_by_example,
    instructions_by_example, labels_by_example, values_by_example,
};
pub use operand::{Characters, Operand, Operands};
pub use reading::statements;
pub use refusal::{StatementKind, StatementRefusal};
pub use statement::{Code, Statement, Statements};
