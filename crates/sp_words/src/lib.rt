//! The words of the language, by name and meaning (8080 Assembly Language Programming Manual, "Assembly language
//! instruction format" and the descriptions of instructions and directives; the words of annotations are this project's
//! own).
#![tactic(auto)]

mod annotation;
mod laws;
mod mnemonic;
mod operator;
mod register;
mod reserved;
mod slot;
mod table;

pub use annotation::{AnnotationWord, annotation_word_named, is_annotation_word};
pub use laws::{
    annotations_have_their_words, reserved_words_have_meanings, words_are_the_manuals,
    words_by_example,
};
pub use mnemonic::{
    Assignment, DataKind, ExpressionKind, Load, Mnemonic, PairForm, RegisterForm, StackForm,
    mnemonic_named,
};
pub use operator::{NamedOperator, operator_named};
pub use register::{arg_named, pair_named, stack_pair_named};
pub use reserved::is_reserved;
