//! Lines and tokens of a source in 8080 assembly, with its annotation lines (8080 Assembly Language Programming
//! Manual, "Assembly language instruction format"; the annotations are this project's own).
#![tactic(auto)]

mod bytes;
mod laws;
mod names;
mod numbers;
mod pieces;
mod readers;
mod reading;
mod refusal;
mod texts;
mod token;

pub use laws::{
    a_source_has_one_reading, an_end_line_is_the_last, annotation_lines_begin_with_a_mark,
    bytes_past_127_stand_in_comments, commas_divide_items, line_feeds_end_lines,
    lines_have_at_most_4096_bytes, names_have_at_most_31_characters, numbers_end_with_their_base,
    numbers_have_limits, texts_end_at_a_lone_quote, texts_stand_for_their_characters,
    the_first_fault_of_the_lowest_line_counts, tokens_are_slices_of_their_source,
    tokens_are_the_longest,
};
pub use names::name;
pub use numbers::number;
pub use readers::{is_symbol, item_len, name_at, symbol_at, text_of};
pub use reading::lines;
pub use refusal::{LexRefusal, TextKind};
pub use texts::characters;
pub use token::{LineKind, Lines, SourceLine, Token, TokenKind, Tokens};
