//! The lines of blocks, and the line that counts queries.
//!
//! `lines` makes the parts of a block: where something is, the line of the text with carets, a remark. `tables` shows rows of tables
//! and `answers` the rows in which two answers differ, by names of columns. `refusal` makes the block of what is not read, with the
//! sentences of `words` and what `remedy` has for the word at which the refusal is.
//!
//! What a public call adds to a text is made separately, and appended in one step: where memory runs out, the text stays as it was.
#![tactic(auto)]

mod answers;
mod count;
mod lines;
mod refusal;
mod remedy;
mod tables;
mod values;
mod words;

pub use answers::add_answers;
pub use count::{Counts, Kind, Standing};
pub use lines::{add_excerpt, add_joined, add_place, add_remark_line};
pub use refusal::{add_refusal, add_remark, refusal_words_at};
pub use tables::add_tables;
pub use values::add_plain;
