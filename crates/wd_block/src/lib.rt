//! Blocks of what is open in a query: where it is, what is said of it, the rows of a witness with both answers, and the help.
//!
//! `block` puts a block together from the parts of wd_lines; `words` has what is said of a place and of what it lacks, and `alike` the
//! help by which rows that tie are treated alike.
#![tactic(auto)]

mod alike;
mod block;
mod words;

pub use block::{Statement, add_open};
pub use words::{kind_of, lack_words, place_words};
