//! The judgement of a file's statements: a value that says of one statement everything that any output needs.
//!
//! `judged` has the value and makes it, from what is found of the statement or from why it is refused; `block` makes what a person
//! reads about each place.
#![tactic(auto)]

mod block;
mod judged;

pub use block::Block;
pub use judged::{File, Judged, Judgement, judge_statement};
