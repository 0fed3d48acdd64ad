//! Prints tokens, so that the profile's lexer reads just these.
//!
//! `print` appends tokens to a text, with the spellings of `terminals`. `laws` states that a text of printed tokens has just these
//! tokens, if each of them has a spelling.
#![tactic(auto)]

pub mod laws;
mod print;
mod terminals;

pub use print::{push_literal, push_name, push_number, push_terminal, push_word};
