//! The bracket or the operand at the start of a list of tokens, and how many tokens it takes; no tree is built.
//!
//! `nest` finds the bracket that closes the first one, and `operand` the end of an arithmetic operand, whose parts are in `primary`;
//! `token` looks at single tokens. `part` gives what was found, and the tokens after it.
#![tactic(auto)]

pub mod laws;
mod nest;
mod operand;
mod part;
mod primary;
mod token;

pub use nest::nest_length;
pub use operand::operand_length;
pub use part::{brackets_at, nest_at, operand_at};
pub use primary::primary_length;
pub use token::{is_constant, is_filter, is_left_bracket, is_name, is_over, is_sign, is_test_word};
