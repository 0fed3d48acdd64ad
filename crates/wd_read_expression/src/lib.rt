//! Reads expressions, windows and sort keys from tokens.
//!
//! `expression_at`, `window_at` and `order_at` read what the tokens begin with; `deeper` counts the levels that may still be
//! opened.
#![tactic(auto)]

mod expression;
mod frame;
mod null_test;
mod operator;
mod tree;

pub use expression::{deeper, expression_at, order_at, window_at};
