//! A text with mended statements in place of those that it had.
#![tactic(auto)]

mod fix;

pub use fix::{Fix, fixed_text};
