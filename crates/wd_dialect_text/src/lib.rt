//! Texts of PostgreSQL in the characters of the profile, so that the profile's lexer cuts them into tokens.
#![tactic(auto)]

mod characters;
mod mask;

pub use mask::{State, Step, mask_text, step};
