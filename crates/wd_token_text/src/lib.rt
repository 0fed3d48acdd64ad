//! Tokens as a text in which the profile's lexer reads just these.
//!
//! `text` prints tokens, each in its own spelling, and has the lexer read them; `kinds` compares the result with the tokens; `laws` says
//! which tokens have a spelling.
#![tactic(auto)]

mod kinds;
pub mod laws;
mod text;

pub use kinds::say_the_same;
pub use text::{push_token, token_text};
