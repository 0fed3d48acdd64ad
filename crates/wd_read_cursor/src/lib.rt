//! The tokens that are left: what they begin with, names, and lists.
//!
//! Each function takes the tokens that are left, and returns those after what it read.
#![tactic(auto)]

mod list;
mod name;
mod refusal;
mod tokens;
mod words;

pub use list::{Reader, list_at};
pub use name::Name;
pub use refusal::Refusal;
pub use tokens::{
    eat, eat_name, eat_word, expect, expect_word, name_at, number_at, token_place, unexpected_token,
};
pub use words::KeyWord;
