//! Cuts SQL texts into tokens.
//!
//! `lexer` goes over a text from left to right; at each place `pieces` reads one piece (white space, a comment or a token), with the
//! classes of `characters` and the spellings of `terminals`. `token` has the types, `error` numbers the refusals, and `laws` says that
//! a text has exactly one answer. Key words of SQL that are not reserved are read as names; the parser says what they mean.
#![tactic(auto)]

mod characters;
mod error;
pub mod laws;
mod lexer;
mod pieces;
mod terminals;
mod token;

pub use error::LexError;
pub use lexer::lex;
pub use token::{Span, Terminal, Token, TokenKind};
