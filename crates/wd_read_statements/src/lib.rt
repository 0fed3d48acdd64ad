//! The statements of a schema text: their trees, how they are spelled, and their reader.
//!
//! `syntax` has the trees, and `reader` reads tokens as statements, up to the first that cannot be read. `laws` states that tokens have
//! at most one tree and at most one unexpected place. Whether a declaration makes sense is checked later, in wd_schema.
#![tactic(auto)]

pub mod laws;
mod reader;
mod syntax;

pub use reader::{Statements, read_statements};
pub use syntax::{
    ColumnRule, Element, KeyWords, Nulls, Rule, WrittenColumn, WrittenKey, WrittenTable,
};
pub use wd_read_cursor::Name;
