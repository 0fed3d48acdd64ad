//! Schemas as PostgreSQL's tools write them, and their text in the profile.
//!
//! `text` masks a text (wd_dialect_text), reads its statements (wd_dialect_read) and prints the tables that they declare
//! (wd_declaration), so that only the profile's own grammar gives a schema its meaning. `table` and `element` make a table's columns
//! and keys, `marks` reads what is said after a column's type, `error` has the refusals, and `laws` says that a text has one meaning.
#![tactic(auto)]

mod element;
mod error;
pub mod laws;
mod marks;
mod table;
mod text;

pub use error::DialectError;
pub use text::{DialectSchema, read_dialect};
pub use wd_dialect_read::{
    ColumnKind, Item, Mark, Note, SaidColumn, SaidKey, SaidTable, Statement,
};
