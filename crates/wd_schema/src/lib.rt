//! Schemas: tables, their columns and their keys, and the instances that meet them.
//!
//! `text` reads a schema's text: wd_read_statements makes its statements, `declare` checks each table and makes the `table` of it, and
//! `schema` holds the tables under their names. `error` has the refusals; `instances` decides whether rows meet a schema. `laws` states
//! that a text has at most one meaning, and either a meaning or a refusal.
#![tactic(auto)]

mod declare;
mod error;
mod instances;
pub mod laws;
mod schema;
mod table;
mod text;

pub use error::SchemaError;
pub use instances::{Violation, is_null, is_of_type, meets, violates};
pub use schema::Schema;
pub use table::{Column, Key, Table};
pub use text::read_schema;
