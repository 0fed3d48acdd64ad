//! The rows of a table from CSV text, and an answer's rows as CSV text.
//!
//! `data` reads a text: `record` reads its records by the crate `csv`, `header` finds the columns, `row` makes a row of each record by
//! the values of `field`, and `key` finds the first repeated key. `recent` lets equal texts share their bytes, and `wide` finds records
//! that would take too much memory before they are read. `answer` writes an answer, and `laws` states that a text holds rows or has one
//! refusal.
#![tactic(auto)]

mod answer;
mod data;
mod error;
mod field;
mod header;
mod key;
mod laws;
mod recent;
mod record;
mod row;
mod wide;

pub use answer::{answer_text, answer_text_from};
pub use data::{load, load_columns};
pub use error::DataError;
pub use laws::{one_refusal, rows_or_refusal};
