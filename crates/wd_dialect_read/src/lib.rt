//! Reads the statements of a schema as PostgreSQL's tools write them.
//!
//! `statement` reads tables (`item`, `column`, `tail`) and what is added to them (`change`), and passes over other statements whose
//! first `words` say that everything read so far still holds (`kept`). `said` has the result, in which each note says what was passed
//! over, and `kind` what the types of columns mean. The lists of statements that are passed over are closed: a statement on none of
//! them is refused, not skipped.
#![tactic(auto)]

mod change;
mod column;
mod item;
mod kept;
mod kind;
mod said;
mod statement;
mod tail;
mod words;

pub use kind::ColumnKind;
pub use said::{Item, Mark, Note, SaidColumn, SaidKey, SaidTable, Statement};
pub use statement::read_statements;
