//! What the text of a schema file is read as: itself, where the profile reads it, and otherwise a schema as PostgreSQL's tools write it.
//!
//! `front_of` gives the text over which queries are judged, or says which of the two refusals is reported. `place` finds where these
//! are, and `notes` has what is reported about a text that is read as PostgreSQL's.
#![tactic(auto)]

mod front;
mod notes;
mod place;

pub use front::{Front, Refused, front_of};
pub use notes::note_lines;
pub use wd_dialect_schema::DialectSchema;
