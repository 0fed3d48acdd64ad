//! Places in a text of SQL: its statements, and the lines and columns of its bytes.
#![tactic(auto)]

mod place;
mod statement;

pub use place::{Position, line_around, position_at};
pub use statement::statements;
