//! Lines of JSON: texts of which each line is a value of one form.
//!
//! `line` has what a line may be and where it ends, `read` and `write` go through the lines of a text, and `laws` says that what is
//! written is read back.
#![tactic(auto)]

mod error;
pub mod laws;
mod line;
mod read;
mod write;

pub use error::LineError;
pub use line::{InLine, split_line};
pub use read::read_lines;
pub use write::write_lines;
