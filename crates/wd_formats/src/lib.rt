//! Findings for machines: annotations of a GitHub workflow, which show a finding next to the line of the file that it is about, and
//! JSON, one object on each line.
//!
//! A workflow reads its commands from the program's output, one on each line. What comes from a file (its path, the text of a query) is
//! written in a command with the ends of its lines written as numbers, so that no text of a file begins a command of its own; JSON is
//! written by `serde_json`.
#![tactic(auto)]

mod github;
mod json;
pub mod laws;

pub use github::{Level, annotation};
pub use json::json_line;
