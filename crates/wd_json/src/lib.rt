//! The parts of JSON values that formats share: members, numbers and texts, and lists that are written.
//!
//! `json` reads the parts of a value, `forms` has the types with a JSON form and their lists, `numbers` those of numbers, and `misread`
//! says why a value is not read. The text of a value is read and written by `serde_json`.
#![tactic(auto)]

mod forms;
mod json;
mod misread;
mod numbers;

pub use forms::{InJson, list_value};
pub use json::{next_member, no_more_members, number, object, text};
pub use misread::Misread;
pub use numbers::numbers_value;
