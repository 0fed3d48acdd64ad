//! Files of queries as they are checked: a statement that the profile refuses is respelled by the standard's equations.
#![tactic(auto)]

mod front;

pub use front::{RespelledText, respelled_text};
