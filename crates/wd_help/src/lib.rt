//! Changes with which a query that may have several answers has one.
//!
//! `search` puts sort keys into the text and asks the analysis with which of them nothing stays open; `alike` has the changes with
//! which rows that tie are treated alike. `help` asks for the verdict on the changed text.
#![tactic(auto)]

mod alike;
mod help;
mod search;

pub use help::{Help, alike_for, help_for};
