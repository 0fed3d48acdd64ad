//! What `wdreport` prints, and how.
//!
//! `report` has the findings as a person, a program or a GitHub workflow reads them, and `screen` prints them, in the `colours` of a
//! terminal and with the `progress` of the run.
#![tactic(auto)]

mod colours;
mod progress;
mod report;
mod screen;

pub use report::Report;
pub use screen::{Look, Screen, ScreenError, Terminals, Watch};
