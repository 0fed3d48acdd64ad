//! Findings that are known: a baseline, in which each finding is a line of JSON, and which of its findings still occur.
//!
//! `known` makes a finding's line, `lines` reads the lines of a file, `counts` counts lines in a map, and `baseline` takes findings off
//! one by one and writes a baseline.
#![tactic(auto)]

mod baseline;
mod counts;
mod error;
mod known;
pub mod laws;
mod lines;
mod read;

pub use baseline::{Baseline, baseline_text};
pub use error::BaselineError;
pub use known::{Finding, Known};
