//! The calendar of the standard, and texts that give days, moments and spans of time, as numbers.
//!
//! `calendar` counts days, `characters` reads numbers and marks, `date` reads dates with both, and `time` times of a day, moments
//! and spans.
#![tactic(auto)]

mod calendar;
mod characters;
mod date;
mod laws;
mod time;

pub use date::day_of;
pub use time::{interval_of, microsecond_of};
