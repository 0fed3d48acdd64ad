//! How many rows the steps of a plan can have over given tables.
//!
//! `most_rows` asks only how long the tables are: nothing is evaluated. What it finds holds under each lawful choice (`laws`).
#![tactic(auto)]

pub mod laws;
mod rows;

pub use rows::most_rows;
