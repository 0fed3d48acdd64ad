//! Laws over the definitions of plans, and worked examples of them.
//!
//! The crate has no code that runs: `laws` states what holds of plans in general (one answer under settled rules, renamings of rows,
//! valid choices), and `examples` works the definitions out over a few rows, so that a reader can check them by hand.
#![tactic(auto)]

mod examples;
pub mod laws;
