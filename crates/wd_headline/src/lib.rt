//! The headline: where a certificate is accepted, no choice changes the answer.
//!
//! The laws of `laws` join the contracts of `verify`, `run` and `refute` over the definitions that these cite; the crate has no code
//! that runs.
#![tactic(auto)]

pub mod laws;
