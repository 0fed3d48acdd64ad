//! The standard's equations within expressions: BETWEEN, IN, COALESCE, NULLIF, IS DISTINCT FROM, IS TRUE and the like, a CASE with an
//! operand, and FILTER, each replaced by what the standard defines it to be.
//!
//! `expansion` goes over the tokens from left to right. `found` says which equation applies at a place and to which parts: `tests`
//! looks for one after an operand, `calls` at a call or a CASE, and `split` cuts lists of parts. `equation` says what is written in
//! place of it, as a list of pieces, and `expansion` writes the pieces with each part expanded.
#![tactic(auto)]

mod calls;
mod equation;
mod error;
mod expansion;
mod found;
pub mod laws;
mod split;
mod tests;
mod tokens;
mod write;

pub use error::ExpandError;
pub use expansion::expand;
