//! Remarks to `wdreport` in the comments above a statement, by which its author says that it may depend on the order of rows that
//! tie.
//!
//! `gap` finds the white space or the comment at the front of a text, `line` reads what a line comment says, and `remark` reads the
//! comments above a statement one by one.
#![tactic(auto)]

mod gap;
pub mod laws;
mod line;
mod remark;

pub use remark::{Remark, remark_above};
