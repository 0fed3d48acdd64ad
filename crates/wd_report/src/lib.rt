//! What is printed of verdicts, and of plans with the rules of their calls and limits.
//!
//! `verdict` prints the word of a verdict and its evidence, `plan` a plan's nodes with the rules that `rules` finds in a certificate or
//! among the marks of an analysis, which `marks` indexes. `words` has the names of functions and rules. Nothing is decided here: all of
//! it is read off an analysis.
#![tactic(auto)]

mod marks;
mod plan;
mod rules;
mod verdict;
mod words;

pub use plan::explain;
pub use verdict::{Output, report, report_list};
