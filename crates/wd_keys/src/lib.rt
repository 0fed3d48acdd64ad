//! Changes of a query's text: `candidates` lists the sort keys that may be tried, `treat_alike` replaces a limit by one WITH TIES and
//! ROW_NUMBER by RANK, `apply_changes` applies changes to a text.
//!
//! The keys come from the schema's tables and the query's own names. Whether a changed text has one answer is not decided here: callers
//! analyse it anew.
#![tactic(auto)]

mod candidate;
mod change;
mod tie;

pub use candidate::candidates;
pub use change::{Change, apply_changes};
pub use tie::treat_alike;
