//! Which rules justify a plan's calls and limits, and the certificate that says so.
//!
//! `nodes` goes over the plan in postorder. At each node wd_facts says which facts are given; `sources` lists the columns to try,
//! `tried` passes over those tried before, `closed` closes each under the facts (wd_close), and `search` keeps those that determine
//! something new (`kept_record`), at most 64. `entry` writes the node's entry, by the rules that `decided` picks. Not every set of columns is
//! tried: only left sides of given facts, the empty set, and at a Join the unions of left sides that its inputs keep.
#![tactic(auto)]

mod analysis;
mod closed;
mod copies;
mod decided;
mod entry;
mod kept;
pub mod laws;
mod nodes;
mod search;
mod sources;
mod tried;

pub use analysis::{Analysis, Mark, Reason, RuleName};
pub use decided::Lack;
pub use nodes::{analyse, lacking_column};
pub use wd_close::{closure, closure_counted};
