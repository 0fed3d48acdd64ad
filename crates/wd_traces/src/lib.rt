//! What follows from the columns of a certificate's trace.
//!
//! `known` makes sets of the long sides of a node's given facts, which wd_node_facts has, `reached` says what the members of a set reach,
//! and `trace` follows a trace: from its columns, by the facts that it uses, to the members after them. wd_rules defines what a trace
//! shows over tests of members; the code has the members as the sets of bits of wd_sets.
#![tactic(auto)]

mod known;
mod reached;
mod trace;

pub use known::{Known, SideSets, with_sets};
pub use reached::{reaches, reaches_each};
pub use trace::{Followed, follow, start};
