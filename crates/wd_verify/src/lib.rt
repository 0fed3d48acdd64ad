//! Whether a certificate is valid for a plan and a schema.
//!
//! `verify` checks the version and the number of entries, and `nodes` goes through the entries in postorder. For each `entry`, `evidence`
//! has its traces followed over the given facts of its node, by wd_traces, and holds those that a call, the limit or several kept facts
//! name (`named`), for the checks of `kept` facts and of the `rules` of calls and limits; one that a single kept fact names is followed
//! again for it. wd_rules defines a valid certificate.
#![tactic(auto)]

mod entry;
mod evidence;
mod kept;
mod named;
mod nodes;
mod rules;
mod verify;

pub use verify::verify_plan;
