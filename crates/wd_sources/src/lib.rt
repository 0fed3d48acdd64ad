//! Files and folders, which of them hold queries, and where the schemas of these queries may be.
//!
//! `sources` is the interface to files and folders, and `machine` the one of the computer; `paths` says which files of a folder are
//! checked, and where their schemas are looked for. Everything else of wdreport takes any `Sources`.
#![tactic(auto)]

mod machine;
mod paths;
mod sources;

pub use machine::MachineSources;
pub use paths::{files_at, schemas_for};
pub use sources::{Entry, MOST_BYTES, STANDARD_INPUT, SourceError, Sources};
