//! Locks: the certificates of a file's statements, kept in a file beside it.
//!
//! `entry` has the line of a statement (its certificate, or `null`), `lock` the lines of a file, and `laws` says that a lock that is
//! written is read back. A lock has no text of the statements: they are matched by their order in the file.
#![tactic(auto)]

mod entry;
pub mod laws;
mod lock;

pub use entry::Entry;
pub use lock::Lock;
