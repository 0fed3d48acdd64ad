//! When a certificate is valid for a plan and a schema: traces of facts, rules of calls and limits, and the laws that a valid
//! certificate's facts hold and that its plan has one answer.
//!
//! The definitions are in `specs/`, and `laws` states what follows from them; wd_verify decides by them. Only `versions` is run: it says
//! which version of a certificate is read for a plan.
#![tactic(auto)]

pub mod laws;
mod versions;

pub use versions::{is_read_for, version_needed};
