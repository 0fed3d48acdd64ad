//! Certificates under one name: what they are and their text, the facts that a plan gives at its nodes, and the checkers of a
//! certificate against a plan, or as a text against the texts of a schema and a query. The parts are in crates of their own.
#![tactic(auto)]

pub use wd_accept::{Accepted, VerifyError, VerifyOrigin, verify, verify_list};
pub use wd_certificate::{
    CertError, Certificate, Kept, Node, PackedTarget, Rule, Target, Trace, Version, from_json,
};
pub use wd_facts::{Facts, Given, Member, given};
pub use wd_sets::Set;
pub use wd_verify::verify_plan;
