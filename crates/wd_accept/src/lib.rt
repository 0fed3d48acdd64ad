//! Whether a certificate's text is valid for the plan of a schema's text and a query's text. No query is evaluated here.
//!
//! `texts` reads the schema and the query with wd_query and the certificate with wd_certificate, and lets wd_verify check the
//! certificate against the plan. That a valid certificate shows one answer is a law of wd_rules, which `laws` lifts to texts. `limits`
//! finds the answer's Limit, whose entry decides whether the certificate also shows one list.
#![tactic(auto)]

mod error;
pub mod laws;
mod limits;
mod texts;

pub use error::{VerifyError, VerifyOrigin};
pub use limits::{answer_limit, goes_by_keys};
pub use texts::{Accepted, verify, verify_list};
