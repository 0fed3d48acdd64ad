//! Whether a query has one answer: from the texts of a schema and a query to the verdict.
//!
//! `verdict` reads the texts (wd_query), analyses the plan (wd_analyse) and, where a call or a limit stays open, lets wd_seek search
//! for a witness. `list` asks the further question whether the answer is one list. Each reports what `verify` and `refute` accept,
//! which `laws` states; `error` numbers the refusals.
#![tactic(auto)]

mod error;
pub mod laws;
mod list;
mod verdict;

pub use error::DecideError;
pub use list::{ListReason, ListVerdict, decide_list};
pub use verdict::{Examined, Verdict, decide, examine};
