//! What is found of a query: the verdict, what is open and where it is, and the two answers that a witness shows.
//!
//! `finding` asks wd_decide first, and only where the verdict is UNKNOWN wd_certain for a simpler plan and wd_further for a witness, so
//! that a verdict is never changed by these. `answers` evaluates the query under a witness's two choices, `place` finds where open
//! calls and limits are written, and `refused` the bytes that a refusal is about.
#![tactic(auto)]

mod answers;
mod finding;
mod place;
mod refused;

pub use answers::Answers;
pub use finding::{Finding, judge};
pub use place::OpenPlace;
pub use refused::{RefusedPlace, RefusedText, refused_place};
