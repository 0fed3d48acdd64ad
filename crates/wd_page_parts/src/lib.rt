//! What a section of wdreport's page shows of a query.
//!
//! `marked` shows the query's text with marks, and the line of a refusal; `tables` the rows of a witness and `answers` its two answers;
//! `change` the help; `plan` the plan with what is known of it; `place` what is open; and `replay` a script for PostgreSQL. `words` has
//! the words of values and types. All of it is written through `wd_markup`, so that every text from an input is escaped in the page. What
//! a public call adds is a page of its own, which is appended in one step: where memory runs out, the page stays as it was.
#![tactic(auto)]

mod answers;
mod change;
mod marked;
mod place;
mod plan;
mod replay;
mod tables;
mod words;

pub use answers::add_answers;
pub use change::add_change;
pub use marked::{add_excerpt, add_marked};
pub use place::Place;
pub use plan::{Grounds, add_plan};
pub use replay::add_replay;
pub use tables::add_tables;
