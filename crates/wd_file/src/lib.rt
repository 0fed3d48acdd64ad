//! The statements of one file: each is judged, reported, counted, shown, and mended where that is asked for.
//!
//! `hold` judges a statement and says what becomes of its certificate in a lock, `known` looks findings up in a baseline, `tally`
//! counts, and `shown` puts a statement on a page. `file` goes through a file's statements, and `lock` makes the lock of a file. `laws`
//! says what a verdict means.
#![tactic(auto)]

mod file;
mod hold;
mod known;
pub mod laws;
mod lock;
mod shown;
mod tally;

pub use file::{Findings, Locked, Reviewed, Task, review_statements};
pub use hold::{Hold, Settled, settle};
pub use known::Knowledge;
pub use lock::lock_statements;
pub use tally::Tally;
