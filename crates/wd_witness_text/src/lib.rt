//! Witnesses, which show that a query has two answers, and their text in JSON.
//!
//! `witness` has the tables and the two choices; `write` writes its text, and `read` reads one, whose tables `fits` checks against the
//! schema. It is read token by token: `members` takes its members, `named` the tables by their names, and `parts` a table's rows and their
//! values. `error` has the refusals. `laws` states that a text spells at most one witness, and that a written witness is read back.
//! Whether a witness is true is decided elsewhere, in wd_refute.
#![tactic(auto)]

mod error;
mod fits;
pub mod laws;
mod members;
mod named;
mod parts;
mod read;
mod witness;
mod write;

pub use error::WitnessTextError;
pub use read::read_witness;
pub use witness::Witness;
