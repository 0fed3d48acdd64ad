//! Whether two outcomes of a plan agree, and whether a witness's text shows two answers of the query of a schema's text and a query's
//! text.
//!
//! `texts` is the way in, and `judge` evaluates the plan under both choices of a witness. Two outcomes agree where each row appears
//! equally often in both: `numbers` makes a number of each row from the `places` of its values, and `kept` keeps only these sorted
//! numbers of the first outcome; where a row has no number, `outcome` and `rows` sort the rows themselves. `laws` states that no
//! certificate is accepted for texts with an accepted witness.
#![tactic(auto)]

mod error;
mod judge;
mod kept;
pub mod laws;
mod numbers;
mod outcome;
mod places;
mod rows;
mod stored;
mod texts;

pub use error::{Refusal, WitnessError, WitnessOrigin};
pub use outcome::SortedOutcome;
pub use texts::{Refuted, refute};
