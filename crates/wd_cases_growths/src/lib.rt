//! Cases of calls that add to what they are passed by a mutable reference. Where such a call is refused, what it was passed is compared
//! with a copy made before. With enough memory none is refused: `tests/refusing.py` has each request for memory refused in turn.
#![tactic(auto)]

mod columns;
mod facts;
mod given;
mod sets;
mod tally;

pub use given::GrowthCases;
