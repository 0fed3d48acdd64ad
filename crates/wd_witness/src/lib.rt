//! Witnesses under one name: what they are and their text, the search for one, and whether a text is one. The parts are in crates
//! of their own.
#![tactic(auto)]

pub use wd_refute::{Refuted, WitnessError, WitnessOrigin, refute};
pub use wd_seek::seek;
pub use wd_witness_text::{Witness, WitnessTextError, read_witness};
