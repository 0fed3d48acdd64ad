//! The cases by their words.
use crate::columns::rows_pushed;
use crate::facts::facts_added;
use crate::sets::members_inserted;
use std::alloc::Global;
use wd_cases::{Cases, Failure};

/// Cases of growths, each by itself.
#[derive(Drop)]
pub struct GrowthCases;

impl Cases for GrowthCases {
    /// `rows N`, `facts N` or `members N`: so many rounds of such calls.
    fn answer(&mut self, alloc: Global, word: &str, text: &str) -> Result<String, Failure> {
        let rounds = text.parse::<u16>()?;
        let tally = match word {
            "rows" => rows_pushed(alloc, rounds)?,
            "facts" => facts_added(alloc, rounds)?,
            "members" => members_inserted(alloc, rounds)?,
            _ => return Err(Failure::NoCase),
        };
        Ok(tally.shown(alloc)?)
    }
}
