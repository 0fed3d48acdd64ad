//! The page of wdreport: one file of HTML with all queries and the findings on each.
//!
//! `query` has what there is to show of a query, `section` makes its part of the page from the parts of `wd_page_parts` and the words of
//! `words`, and `report` collects the findings and lays out the file. All of it is written through `wd_markup`, so that every text from
//! an input is escaped in the file.
#![tactic(auto)]

mod query;
mod report;
mod section;
mod words;

pub use query::{Judged, Query, Refusal};
pub use report::Report;
pub use wd_page_parts::Place;
