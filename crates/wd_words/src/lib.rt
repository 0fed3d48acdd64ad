//! What the words on the command line of `wdreport` request, and the texts of its help and of `schema`.
//!
//! `request` has the requests, `words` reads the words and has the help, and `catalog` has the text of the command `schema`.
#![tactic(auto)]

mod catalog;
mod request;
mod words;

pub use catalog::SCHEMA_OF_DATABASE;
pub use request::{Asked, Colour, FilesRequest, Format, Request};
pub use words::read_words;
