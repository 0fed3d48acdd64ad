//! The program `wdreport` over its words, files and streams.
//!
//! `walk` goes through all files, of which `review` judges each, `lock` writes its lock, and `respelled` prints it as it is checked. `run`
//! has what they use: the files and folders, and the schemas that were read. `schema` holds one schema, and `queries` the text of a file
//! as it is checked. `outputs` writes the page and the baseline, and ensures that no file that is read is overwritten; `mended` writes
//! files with added keys; `stop` says why a run ends early.
#![tactic(auto)]

mod lock;
mod mended;
mod outputs;
mod queries;
mod respelled;
mod review;
mod run;
mod schema;
mod stop;
mod walk;

pub use review::review_words;
