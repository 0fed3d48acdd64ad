//! A query's answer over the data of tables, from the texts of the schema, the query and the data.
//!
//! `engine` reads the texts by wd_query, loads the rows by `data` and evaluates the plan; `error` has the refusals. `laws` states that
//! the loaded rows meet the schema.
#![tactic(auto)]

mod data;
mod engine;
mod error;
pub mod laws;

pub use engine::{run, run_kept};
pub use error::{Origin, RunError};
