//! The program `wdcheck` over its words, files and streams.
//!
//! `machine` takes the process's arguments; `program` makes the whole output before it writes any of it: `words` reads the command line
//! with `clap`, `inputs` reads the files of the task that the words ask for, and each command's answer comes from a crate of its own (wd_decide,
//! wd_accept, wd_refute, wd_run). `files` is the interface to files, `memory` an implementation for tests; `streams` writes, and
//! `failure` has the exit statuses and the lines on standard error.
#![tactic(auto)]

mod failure;
mod files;
mod inputs;
pub mod laws;
mod machine;
mod memory;
mod program;
mod streams;
mod task;
mod words;

pub use failure::{Failure, report};
pub use files::{Files, MachineFiles, ReadFault};
pub use machine::run_on;
pub use memory::MemoryFiles;
pub use program::command;
