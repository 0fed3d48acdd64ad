//! Cases of the program over its words, files and streams.
#![tactic(auto)]

mod ending;
mod files;
mod given;
mod reported;
mod settings;
mod stream;

pub use given::CommandCases;
