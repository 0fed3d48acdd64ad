//! Cases of what queries mean: plans, refusals, and answers over data.
#![tactic(auto)]

mod case;
mod given;
mod plan;
mod refusal;
mod run;
mod tree;

pub use given::Given as MeaningCases;
