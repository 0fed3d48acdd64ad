//! Cases of the calls that a caller of the libraries makes of a schema and a query, each by the library under whose name it is found:
//! the analysis of the plan, the search for a witness, the judgement of a witness's text, and the verdict.
#![tactic(auto)]

mod case;
mod judged;
mod shown;

pub use case::CallCases;
