//! The places of the window calls and the limits of a plan in the text that it was read from.
//!
//! `outline` splits the tokens of a query into its selects and finds their window calls, named windows and clauses by brackets and
//! reserved words; `nodes` finds the nodes and calls of the plan; `site` pairs the two in order. `place` has the tokens by number. The
//! syntax tree is not used: it has no places.
#![tactic(auto)]

mod nodes;
mod outline;
mod place;
mod site;

pub use site::{KeyPlace, PlanSite, Site, sites};
