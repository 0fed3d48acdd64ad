//! The search for a witness: two answers of a plan, over the small candidate instances in which rows tie. Each candidate is evaluated
//! under the choice that keeps tied rows in their order, and under those that reverse them in one ordering.
//!
//! `search` goes through the candidates for each reason of an analysis; `passed` leaves out those that were tried for an earlier one,
//! and `tried` those that do not meet the schema. `probed` evaluates a candidate under one choice after another until two outcomes
//! differ, by `evaluated`, and `witness` makes the witness of them. `trailed` keeps what each node gave in the first evaluation, so that
//! most of the others need not be made. The number of evaluations is bounded, those among them. `seek` evaluates the candidates over a
//! lighter plan (wd_lighter), which shows of them what the plan itself does; where an analysis certifies that plan (`searched`), and no
//! step of it can be too large (wd_sizes), the evaluations are counted and none is made.
#![tactic(auto)]

mod evaluated;
pub mod laws;
mod passed;
mod probed;
mod search;
mod searched;
mod trailed;
mod tried;
mod witness;

pub use search::seek;
pub use tried::try_candidate;
