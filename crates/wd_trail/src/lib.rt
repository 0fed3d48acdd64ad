//! What the nodes of a plan give over one instance, kept while one ordering after another is turned.
//!
//! `trail` keeps the rows of each node under the choice that leaves rows that tie as they are. `turned` takes one ordering's rows that
//! tie in another turn: it computes that class again, and goes on upwards with what is kept of the other nodes, until a node gives the
//! same rows as before. `step` has the steps over rows of their own (wd_eval, wd_nodes).
#![tactic(auto)]

mod step;
mod trail;
mod turned;

pub use trail::{Trail, follow};
pub use turned::Change;
