//! What is decided of queries of the plain class: such a plan that is not certified has two answers, and the search finds them. The
//! crate has no code that runs: `laws` states this over the definitions of the analysis, the candidates and the search.
#![tactic(auto)]

pub mod laws;
