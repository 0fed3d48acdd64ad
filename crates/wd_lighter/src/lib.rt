//! The plan over which the search for a witness goes.
//!
//! `lighter` gives the simpler plan (wd_simpler) of a copy of the plan (`copied`): outputs and calls that nothing reads are as good as none
//! there. The choices that the search makes are the same for both plans, and so are the outcomes under them.
#![tactic(auto)]

mod copied;
mod plan;

pub use plan::lighter;
