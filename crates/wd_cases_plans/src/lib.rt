//! Cases of values, sorts, frames, calls, steps and plans. wd_cases_notation says how a line is
//! written: `NAME(ARGUMENTS) WORDS : LISTS`, where NAME is mostly that of the public function which
//! is called, and the function here that answers it says what it takes.
#![tactic(auto)]

mod answer;
mod calls;
mod facts;
mod plans;
mod shown;
mod slides;
mod sorts;
mod steps;
mod values;

pub use answer::PlanCases;
