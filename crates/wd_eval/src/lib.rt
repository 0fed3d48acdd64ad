//! The evaluator: what a plan gives over an instance under a choice of orderings.
//!
//! `node` walks the plan once and takes the orderings one after another (`orderings`): those of a choice, which are checked, or sorted
//! ones, which are made (`turned`) and kept or let go. `eval` has the public calls. The steps without an ordering are those of wd_nodes.
//! `window` and `limit` are a Window and a Limit: `class_index` has the partitions of each class (wd_partition), `calls` and `column` the
//! values of the calls (wd_calls) as further columns. `answer` keeps what the last step gave as it is. `parts` and `class_turn` are
//! for those who keep what each node gave and turn one ordering: a step by itself, and a Window of which one class alone is turned.
#![tactic(auto)]

mod answer;
mod calls;
mod class_index;
mod class_turn;
mod column;
mod error;
mod eval;
pub mod laws;
mod limit;
mod node;
mod orderings;
mod parts;
mod turned;
mod window;

pub use answer::Answer;
pub use class_turn::turn_class;
pub use error::EvalError;
pub use eval::{
    TurnedAnswer, answer_turned, answer_with, check_choice, eval_with, eval_within, first_choice,
    run_columns, run_plan, tied_choice,
};
pub use parts::{stable_rows, turned_step};
pub use turned::Turned;
pub use wd_partition::Turn;
pub use window::evaluate_window;
