//! Plans of queries, and what a plan returns over an instance under a choice of orderings.
//!
//! `plan` has the nodes, over the `expression`, `function`, `group` and `window` of each; `fits` checks a plan against a schema,
//! `equality` compares expressions and `copy` copies them. The values are those of wd_value and the schemas those of wd_schema. A plan
//! names columns and tables by numbers, never by names, and a choice lists the orderings of its Windows and Limits in postorder. Nothing
//! here runs a plan: the outcome under a choice is a definition of `specs/`.
#![tactic(auto)]

mod copy;
mod equality;
mod expression;
mod fits;
mod function;
mod group;
mod plan;
mod window;

pub use equality::same_kind;
pub use expression::{ArithmeticOp, Branch, ComparisonOp, Expr, ValueKind};
pub use fits::{are_bounds, has_extremes, kind_of_type};
pub use function::{
    Aggregate, Argument, ByPeers, Direction, FrameFunction, FrameRow, Function, FunctionName,
    Ranking, ResultKind, Shift, Signature,
};
pub use group::{Group, GroupCall, has_column};
pub use plan::{Choice, Limit, Outcome, Plan};
pub use window::{Bound, Call, Class, Exclusion, Frame, FrameMode, Window};
