//! What the expressions and windows of a query mean: names, types and window calls over the columns in scope.
//!
//! `expression` goes over the tree of an expression in a `context`: the `scope`, in which `names` finds columns, the windows with names,
//! and the place. `grouped` says whether a select is grouped, which decides the columns that may appear. Operands are made by
//! wd_resolve_operand, calls and windows by wd_resolve_call. `laws` states that meanings are typed, so a plan that is made of them needs
//! no further check of types.
#![tactic(auto)]

mod context;
mod expression;
mod grouped;
pub mod laws;
mod names;
mod scope;

pub use context::{Context, Grouped, Place};
pub use expression::{
    condition, define_windows, group_condition, plain, resolve_expression, written_number,
};
pub use grouped::is_grouped;
pub use scope::{MOST_COLUMNS, Scope, ScopeColumn};
pub use wd_resolve_call::{
    AppliedAggregate, AppliedFunction, GroupCall, KnownWindow, OrderKey, RowReference,
    SelectReference, ValueArgument, Window, WindowCall, copy_of, same_call, same_group_call,
    sort_key,
};
