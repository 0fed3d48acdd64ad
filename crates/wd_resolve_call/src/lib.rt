//! What the references of a query's expressions are (columns, calls over groups, window calls), and what windows and functions over their
//! arguments mean.
//!
//! `row` has the references of the rows below windows, `call` the window calls and `reference` both; `function` checks a function's arguments, and
//! `window` a window's frame and what it copies. `same` compares calls, so that equal ones are computed once, and `copies` copies
//! expressions. Calls over groups and the lists of windows are shared by reference counts rather than copied.
#![tactic(auto)]

mod call;
mod copies;
mod function;
mod reference;
mod row;
mod same;
mod window;

pub use call::{AppliedFunction, WindowCall};
pub use copies::copy_of;
pub use function::{GroupFunction, apply_function, group_function_named, make_group_call};
pub use reference::{Argument, SelectReference, over_columns, over_rows, settle_argument};
pub use row::{AppliedAggregate, GroupCall, RowReference, ValueArgument};
pub use same::{same_call, same_group_call};
pub use window::{KnownWindow, OrderKey, Window, find_base, find_window, resolve_window, sort_key};
