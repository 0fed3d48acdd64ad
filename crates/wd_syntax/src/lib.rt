//! The trees of queries, and how they are spelled.
//!
//! `query` has selects, `expression` expressions and windows, and `frame` frames. A tree keeps what is written: brackets, optional words,
//! and names not yet looked up; the tokens that spell a tree are a definition of `specs/`.
#![tactic(auto)]

mod expression;
mod frame;
mod query;

pub use expression::{
    Arm, Expr, Height, Link, Literal, NullsPlace, Operator, Over, Sign, SortDirection, SortKey,
    Window,
};
pub use frame::{Bound, Exclusion, Extent, Frame, FrameMode};
pub use query::{
    Alias, Count, FetchWord, From, GroupColumn, GroupItem, Grouping, GroupingSet, GroupingWord,
    Item, Joined, Limits, NamedWindow, Offset, Quantifier, Query, RowWord, Select, Table,
};
pub use wd_read_cursor::Name;
