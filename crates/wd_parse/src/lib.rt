//! Reads tokens as queries; their expressions and windows are read by wd_read_expression.
//!
//! `parser` is the way in and turns a refusal into a place. `query` reads selects by recursive descent, with GROUP BY and HAVING in
//! `group` and the offset and count in `limits`. Every function takes the tokens that are left and, where it can meet brackets, the
//! number of levels that may still be opened. `laws` states that tokens have at most one tree.
#![tactic(auto)]

mod error;
mod group;
pub mod laws;
mod limits;
mod parser;
mod query;

pub use error::ParseError;
pub use parser::parse;
pub use wd_syntax::{
    Alias, Arm, Bound, Count, Exclusion, Expr, Extent, FetchWord, Frame, FrameMode, From,
    GroupColumn, GroupItem, Grouping, GroupingSet, GroupingWord, Item, Joined, Limits, Link,
    Literal, Name, NamedWindow, NullsPlace, Offset, Operator, Over, Quantifier, Query, RowWord,
    Select, Sign, SortDirection, SortKey, Table, Window,
};
