//! Queries, as they are written.

use crate::expression::{Expr, SortKey, Window};
use wd_read_cursor::Name;

/// `[AS] name`
#[derive(Drop)]
pub struct Alias {
    /// Whether `AS` is written.
    pub with_as: bool,
    pub name: Name,
}

/// A member of a select list.
#[derive(Drop)]
pub enum Item {
    /// `*`
    All,
    /// `name . *`
    AllOf(Name),
    Expr(Expr, Option<Alias>),
}

#[derive(Clone, Copy, PartialEq, Eq)]
pub enum Quantifier {
    All,
    Distinct,
}

/// `name` or `name . name`: a column that rows are grouped by.
#[derive(Drop)]
pub struct GroupColumn {
    /// The name of its table, if one is written.
    pub table: Option<Name>,
    pub name: Name,
}

/// Columns that are grouped by together.
#[derive(Drop)]
pub enum GroupingSet {
    Column(GroupColumn),
    /// `( [column {, column}] )`
    Columns(Vec<GroupColumn>),
}

/// What makes several sets of the sets between its brackets.
#[derive(Clone, Copy, Debug, PartialEq, Eq)]
pub enum GroupingWord {
    /// `ROLLUP`
    Rollup,
    /// `CUBE`
    Cube,
    /// `GROUPING SETS`
    Sets,
}

/// A member of `GROUP BY`.
#[derive(Drop)]
pub enum GroupItem {
    Set(GroupingSet),
    /// `(ROLLUP | CUBE | GROUPING SETS) ( set {, set} )`
    Sets(GroupingWord, Vec<GroupingSet>),
}

/// `[GROUP BY item {, item}] [HAVING expr]`
#[derive(Drop)]
pub struct Grouping {
    /// Empty where `GROUP BY` is not written.
    pub items: Vec<GroupItem>,
    pub having: Option<Expr>,
}

/// `name AS ( .. )`
#[derive(Drop)]
pub struct NamedWindow {
    pub name: Name,
    pub window: Window,
}

/// `ROW` or `ROWS`, which mean the same.
#[derive(Clone, Copy, Debug, PartialEq, Eq)]
pub enum RowWord {
    Row,
    Rows,
}

/// `FIRST` or `NEXT`, which mean the same.
#[derive(Clone, Copy, Debug, PartialEq, Eq)]
pub enum FetchWord {
    First,
    Next,
}

/// `OFFSET number [ROW|ROWS]`
#[derive(Clone, Copy, Debug, PartialEq, Eq)]
pub struct Offset {
    pub number: u64,
    pub word: Option<RowWord>,
}

#[derive(Clone, Copy, Debug, PartialEq, Eq)]
pub enum Count {
    /// `LIMIT number`
    Limit(u64),
    /// `FETCH (FIRST|NEXT) [number] (ROW|ROWS) (ONLY | WITH TIES)`
    Fetch {
        first: FetchWord,
        number: Option<u64>,
        row: RowWord,
        with_ties: bool,
    },
}

/// An offset and a count, in the order in which they are written.
#[derive(Clone, Copy, Debug, PartialEq, Eq)]
pub enum Limits {
    OffsetFirst(Offset, Option<Count>),
    CountFirst(Count, Option<Offset>),
}

/// A table of `FROM`.
#[cycle(select)]
#[derive(Drop)]
pub enum Table {
    Named(Name, Option<Alias>),
    /// `( select ) [AS] name`
    Derived(Box<Select>, Alias),
}

/// A table, and how it is joined to the tables before it. Joins bind more tightly than the comma.
#[cycle(select)]
#[derive(Drop)]
pub enum Joined {
    /// `, table`
    Comma(Table),
    /// `CROSS JOIN table`
    Cross(Table),
    /// `[INNER] JOIN table ON expr`, and whether `INNER` is written.
    Inner(bool, Table, Expr),
}

/// `FROM table {..}`
#[cycle(select)]
#[derive(Drop)]
pub struct From {
    pub first: Table,
    pub joined: Vec<Joined>,
}

/// A select, up to its limits. Parts that are not written are `None` or empty.
#[cycle(select)]
#[derive(Drop)]
pub struct Select {
    pub quantifier: Option<Quantifier>,
    pub items: Vec<Item>,
    pub from: From,
    pub filter: Option<Expr>,
    pub grouping: Grouping,
    pub windows: Vec<NamedWindow>,
    pub order: Vec<SortKey>,
    pub limits: Option<Limits>,
}

/// `select [;]`
#[derive(Drop)]
pub struct Query {
    pub select: Select,
    /// Whether a semicolon ends it.
    pub semicolon: bool,
}
