//! Expressions, as they are written.

use crate::frame::Frame;
use wd_read_cursor::Name;
use wd_value::Text;

/// An operator between two operands.
#[derive(Clone, Copy, Debug, PartialEq, Eq)]
pub enum Operator {
    Or,
    And,
    Equal,
    NotEqual,
    Less,
    LessOrEqual,
    Greater,
    GreaterOrEqual,
    Add,
    Subtract,
    Multiply,
    Divide,
    Remainder,
}

/// How loosely an expression binds, the tightest first.
#[derive(Clone, Copy)]
pub enum Height {
    /// A literal, a name, a call, a CASE, or what is between brackets.
    Primary,
    Sign,
    /// `* / %`
    Product,
    /// `+ -`
    Sum,
    Comparison,
    /// A test for NULL.
    Test,
    /// NOT before an operand.
    Negation,
    /// AND
    Conjunction,
    /// OR
    Disjunction,
}

#[derive(Clone, Copy, Debug, PartialEq, Eq)]
pub enum Sign {
    Plus,
    Minus,
}

#[derive(Drop)]
pub enum Literal {
    /// At most 9223372036854775808.
    Number(u64),
    Text(Text),
    Truth(bool),
    Null,
}

/// `ASC` or `DESC`.
#[derive(Clone, Copy, Debug, PartialEq, Eq)]
pub enum SortDirection {
    Ascending,
    Descending,
}

/// `NULLS FIRST` or `NULLS LAST`.
#[derive(Clone, Copy, Debug, PartialEq, Eq)]
pub enum NullsPlace {
    First,
    Last,
}

/// An expression. Brackets are nodes of the tree. A chain of operators of one precedence is one node, read from the left, so that no tree
/// is much deeper than its brackets.
#[cycle(tree)]
#[derive(Drop)]
pub enum Expr {
    Literal(Literal),
    /// `name`
    Column(Name),
    /// `name . name`
    Qualified(Name, Name),
    /// `name ( * )`
    CallAll(Name, Option<Box<Over>>),
    /// `name ( [expr {, expr}] )`
    Call(Name, Vec<Expr>, Option<Box<Over>>),
    /// `CASE WHEN .. [ELSE ..] END`
    Case(Vec<Arm>, Option<Box<Expr>>),
    Bracket(Box<Expr>),
    Signed(Sign, Box<Expr>),
    /// A comparison.
    Compare(Operator, Box<Expr>, Box<Expr>),
    /// Operators of one precedence, each with its right operand: the ones before the last, and the last. The left operand of each is
    /// everything before it.
    Chain(Box<Expr>, Vec<Link>, Box<Link>),
    /// Tests for NULL, one after another: the ones before the last, and the last. Each is `IS NULL`, or `IS NOT NULL` where true.
    Tests(Box<Expr>, Vec<bool>, bool),
    Not(Box<Expr>),
}

/// An operator and its right operand.
#[cycle(tree)]
#[derive(Drop)]
pub struct Link {
    pub operator: Operator,
    pub operand: Expr,
}

/// `WHEN expr THEN expr`
#[cycle(tree)]
#[derive(Drop)]
pub struct Arm {
    pub when: Expr,
    pub gives: Expr,
}

/// What follows `OVER`.
#[cycle(tree)]
#[derive(Drop)]
pub enum Over {
    Name(Name),
    Window(Window),
}

/// A window specification, between its brackets.
#[cycle(tree)]
#[derive(Drop)]
pub struct Window {
    /// The window that this one copies.
    pub base: Option<Name>,
    /// Empty where `PARTITION BY` is not written.
    pub partition: Vec<Expr>,
    /// Empty where `ORDER BY` is not written.
    pub order: Vec<SortKey>,
    pub frame: Option<Frame>,
}

/// An expression to sort by. Parts that are not written are `None`.
#[cycle(tree)]
#[derive(Drop)]
pub struct SortKey {
    pub expr: Expr,
    pub direction: Option<SortDirection>,
    pub nulls: Option<NullsPlace>,
}
