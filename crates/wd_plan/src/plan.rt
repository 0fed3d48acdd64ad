ghost use Rattle.std.specs.Prelude.{◌≡◌, ◌-◌, ◌^◌, min};
ghost use Rattle.wd_plan.specs.Plans.{is_scanned, node_count, ordering_count, plan_of};

use crate::expression::Expr;
use crate::group::Group;
use crate::window::Window;
use wd_value::{Fault, Row, SortColumn};

/// A node of a query's plan, over the rows of its input; a Scan has none, and a Join has two.
#[derive(Debug, Drop)]
pub enum Plan {
    /// The rows of the schema's table with this number, and how many columns it has.
    Scan {
        table: u16,
        columns: u16,
    },
    /// All pairs of rows for which the condition is true.
    Join {
        left: Box<Plan>,
        right: Box<Plan>,
        condition: Option<Expr>,
    },
    /// The rows for which the condition is true.
    Filter {
        input: Box<Plan>,
        condition: Expr,
    },
    /// A row for each row of the input, with the values of the expressions over it.
    Map {
        input: Box<Plan>,
        outputs: Vec<Expr>,
    },
    /// A row for each group of each grouping set: its grouping columns, then its calls.
    Group {
        input: Box<Plan>,
        group: Group,
    },
    /// Each row of the input with the value of each call.
    Window {
        input: Box<Plan>,
        window: Window,
    },
    /// The rows of the input without those that an earlier row equals.
    Distinct {
        input: Box<Plan>,
    },
    /// The rows of its input that the limit keeps, in the limit's order.
    Limit {
        input: Box<Plan>,
        limit: Limit,
    },
}

/// The rows as the keys sort them, without the first `offset`, and of the rest at most `count`, if there is a count; with `ties` also
/// those that follow and are peers of the last one taken.
#[derive(Debug, Drop)]
pub struct Limit {
    pub keys: Vec<SortColumn>,
    pub offset: u64,
    pub count: Option<u64>,
    pub ties: bool,
}

/// What a plan returns: rows, or the least fault of the first step that has one.
#[derive(Drop)]
pub enum Outcome {
    Rows(Vec<Row>),
    Fault(Fault),
}

/// Everything that a query's text leaves open, as data: for each class of each Window and for each Limit, in postorder, an ordering of
/// the positions of that node's input rows.
#[derive(Drop)]
pub struct Choice {
    pub orderings: Vec<Vec<u64>>,
}

impl Plan {
    /// Whether the plan scans the table with a number.
    pub fn scans(&self, table: usize) -> bool
        ensures { result ≡ is_scanned (plan_of self.now) table }
    {
        match self {
            Plan::Scan { table: scanned, .. } => usize::from(*scanned) == table,
            Plan::Join { left, right, .. } => left.scans(table) || right.scans(table),
            Plan::Filter { input, .. }
            | Plan::Map { input, .. }
            | Plan::Group { input, .. }
            | Plan::Window { input, .. }
            | Plan::Distinct { input }
            | Plan::Limit { input, .. } => input.scans(table),
        }
    }

    /// How many orderings a choice for the plan has; `u32::MAX` where there are more.
    pub fn orderings(&self) -> u32
        ensures { result ≡ min (ordering_count (plan_of self.now)) (2 ^ 32 - 1) }
    {
        match self {
            Plan::Scan { .. } => 0,
            Plan::Join { left, right, .. } => left.orderings().saturating_add(right.orderings()),
            Plan::Filter { input, .. }
            | Plan::Map { input, .. }
            | Plan::Group { input, .. }
            | Plan::Distinct { input } => input.orderings(),
            Plan::Window { input, window } => input
                .orderings()
                .saturating_add(saturate(window.classes.len())),
            Plan::Limit { input, .. } => input.orderings().saturating_add(1),
        }
    }

    /// How many nodes the plan has; `u32::MAX` where there are more.
    pub fn nodes(&self) -> u32
        ensures { result ≡ min (node_count (plan_of self.now)) (2 ^ 32 - 1) }
    {
        match self {
            Plan::Scan { .. } => 1,
            Plan::Join { left, right, .. } => left
                .nodes()
                .saturating_add(right.nodes())
                .saturating_add(1),
            Plan::Filter { input, .. }
            | Plan::Map { input, .. }
            | Plan::Group { input, .. }
            | Plan::Window { input, .. }
            | Plan::Distinct { input }
            | Plan::Limit { input, .. } => input.nodes().saturating_add(1),
        }
    }
}

/// The number of classes as 32 bits; `u32::MAX` where there are more.
pub(crate) fn saturate(count: usize) -> u32
    ensures { result ≡ min count (2 ^ 32 - 1) }
{
    u32::try_from(count).unwrap_or(u32::MAX)
}
