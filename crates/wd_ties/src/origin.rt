//! The column of a table that a column of a node copies.

ghost use Rattle.std.specs.Prelude.{◌≡◌};
ghost use Rattle.wd_candidates.specs.Origins.{origin};
ghost use Rattle.wd_plan.specs.Plans.{Scan, plan_of};

use wd_candidates::TableColumn;
use wd_plan::{Expr, Plan};

/// The column of a table that a column of a node copies, through plain columns only; `None` where it copies none.
pub(crate) fn origin_of(node: &Plan, column: u16) -> Option<TableColumn>
    ensures { result ≡ origin (plan_of node.now) column }
{
    match node {
        Plan::Scan { table, columns } => table_column(*table, *columns, column),
        Plan::Join { left, right, .. } => {
            let width = left.width();
            if u32::from(column) < width {
                origin_of(left, column)
            } else {
                origin_of(right, column - width as u16)
            }
        }
        Plan::Filter { input, .. } | Plan::Distinct { input } | Plan::Limit { input, .. } =>
            origin_of(input, column),
        Plan::Map { input, outputs } => match outputs.get(usize::from(column)) {
            Some(Expr::Column(copied)) => origin_of(input, *copied),
            _ => None,
        },
        Plan::Group { input, group } => {
            if column < group.columns {
                origin_of(input, column)
            } else {
                None
            }
        }
        Plan::Window { input, .. } => {
            if u32::from(column) < input.width() {
                origin_of(input, column)
            } else {
                None
            }
        }
    }
}

/// The column of a table, if it is below the table's number of columns.
fn table_column(table: u16, columns: u16, column: u16) -> Option<TableColumn>
    ensures { result ≡ origin (Scan table columns) column }
{
    if column < columns {
        Some(TableColumn { table, column })
    } else {
        None
    }
}
