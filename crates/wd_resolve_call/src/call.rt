//! Window calls: functions over their arguments, and over windows.

use crate::row::{AppliedAggregate, RowReference, ValueArgument};
use crate::window::Window;
use wd_plan::{Direction, FrameRow, Ranking};
use wd_resolve_operand::BoundExpression;
use wd_value::Value;

/// A function over its arguments.
#[derive(Drop)]
pub enum AppliedFunction {
    Ranking(Ranking),
    /// The value of the argument the given number of rows away, and a default where there is no such row.
    Shift {
        direction: Direction,
        argument: ValueArgument<BoundExpression<RowReference>>,
        offset: u64,
        default: Value,
    },
    /// The value of the argument at one row of the frame.
    ValueAt(FrameRow, ValueArgument<BoundExpression<RowReference>>),
    Aggregate(AppliedAggregate<BoundExpression<RowReference>>),
}

/// A window call.
#[derive(Drop)]
pub struct WindowCall {
    pub function: AppliedFunction,
    pub window: Window,
}
