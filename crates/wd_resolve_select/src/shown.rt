//! What ORDER BY sorts, and what it sorts by.

ghost use Rattle.std.specs.Prelude.{◌≤◌, length};

use wd_resolve_list::{Below, Output, ProjectedInputs};
use wd_resolve_operand::BoundExpression;
use wd_resolve_scope::{Grouped, Scope, SelectReference};
use wd_value::SortColumn;

/// What a select has before its ORDER BY: the columns of FROM, those of them that may appear, what is below its windows, whether it is
/// DISTINCT, and its outputs, at most 1,024.
#[derive(Clone, Copy)]
pub struct Shown<'a> {
    pub scope: &'a Scope,
    pub groups: Option<Grouped<'a>>,
    pub below: &'a Below,
    pub distinct: bool,
    pub outputs: &'a [Output],
    pub ghost narrow: { length outputs.now ≤ 1024 },
}

/// What a key sorts by: the output of that number, or an expression that is not an output.
#[derive(Drop)]
pub enum KeyPlace {
    Output(u16),
    Hidden(BoundExpression<SelectReference>),
}

/// The sort keys over the outputs and the hidden columns after them, the expressions of the hidden columns, and what the outputs, HAVING
/// and these need of the rows below them.
#[derive(Drop)]
pub struct Sorted {
    pub items: Vec<SortColumn>,
    pub hidden: Vec<BoundExpression<SelectReference>>,
    pub projected: ProjectedInputs,
}
