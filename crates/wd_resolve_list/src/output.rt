//! The outputs of a select, before there is a plan.

use wd_plan::ValueKind;
use wd_resolve_operand::BoundExpression;
use wd_resolve_scope::SelectReference;
use wd_value::Text;

/// The name and the kind of an output.
#[derive(Drop)]
pub struct OutputColumn {
    pub name: Text,
    pub kind: ValueKind,
}

/// An output: its name, its expression over the columns of FROM and the window calls, and the kind of its values.
#[derive(Drop)]
pub struct Output {
    pub name: Text,
    pub expression: BoundExpression<SelectReference>,
    pub kind: ValueKind,
}
