//! What expressions read of the rows that windows and aggregates are over.

ghost use Rattle.std.specs.Prelude.{◌≡◌, option_map};
ghost use Rattle.wd_plan.specs.Expressions.{expression_of};
ghost use Rattle.wd_resolve_call.specs.Rows.{group_call_of, row_expression_of, row_reference_of, same_row_reference};
ghost use Rattle.wd_resolve_call.specs.Rows as spec;

use crate::same::same_group_call;
use std::rc::Rc;
use wd_plan::{Expr, ValueKind};
use wd_resolve_operand::Reference;

/// An expression as the argument of a function, and the kind of its values.
#[derive(Drop)]
pub struct ValueArgument<E> {
    pub expression: E,
    pub kind: ValueKind,
}

/// An aggregate over its argument; the order of the rows does not matter.
#[derive(Drop)]
pub enum AppliedAggregate<E> {
    /// COUNT(*).
    CountRows,
    Count(ValueArgument<E>),
    /// SUM of whole numbers.
    Sum(ValueArgument<E>),
    Min(ValueArgument<E>),
    Max(ValueArgument<E>),
}

impl<E> AppliedAggregate<E> {
    /// The value argument, if there is one.
    pub fn argument(&self) -> Option<&ValueArgument<E>>
        ensures { option_map (λ a. a.now) result ≡ spec.value_argument self.now }
    {
        match self {
            AppliedAggregate::CountRows => None,
            AppliedAggregate::Count(argument)
            | AppliedAggregate::Sum(argument)
            | AppliedAggregate::Min(argument)
            | AppliedAggregate::Max(argument) => Some(argument),
        }
    }
}

/// A call over the rows of a group.
#[derive(Drop)]
pub enum GroupCall {
    /// An aggregate over the columns of FROM.
    OfRows(AppliedAggregate<Expr>),
    /// GROUPING of columns of FROM.
    Grouping(Vec<u16>),
}

impl GroupCall {
    /// The kind of the call's values.
    pub fn kind(&self) -> ValueKind
        ensures { result ≡ spec.kind_of_group_call (group_call_of self.now) }
    {
        match self {
            GroupCall::OfRows(AppliedAggregate::Min(argument)) => argument.kind,
            GroupCall::OfRows(AppliedAggregate::Max(argument)) => argument.kind,
            GroupCall::OfRows(_) => ValueKind::Number,
            GroupCall::Grouping(_) => ValueKind::Number,
        }
    }
}

/// A column of FROM, by its number, or, where rows are grouped, a call over a group.
#[derive(Drop)]
pub enum RowReference {
    Column(u16),
    Group(Rc<GroupCall>),
}

impl Reference for RowReference {
    ghost Shown = { spec.RowReference };

    ghost shown = { row_reference_of };

    ghost alike = { same_row_reference };

    fn same(&self, other: &RowReference) -> bool {
        match (self, other) {
            (RowReference::Column(m), RowReference::Column(n)) => *m == *n,
            (RowReference::Group(c), RowReference::Group(d)) => same_group_call(c, d),
            _ => false,
        }
    }
}
