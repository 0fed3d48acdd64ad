//! When two window calls are equal.

ghost use Rattle.std.specs.Prelude.{◌≡◌, map};
ghost use lib.Pointwise.{pointwise};
ghost use Rattle.std.specs.Prelude.{nat_eq};
ghost use Rattle.wd_plan.specs.Equality.{same_expression};
ghost use Rattle.wd_plan.specs.Expressions.{expression_of};
ghost use Rattle.wd_resolve_call.specs.Calls.{call_of, function_of};
ghost use Rattle.wd_resolve_call.specs.Calls as spec;
ghost use Rattle.wd_resolve_call.specs.Rows.{aggregate_of, argument_of, group_call_of, row_expression_of, same_row_expression};
ghost use Rattle.wd_resolve_call.specs.Rows as rows;
ghost use Rattle.wd_resolve_call.specs.Windows.{key_of, window_of};

use crate::call::{AppliedFunction, WindowCall};
use crate::row::{AppliedAggregate, GroupCall, RowReference, ValueArgument};
use crate::window::{OrderKey, Window};
use wd_plan::{Bound, Expr, Frame, FrameRow, Ranking};
use wd_resolve_operand::BoundExpression;
use wd_value::same;

fn same_argument(
    a: &ValueArgument<BoundExpression<RowReference>>,
    b: &ValueArgument<BoundExpression<RowReference>>,
) -> bool
    ensures { result ≡ rows.same_argument same_row_expression (argument_of row_expression_of a.now) (argument_of row_expression_of b.now) }
{
    a.expression.same(&b.expression)
}

fn same_ranking(r: Ranking, q: Ranking) -> bool
    ensures { result ≡ spec.same_ranking r q }
{
    match (r, q) {
        (Ranking::RowNumber, Ranking::RowNumber) => true,
        (Ranking::Rank, Ranking::Rank) => true,
        (Ranking::DenseRank, Ranking::DenseRank) => true,
        (Ranking::Ntile(m), Ranking::Ntile(n)) => m == n,
        _ => false,
    }
}

fn same_row(r: FrameRow, q: FrameRow) -> bool
    ensures { result ≡ spec.same_row r q }
{
    match (r, q) {
        (FrameRow::First, FrameRow::First) => true,
        (FrameRow::Last, FrameRow::Last) => true,
        (FrameRow::Nth(m), FrameRow::Nth(n)) => m == n,
        _ => false,
    }
}

fn same_aggregate(
    a: &AppliedAggregate<BoundExpression<RowReference>>,
    b: &AppliedAggregate<BoundExpression<RowReference>>,
) -> bool
    ensures { result ≡ rows.same_aggregate same_row_expression (aggregate_of row_expression_of a.now) (aggregate_of row_expression_of b.now) }
{
    match (a, b) {
        (AppliedAggregate::CountRows, AppliedAggregate::CountRows) => true,
        (AppliedAggregate::Count(x), AppliedAggregate::Count(y)) => same_argument(x, y),
        (AppliedAggregate::Sum(x), AppliedAggregate::Sum(y)) => same_argument(x, y),
        (AppliedAggregate::Min(x), AppliedAggregate::Min(y)) => same_argument(x, y),
        (AppliedAggregate::Max(x), AppliedAggregate::Max(y)) => same_argument(x, y),
        _ => false,
    }
}

fn same_function(f: &AppliedFunction, g: &AppliedFunction) -> bool
    ensures { result ≡ spec.same_function (function_of f.now) (function_of g.now) }
{
    match (f, g) {
        (AppliedFunction::Ranking(r), AppliedFunction::Ranking(q)) => same_ranking(*r, *q),
        (
            AppliedFunction::Shift {
                direction,
                argument,
                offset,
                default,
            },
            AppliedFunction::Shift {
                direction: other,
                argument: b,
                offset: n,
                default: w,
            },
        ) => *direction == *other
            && (*offset == *n && (same(default, w) && same_argument(argument, b))),
        (AppliedFunction::ValueAt(r, a), AppliedFunction::ValueAt(q, b)) => same_row(*r, *q)
            && same_argument(a, b),
        (AppliedFunction::Aggregate(a), AppliedFunction::Aggregate(b)) => same_aggregate(a, b),
        _ => false,
    }
}

fn same_key(k: &OrderKey, l: &OrderKey) -> bool
    ensures { result ≡ spec.same_key (key_of k.now) (key_of l.now) }
{
    (k.key.desc == l.key.desc && k.key.nulls_first == l.key.nulls_first)
        && k.expression.same(&l.expression)
}

fn same_bound(a: Bound, b: Bound) -> bool
    ensures { result ≡ spec.same_bound a b }
{
    match (a, b) {
        (Bound::UnboundedPreceding, Bound::UnboundedPreceding) => true,
        (Bound::Preceding(m), Bound::Preceding(n)) => m == n,
        (Bound::CurrentRow, Bound::CurrentRow) => true,
        (Bound::Following(m), Bound::Following(n)) => m == n,
        (Bound::UnboundedFollowing, Bound::UnboundedFollowing) => true,
        _ => false,
    }
}

fn same_frame(f: &Frame, g: &Frame) -> bool
    ensures { result ≡ spec.same_frame f.now g.now }
{
    (f.mode == g.mode && f.exclusion == g.exclusion)
        && (same_bound(f.start, g.start) && same_bound(f.end, g.end))
}

fn same_partition(a: &[BoundExpression<RowReference>], b: &[BoundExpression<RowReference>]) -> bool
    ensures { result ≡ pointwise same_row_expression (map row_expression_of a.now) (map row_expression_of b.now) }
{
    if a.len() != b.len() {
        return false;
    }
    for (i, x) in a.iter().enumerate() {
        if !x.same(&b[i]) {
            return false;
        }
    }
    true
}

fn same_order(a: &[OrderKey], b: &[OrderKey]) -> bool
    ensures { result ≡ pointwise spec.same_key (map key_of a.now) (map key_of b.now) }
{
    if a.len() != b.len() {
        return false;
    }
    for (i, x) in a.iter().enumerate() {
        if !same_key(x, &b[i]) {
            return false;
        }
    }
    true
}

fn same_window(v: &Window, w: &Window) -> bool
    ensures { result ≡ spec.same_window (window_of v.now) (window_of w.now) }
{
    same_frame(&v.frame, &w.frame)
        && (same_order(&v.order, &w.order) && same_partition(&v.partition, &w.partition))
}

pub fn same_call(c: &WindowCall, d: &WindowCall) -> bool
    ensures { result ≡ spec.same_call (call_of c.now) (call_of d.now) }
{
    same_function(&c.function, &d.function) && same_window(&c.window, &d.window)
}

fn same_columns(a: &ValueArgument<Expr>, b: &ValueArgument<Expr>) -> bool
    ensures { result ≡ rows.same_argument same_expression (argument_of expression_of a.now) (argument_of expression_of b.now) }
{
    a.expression.same(&b.expression)
}

fn same_of_rows(a: &AppliedAggregate<Expr>, b: &AppliedAggregate<Expr>) -> bool
    ensures { result ≡ rows.same_aggregate same_expression (aggregate_of expression_of a.now) (aggregate_of expression_of b.now) }
{
    match (a, b) {
        (AppliedAggregate::CountRows, AppliedAggregate::CountRows) => true,
        (AppliedAggregate::Count(x), AppliedAggregate::Count(y)) => same_columns(x, y),
        (AppliedAggregate::Sum(x), AppliedAggregate::Sum(y)) => same_columns(x, y),
        (AppliedAggregate::Min(x), AppliedAggregate::Min(y)) => same_columns(x, y),
        (AppliedAggregate::Max(x), AppliedAggregate::Max(y)) => same_columns(x, y),
        _ => false,
    }
}

fn same_numbers(a: &[u16], b: &[u16]) -> bool
    ensures { result ≡ pointwise nat_eq a.now b.now }
{
    if a.len() != b.len() {
        return false;
    }
    for (i, x) in a.iter().enumerate() {
        if *x != b[i] {
            return false;
        }
    }
    true
}

pub fn same_group_call(c: &GroupCall, d: &GroupCall) -> bool
    ensures { result ≡ rows.same_group_call (group_call_of c.now) (group_call_of d.now) }
{
    match (c, d) {
        (GroupCall::OfRows(a), GroupCall::OfRows(b)) => same_of_rows(a, b),
        (GroupCall::Grouping(a), GroupCall::Grouping(b)) => same_numbers(a, b),
        _ => false,
    }
}
