//! Functions over their arguments.

ghost use Rattle.std.specs.Prelude.{◌≡◌, map, option_map};
ghost use Rattle.wd_resolve_operand.specs.Causes.{Gives};
ghost use Rattle.wd_resolve_call.specs.Calls.{function_of};
ghost use Rattle.wd_resolve_call.specs.FunctionCode.{group_function_of};
ghost use Rattle.wd_resolve_call.specs.Rows.{aggregate_of, argument_of, group_call_of};
ghost use Rattle.wd_resolve_call.specs.Calls as calls;
ghost use Rattle.wd_resolve_call.specs.Functions as spec;
ghost use Rattle.wd_resolve_call.specs.References.{operand_of, operands_of};

use crate::call::AppliedFunction;
use crate::reference::{Argument, SelectReference, settle_argument};
use crate::row::{AppliedAggregate, GroupCall, RowReference, ValueArgument};
use std::alloc::Global;
use wd_plan::{Direction, FrameRow, FunctionName, Ranking, ValueKind, has_extremes, same_kind};
use wd_resolve_operand::{BoundExpression, Cause, ResolveError, TypedOperand};
use wd_value::Value;

/// The distance of LAG and LEAD where it is not written.
const ONE_ROW: u64 = 1;

impl AppliedFunction {
    /// The kind of the function's values.
    pub fn kind(&self) -> ValueKind
        ensures { result ≡ calls.kind_of_function (function_of self.now) }
    {
        match self {
            AppliedFunction::Ranking(_) => ValueKind::Number,
            AppliedFunction::Shift { argument, .. } => argument.kind,
            AppliedFunction::ValueAt(_, argument) => argument.kind,
            AppliedFunction::Aggregate(AppliedAggregate::Min(argument)) => argument.kind,
            AppliedFunction::Aggregate(AppliedAggregate::Max(argument)) => argument.kind,
            AppliedFunction::Aggregate(_) => ValueKind::Number,
        }
    }
}

/// The function of this name, which is folded as unquoted names are.
fn named_function(name: &str) -> Option<FunctionName>
    ensures { result ≡ spec.function_named name.now }
{
    match name {
        "row_number" => Some(FunctionName::RowNumber),
        "rank" => Some(FunctionName::Rank),
        "dense_rank" => Some(FunctionName::DenseRank),
        "ntile" => Some(FunctionName::Ntile),
        "lag" => Some(FunctionName::Lag),
        "lead" => Some(FunctionName::Lead),
        "first_value" => Some(FunctionName::FirstValue),
        "last_value" => Some(FunctionName::LastValue),
        "nth_value" => Some(FunctionName::NthValue),
        "count" => Some(FunctionName::Count),
        "sum" => Some(FunctionName::Sum),
        "min" => Some(FunctionName::Min),
        "max" => Some(FunctionName::Max),
        _ => None,
    }
}

/// A literal whole number that is not below `least`; else 405.
fn whole(least: u64, operand: &TypedOperand<SelectReference>) -> Result<u64, ResolveError>
    ensures { Gives (λ n. n) result (spec.whole least (operand_of operand.now)) }
{
    let TypedOperand::Typed(expression, _) = operand else {
        return Err(ResolveError::Refused(Cause::WrongCall));
    };
    match &**expression {
        BoundExpression::Literal(Value::Int(n), _) => at_least(least, *n),
        _ => Err(ResolveError::Refused(Cause::WrongCall)),
    }
}

fn at_least(least: u64, n: i64) -> Result<u64, ResolveError>
    ensures { Gives (λ m. m) result (spec.at_least least n) }
{
    if n >= 0 && n as u64 >= least {
        Ok(n as u64)
    } else {
        Err(ResolveError::Refused(Cause::WrongCall))
    }
}

/// The value of a default: a literal of the kind; a bare NULL takes the kind.
fn default_of(
    alloc: Global,
    kind: ValueKind,
    operand: &TypedOperand<SelectReference>,
) -> Result<Value, ResolveError>
    ensures { Gives (λ v. v) result (spec.default_of kind (operand_of operand.now)) }
{
    let TypedOperand::Typed(expression, _) = operand else {
        return Ok(Value::Null);
    };
    match &**expression {
        BoundExpression::Literal(value, other) => if same_kind(kind, *other) {
            Ok(value.copy(alloc)?)
        } else {
            Err(ResolveError::Refused(Cause::WrongCall))
        },
        _ => Err(ResolveError::Refused(Cause::WrongCall)),
    }
}

/// The value argument that an operand is; 406 where a window call is in it.
fn argument<E: Argument>(
    alloc: Global,
    operand: &TypedOperand<SelectReference>,
) -> Result<ValueArgument<E>, ResolveError>
    ensures { Gives (argument_of E.shown) result (spec.argument E.over (operand_of operand.now)) }
{
    Ok(ValueArgument {
        expression: settle_argument(alloc, operand)?,
        kind: operand.kind(),
    })
}

/// A value argument of whole numbers; a bare NULL counts as one; else 405.
fn numbers<E: Argument>(
    alloc: Global,
    operand: &TypedOperand<SelectReference>,
) -> Result<ValueArgument<E>, ResolveError>
    ensures { Gives (argument_of E.shown) result (spec.numbers E.over (operand_of operand.now)) }
{
    match operand {
        TypedOperand::Null => Ok(ValueArgument {
            expression: E::over(
                alloc,
                &BoundExpression::Literal(Value::Null, ValueKind::Number),
            )?,
            kind: ValueKind::Number,
        }),
        TypedOperand::Typed(_, ValueKind::Number) => argument(alloc, operand),
        TypedOperand::Typed(_, _) => Err(ResolveError::Refused(Cause::WrongCall)),
    }
}

/// A value argument that MIN and MAX accept; else 405.
fn ordered_argument<E: Argument>(
    alloc: Global,
    operand: &TypedOperand<SelectReference>,
) -> Result<ValueArgument<E>, ResolveError>
    ensures { Gives (argument_of E.shown) result (spec.ordered E.over (operand_of operand.now)) }
{
    if has_extremes(Some(operand.kind())) {
        argument(alloc, operand)
    } else {
        Err(ResolveError::Refused(Cause::WrongCall))
    }
}

/// The value of the argument at one row of the frame.
fn value_at(
    alloc: Global,
    row: FrameRow,
    x: &TypedOperand<SelectReference>,
) -> Result<AppliedFunction, ResolveError>
    ensures { Gives function_of result (spec.over_argument (calls.value_at row) (operand_of x.now)) }
{
    Ok(AppliedFunction::ValueAt(row, argument(alloc, x)?))
}

/// NTH_VALUE, with the number of the row, from 1.
fn nth(
    alloc: Global,
    x: &TypedOperand<SelectReference>,
    n: &TypedOperand<SelectReference>,
) -> Result<AppliedFunction, ResolveError>
    ensures { Gives function_of result (spec.nth (operand_of x.now) (operand_of n.now)) }
{
    let number = whole(1, n)?;
    value_at(alloc, FrameRow::Nth(number), x)
}

/// LAG and LEAD, with the distance and the default.
fn away(
    alloc: Global,
    direction: Direction,
    x: &TypedOperand<SelectReference>,
    offset: u64,
    default: Value,
) -> Result<AppliedFunction, ResolveError>
    ensures { Gives function_of result (spec.over_argument (λ a. calls.away direction a offset default) (operand_of x.now)) }
{
    Ok(AppliedFunction::Shift {
        direction,
        argument: argument(alloc, x)?,
        offset,
        default,
    })
}

/// LAG and LEAD, with operands for the distance and the default.
fn shift_function(
    alloc: Global,
    direction: Direction,
    x: &TypedOperand<SelectReference>,
    k: &TypedOperand<SelectReference>,
    d: &TypedOperand<SelectReference>,
) -> Result<AppliedFunction, ResolveError>
    ensures { Gives function_of result (spec.shifted direction (operand_of x.now) (operand_of k.now) (operand_of d.now)) }
{
    let offset = whole(0, k)?;
    let default = default_of(alloc, x.kind(), d)?;
    away(alloc, direction, x, offset, default)
}

fn over_none(name: FunctionName) -> Result<AppliedFunction, ResolveError>
    ensures { Gives function_of result (spec.over_none name) }
{
    match name {
        FunctionName::RowNumber => Ok(AppliedFunction::Ranking(Ranking::RowNumber)),
        FunctionName::Rank => Ok(AppliedFunction::Ranking(Ranking::Rank)),
        FunctionName::DenseRank => Ok(AppliedFunction::Ranking(Ranking::DenseRank)),
        _ => Err(ResolveError::Refused(Cause::WrongCall)),
    }
}

/// An aggregate over its argument.
fn aggregate_over<E: Argument>(
    alloc: Global,
    name: FunctionName,
    x: &TypedOperand<SelectReference>,
) -> Result<AppliedAggregate<E>, ResolveError>
    ensures { Gives (aggregate_of E.shown) result (spec.aggregate_over E.over name (operand_of x.now)) }
{
    match name {
        FunctionName::Count => Ok(AppliedAggregate::Count(argument(alloc, x)?)),
        FunctionName::Sum => Ok(AppliedAggregate::Sum(numbers(alloc, x)?)),
        FunctionName::Min => Ok(AppliedAggregate::Min(ordered_argument(alloc, x)?)),
        FunctionName::Max => Ok(AppliedAggregate::Max(ordered_argument(alloc, x)?)),
        _ => Err(ResolveError::Refused(Cause::WrongCall)),
    }
}

fn over_one(
    alloc: Global,
    name: FunctionName,
    x: &TypedOperand<SelectReference>,
) -> Result<AppliedFunction, ResolveError>
    ensures { Gives function_of result (spec.over_one name (operand_of x.now)) }
{
    match name {
        FunctionName::Ntile => Ok(AppliedFunction::Ranking(Ranking::Ntile(whole(1, x)?))),
        FunctionName::Lag => away(alloc, Direction::Lag, x, ONE_ROW, Value::Null),
        FunctionName::Lead => away(alloc, Direction::Lead, x, ONE_ROW, Value::Null),
        FunctionName::FirstValue => value_at(alloc, FrameRow::First, x),
        FunctionName::LastValue => value_at(alloc, FrameRow::Last, x),
        FunctionName::Count | FunctionName::Sum | FunctionName::Min | FunctionName::Max => {
            Ok(AppliedFunction::Aggregate(aggregate_over(alloc, name, x)?))
        }
        FunctionName::RowNumber
        | FunctionName::Rank
        | FunctionName::DenseRank
        | FunctionName::NthValue => Err(ResolveError::Refused(Cause::WrongCall)),
    }
}

fn over_two(
    alloc: Global,
    name: FunctionName,
    x: &TypedOperand<SelectReference>,
    y: &TypedOperand<SelectReference>,
) -> Result<AppliedFunction, ResolveError>
    ensures { Gives function_of result (spec.over_two name (operand_of x.now) (operand_of y.now)) }
{
    match name {
        FunctionName::Lag => shift_function(alloc, Direction::Lag, x, y, &TypedOperand::Null),
        FunctionName::Lead => shift_function(alloc, Direction::Lead, x, y, &TypedOperand::Null),
        FunctionName::NthValue => nth(alloc, x, y),
        _ => Err(ResolveError::Refused(Cause::WrongCall)),
    }
}

fn over_three(
    alloc: Global,
    name: FunctionName,
    x: &TypedOperand<SelectReference>,
    y: &TypedOperand<SelectReference>,
    z: &TypedOperand<SelectReference>,
) -> Result<AppliedFunction, ResolveError>
    ensures { Gives function_of result (spec.over_three name (operand_of x.now) (operand_of y.now) (operand_of z.now)) }
{
    match name {
        FunctionName::Lag => shift_function(alloc, Direction::Lag, x, y, z),
        FunctionName::Lead => shift_function(alloc, Direction::Lead, x, y, z),
        _ => Err(ResolveError::Refused(Cause::WrongCall)),
    }
}

fn over_arguments(
    alloc: Global,
    name: FunctionName,
    arguments: &[TypedOperand<SelectReference>],
) -> Result<AppliedFunction, ResolveError>
    ensures { Gives function_of result (spec.over_arguments name (map operand_of arguments.now)) }
{
    match arguments {
        [] => over_none(name),
        [x] => over_one(alloc, name, x),
        [x, y] => over_two(alloc, name, x, y),
        [x, y, z] => over_three(alloc, name, x, y, z),
        _ => Err(ResolveError::Refused(Cause::WrongCall)),
    }
}

/// A star instead of arguments, which only COUNT takes.
fn over_star(name: FunctionName) -> Result<AppliedFunction, ResolveError>
    ensures { Gives function_of result (spec.over_star name) }
{
    match name {
        FunctionName::Count => Ok(AppliedFunction::Aggregate(AppliedAggregate::CountRows)),
        _ => Err(ResolveError::Refused(Cause::WrongCall)),
    }
}

/// The function of that name over its arguments, or over a star where there are none; 405 where it does not take them.
pub fn apply_function(
    alloc: Global,
    name: &str,
    arguments: Option<Vec<TypedOperand<SelectReference>>>,
) -> Result<AppliedFunction, ResolveError>
    ensures { Gives function_of result (spec.applied (spec.function_named name.now) (option_map operands_of arguments)) }
{
    let Some(name) = named_function(name) else {
        return Err(ResolveError::Refused(Cause::WrongCall));
    };
    match arguments {
        None => over_star(name),
        Some(arguments) => over_arguments(alloc, name, &arguments),
    }
}

/// The functions that are called without OVER.
#[derive(Clone, Copy)]
pub enum GroupFunction {
    /// COUNT, SUM, MIN or MAX.
    Aggregate(FunctionName),
    Grouping,
}

/// The function without OVER of that name.
pub fn group_function_named(name: &str) -> Option<GroupFunction>
    ensures { option_map group_function_of result ≡ spec.group_function_named name.now }
{
    match name {
        "grouping" => Some(GroupFunction::Grouping),
        "count" => Some(GroupFunction::Aggregate(FunctionName::Count)),
        "sum" => Some(GroupFunction::Aggregate(FunctionName::Sum)),
        "min" => Some(GroupFunction::Aggregate(FunctionName::Min)),
        "max" => Some(GroupFunction::Aggregate(FunctionName::Max)),
        _ => None,
    }
}

/// The columns of FROM that the operands are; 405 where one is no column.
fn columns_only(
    alloc: Global,
    operands: &[TypedOperand<SelectReference>],
) -> Result<Vec<u16>, ResolveError>
    ensures { Gives (λ v. v.items) result (spec.columns_only (map operand_of operands.now)) }
{
    let mut columns = Vec::new(alloc);
    for operand in operands {
        columns.push(column_only(operand)?)?;
    }
    Ok(columns)
}

fn column_only(operand: &TypedOperand<SelectReference>) -> Result<u16, ResolveError>
    ensures { Gives (λ n. n) result (spec.column_only (operand_of operand.now)) }
{
    let TypedOperand::Typed(expression, _) = operand else {
        return Err(ResolveError::Refused(Cause::WrongCall));
    };
    match &**expression {
        BoundExpression::Reference(SelectReference::Row(RowReference::Column(number))) => Ok(
            *number,
        ),
        _ => Err(ResolveError::Refused(Cause::WrongCall)),
    }
}

/// An aggregate over its one argument; else 405.
fn aggregate_of_one(
    alloc: Global,
    name: FunctionName,
    arguments: &[TypedOperand<SelectReference>],
) -> Result<GroupCall, ResolveError>
    ensures { Gives group_call_of result (spec.aggregate_of_one name (map operand_of arguments.now)) }
{
    match arguments {
        [x] => Ok(GroupCall::OfRows(aggregate_over(alloc, name, x)?)),
        _ => Err(ResolveError::Refused(Cause::WrongCall)),
    }
}

/// GROUPING of 1 to 31 columns; else 405.
fn grouping_over(columns: Vec<u16>) -> Result<GroupCall, ResolveError>
    ensures { Gives group_call_of result (spec.grouping_over columns.items) }
{
    if 1 <= columns.len() && columns.len() <= 31 {
        Ok(GroupCall::Grouping(columns))
    } else {
        Err(ResolveError::Refused(Cause::WrongCall))
    }
}

/// A function without OVER over its arguments, or over a star where there are none; 405 where it does not take them.
pub fn make_group_call(
    alloc: Global,
    function: GroupFunction,
    arguments: Option<Vec<TypedOperand<SelectReference>>>,
) -> Result<GroupCall, ResolveError>
    ensures { Gives group_call_of result (spec.make_group_call (group_function_of function) (option_map operands_of arguments)) }
{
    match (function, arguments) {
        (GroupFunction::Aggregate(FunctionName::Count), None) => {
            Ok(GroupCall::OfRows(AppliedAggregate::CountRows))
        }
        (_, None) => Err(ResolveError::Refused(Cause::WrongCall)),
        (GroupFunction::Aggregate(name), Some(arguments)) => {
            aggregate_of_one(alloc, name, &arguments)
        }
        (GroupFunction::Grouping, Some(arguments)) => {
            grouping_over(columns_only(alloc, &arguments)?)
        }
    }
}
