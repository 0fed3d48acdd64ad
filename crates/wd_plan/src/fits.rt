//! Whether a plan fits a schema.
//!
//! A Group fits only where each grouping column is in some set. A query never names one that is in none, and for a plan made by hand the
//! facts of one set would be false: a column that is NULL everywhere would be determined by what determined it below. A set may name a
//! column twice, and a list may have a set twice: its rows then come twice, and GROUPING does not distinguish them.

ghost use Rattle.std.specs.Prelude.{◌≡◌, ◌-◌, ◌^◌, min, map, nat_lt, option_and_then, option_map, slice_get};
ghost use Rattle.std.specs.List.{list_all, list_any};
ghost use Rattle.wd_schema.specs.Schemas.{schema_of};
ghost use Rattle.wd_plan.specs.Expressions.{expression_of};
ghost use Rattle.wd_plan.specs.Fits as spec;
ghost use Rattle.wd_value.specs.Bags.{positions};
ghost use Rattle.wd_plan.specs.Plans.{class_of, group_call_of, grouping_of, has, limit_of, plan_of, sets_of, window_of};
ghost use Rattle.wd_plan.specs.declared.function.FrameFunction.TheVariants as frame_function;
ghost use Rattle.wd_plan.specs.declared.function.Function.TheVariants as function;
ghost use Rattle.wd_plan.specs.Sources.{kind_from};

use crate::expression::{Expr, ValueKind};
use crate::function::{
    Aggregate, Argument, FrameFunction, FrameRow, Function, Ranking, ResultKind,
};
use crate::group::{Group, GroupCall, has_column};
use crate::plan::{Limit, Plan, saturate};
use crate::window::{Bound, Call, Class, Frame, FrameMode, Window};
use wd_schema::Schema;
use wd_value::{ColumnType, SortColumn, Value};

/// The largest number of columns of a node.
const MAX_COLUMNS: u32 = 1024;

/// Where the kind of an expression's or a call's values comes from: a column of the input, or a kind of its own.
#[derive(Clone, Copy)]
enum KindSource {
    OfColumn(u16),
    Always(ValueKind),
}

impl Plan {
    /// Whether the plan fits the schema: each table, column and class that it names exists, each operand has the type that its place asks
    /// for, and no node has more than 1,024 columns. Takes no memory.
    pub fn fits(&self, schema: &Schema) -> bool
        ensures { result ≡ spec.fits (schema_of schema.now) (plan_of self.now) }
    {
        match self {
            Plan::Scan { table, columns } => is_narrow(u32::from(*columns))
                && has_table(schema, *table, *columns),
            Plan::Join {
                left,
                right,
                condition,
            } => { left.fits(schema) && right.fits(schema) && is_join(condition, self, schema) }
            Plan::Filter { input, condition } => input.fits(schema)
                && condition.is_condition(input, schema),
            Plan::Map { input, outputs } => input.fits(schema)
                && are_outputs(outputs, input, schema),
            Plan::Group { input, group } => input.fits(schema) && is_group(group, input, schema),
            Plan::Window { input, window } => input.fits(schema)
                && is_window(window, input, schema),
            Plan::Distinct { input } => input.fits(schema),
            Plan::Limit { input, limit } => input.fits(schema) && is_limit(limit, input, schema),
        }
    }

    /// The number of columns of the node's rows; `u32::MAX` where there are more.
    pub fn width(&self) -> u32
        ensures { result ≡ min (spec.width (plan_of self.now)) (2 ^ 32 - 1) }
    {
        match self {
            Plan::Scan { columns, .. } => u32::from(*columns),
            Plan::Join { left, right, .. } => left.width().saturating_add(right.width()),
            Plan::Filter { input, .. } | Plan::Distinct { input } | Plan::Limit { input, .. } =>
                input.width(),
            Plan::Map { outputs, .. } => saturate(outputs.len()),
            Plan::Group { group, .. } => u32::from(group.columns).saturating_add(saturate(
                group.calls.len(),
            )),
            Plan::Window { input, window } => input
                .width()
                .saturating_add(saturate(window.calls.len())),
        }
    }

    /// The kind of a column of the node's rows; `None` past the last column.
    pub fn kind(&self, column: u16, schema: &Schema) -> Option<ValueKind>
        ensures { result ≡ spec.kinds_of (schema_of schema.now) (plan_of self.now) column }
    {
        match self {
            Plan::Scan { table, .. } => table_kind(schema, *table, column),
            Plan::Join { left, right, .. } => {
                let width = left.width();
                if u32::from(column) < width {
                    left.kind(column, schema)
                } else {
                    right.kind((u32::from(column) - width) as u16, schema)
                }
            }
            Plan::Filter { input, .. } => input.kind(column, schema),
            Plan::Map { input, outputs } => match output_source(outputs, column)? {
                KindSource::OfColumn(c) => input.kind(c, schema),
                KindSource::Always(kind) => Some(kind),
            },
            Plan::Group { input, group } => {
                if column < group.columns {
                    return input.kind(column, schema);
                }
                match group_source(&group.calls, column - group.columns)? {
                    KindSource::OfColumn(c) => input.kind(c, schema),
                    KindSource::Always(kind) => Some(kind),
                }
            }
            Plan::Window { input, window } => {
                let width = input.width();
                if u32::from(column) < width {
                    return input.kind(column, schema);
                }
                match call_source(&window.calls, (u32::from(column) - width) as u16)? {
                    KindSource::OfColumn(c) => input.kind(c, schema),
                    KindSource::Always(kind) => Some(kind),
                }
            }
            Plan::Distinct { input } => input.kind(column, schema),
            Plan::Limit { input, .. } => input.kind(column, schema),
        }
    }
}

fn is_narrow(columns: u32) -> bool
    ensures { result ≡ spec.is_narrow columns }
{
    columns <= MAX_COLUMNS
}

/// Whether the schema has a table of this number with the given number of columns.
fn has_table(schema: &Schema, table: u16, columns: u16) -> bool
    ensures { result ≡ spec.has_table (schema_of schema.now) table columns }
{
    match schema.tables.get_index(usize::from(table)) {
        Some((_, table)) => table.columns.len() == usize::from(columns),
        None => false,
    }
}

/// The kind of a table's column.
fn table_kind(schema: &Schema, table: u16, column: u16) -> Option<ValueKind>
    ensures { result ≡ spec.table_kind (schema_of schema.now) table column }
{
    let (_, table) = schema.tables.get_index(usize::from(table))?;
    let column = table.columns.get(usize::from(column))?;
    Some(kind_of_type(column.kind))
}

/// The kind of the values of a column type.
pub fn kind_of_type(kind: ColumnType) -> ValueKind
    ensures { result ≡ spec.kind_of_type kind }
{
    match kind {
        ColumnType::SmallInt | ColumnType::Integer | ColumnType::BigInt => ValueKind::Number,
        ColumnType::Text => ValueKind::Text,
        ColumnType::Boolean => ValueKind::Truth,
    }
}

/// Where the kind of the output with this number comes from.
fn output_source(outputs: &[Expr], number: u16) -> Option<KindSource>
    ensures { (kinds : spec.Kinds) → option_and_then (kind_from kinds) result ≡ option_and_then (spec.kind_of kinds) (slice_get (map expression_of outputs.now) number) }
{
    let output = outputs.get(usize::from(number))?;
    Some(output.source())
}

/// Where the kind of the call with this number comes from.
fn call_source(calls: &[Call], number: u16) -> Option<KindSource>
    ensures { (kinds : spec.Kinds) → option_and_then (kind_from kinds) result ≡ option_and_then (spec.kind_of_call kinds) (slice_get calls.now number) }
{
    let call = calls.get(usize::from(number))?;
    call.function.source()
}

/// Where the kind of the call of a Group with this number comes from.
fn group_source(calls: &[GroupCall], number: u16) -> Option<KindSource>
    ensures { (kinds : spec.Kinds) → option_and_then (kind_from kinds) result ≡ option_and_then (spec.kind_of_group_call kinds) (slice_get (map group_call_of calls.now) number) }
{
    let call = calls.get(usize::from(number))?;
    call.source()
}

impl GroupCall {
    /// Where the kind of the call's values comes from; `None` where it would be that of an argument that is missing.
    fn source(&self) -> Option<KindSource>
        ensures { (kinds : spec.Kinds) → option_and_then (kind_from kinds) result ≡ spec.kind_of_group_call kinds (group_call_of self.now) }
    {
        match self {
            GroupCall::OfRows(aggregate) => of_rows(*aggregate).source(),
            GroupCall::Grouping(_) => Some(KindSource::Always(ValueKind::Number)),
        }
    }

    /// Whether the call takes these arguments.
    fn takes(&self, columns: u16, input: &Plan, schema: &Schema) -> bool
        ensures { result ≡ spec.is_group_call (spec.kinds_of (schema_of schema.now) (plan_of input.now)) columns (group_call_of self.now) }
    {
        match self {
            GroupCall::OfRows(aggregate) => of_rows(*aggregate).takes(input, schema),
            GroupCall::Grouping(arguments) => {
                0 < arguments.len() && arguments.len() <= 31 && are_below(arguments, columns)
            }
        }
    }
}

/// An aggregate as a function of rows.
fn of_rows(aggregate: Aggregate) -> Function
    ensures { result ≡ function.OfFrame (frame_function.Aggregate aggregate) }
{
    Function::OfFrame(FrameFunction::Aggregate(aggregate))
}

/// Whether each of these columns is among the first `count`.
fn are_below(columns: &[u16], count: u16) -> bool
    ensures { result ≡ list_all (λ c. nat_lt c count) columns.now }
{
    for column in columns {
        if !(*column < count) {
            return false;
        }
    }
    true
}

impl KindSource {
    /// The kind that the source has over the rows of a node.
    fn kind(self, input: &Plan, schema: &Schema) -> Option<ValueKind>
        ensures { result ≡ kind_from (spec.kinds_of (schema_of schema.now) (plan_of input.now)) self }
    {
        match self {
            KindSource::OfColumn(c) => input.kind(c, schema),
            KindSource::Always(kind) => Some(kind),
        }
    }
}

fn is_kind(kind: ValueKind, other: Option<ValueKind>) -> bool
    ensures { result ≡ spec.is_kind kind other }
{
    match (kind, other) {
        (ValueKind::Number, Some(ValueKind::Number)) => true,
        (ValueKind::Text, Some(ValueKind::Text)) => true,
        (ValueKind::Truth, Some(ValueKind::Truth)) => true,
        _ => false,
    }
}

fn are_alike(kind: Option<ValueKind>, other: Option<ValueKind>) -> bool
    ensures { result ≡ spec.are_alike kind other }
{
    match kind {
        Some(kind) => is_kind(kind, other),
        None => false,
    }
}

/// Whether a value is NULL or of the kind.
fn is_of_kind(kind: ValueKind, value: &Value) -> bool
    ensures { result ≡ spec.is_of_kind kind value.now }
{
    match (kind, value) {
        (_, Value::Null) => true,
        (ValueKind::Number, Value::Int(_)) => true,
        (ValueKind::Text, Value::Text(_)) => true,
        (ValueKind::Truth, Value::Bool(_)) => true,
        _ => false,
    }
}

impl Expr {
    /// Where the kind of the expression's values comes from.
    fn source(&self) -> KindSource
        ensures { (kinds : spec.Kinds) → kind_from kinds result ≡ spec.kind_of kinds (expression_of self.now) }
    {
        match self {
            Expr::Column(c) => KindSource::OfColumn(*c),
            Expr::Literal(_, kind) => KindSource::Always(*kind),
            Expr::Negate(_) | Expr::Arithmetic(_, _, _) => KindSource::Always(ValueKind::Number),
            Expr::Case(_, _, chosen, _) => chosen.source(),
            _ => KindSource::Always(ValueKind::Truth),
        }
    }

    fn kind(&self, input: &Plan, schema: &Schema) -> Option<ValueKind>
        ensures { result ≡ spec.kind_of (spec.kinds_of (schema_of schema.now) (plan_of input.now)) (expression_of self.now) }
    {
        self.source().kind(input, schema)
    }

    /// Whether each operand is of the kind that its place asks for. The left operand comes last, so that the compiler makes a loop of
    /// that call and a long chain takes no stack.
    fn is_typed(&self, input: &Plan, schema: &Schema) -> bool
        ensures { result ≡ spec.is_typed (spec.kinds_of (schema_of schema.now) (plan_of input.now)) (expression_of self.now) }
    {
        match self {
            Expr::Column(c) => input.kind(*c, schema).is_some(),
            Expr::Literal(value, kind) => is_of_kind(*kind, value),
            Expr::Negate(a) => a.is_of(ValueKind::Number, input, schema)
                && a.is_typed(input, schema),
            Expr::Arithmetic(_, a, b) => {
                a.is_of(ValueKind::Number, input, schema)
                    && b.is_of(ValueKind::Number, input, schema)
                    && b.is_typed(input, schema)
                    && a.is_typed(input, schema)
            }
            Expr::Compare(_, a, b) => {
                a.is_like(b, input, schema)
                    && b.is_typed(input, schema)
                    && a.is_typed(input, schema)
            }
            Expr::Not(a) => a.is_of(ValueKind::Truth, input, schema) && a.is_typed(input, schema),
            Expr::And(a, b) | Expr::Or(a, b) => {
                a.is_of(ValueKind::Truth, input, schema)
                    && b.is_of(ValueKind::Truth, input, schema)
                    && b.is_typed(input, schema)
                    && a.is_typed(input, schema)
            }
            Expr::IsNull(a) | Expr::IsNotNull(a) => a.is_typed(input, schema),
            Expr::Case(_, a, b, c) => {
                a.is_of(ValueKind::Truth, input, schema)
                    && b.is_like(c, input, schema)
                    && a.is_typed(input, schema)
                    && b.is_typed(input, schema)
                    && c.is_typed(input, schema)
            }
        }
    }

    fn is_of(&self, kind: ValueKind, input: &Plan, schema: &Schema) -> bool
        ensures { result ≡ spec.is_kind kind (spec.kind_of (spec.kinds_of (schema_of schema.now) (plan_of input.now)) (expression_of self.now)) }
    {
        is_kind(kind, self.kind(input, schema))
    }

    fn is_like(&self, other: &Expr, input: &Plan, schema: &Schema) -> bool
        ensures { let kinds = spec.kind_of (spec.kinds_of (schema_of schema.now) (plan_of input.now)) in result ≡ spec.are_alike (kinds (expression_of self.now)) (kinds (expression_of other.now)) }
    {
        are_alike(self.kind(input, schema), other.kind(input, schema))
    }

    fn is_condition(&self, input: &Plan, schema: &Schema) -> bool
        ensures { result ≡ spec.is_condition (spec.kinds_of (schema_of schema.now) (plan_of input.now)) (expression_of self.now) }
    {
        self.is_typed(input, schema) && self.is_of(ValueKind::Truth, input, schema)
    }
}

fn is_join(condition: &Option<Expr>, join: &Plan, schema: &Schema) -> bool
    ensures { let tree = plan_of join.now in result ≡ spec.is_join (spec.kinds_of (schema_of schema.now) tree) (spec.width tree) (option_map expression_of condition.now) }
{
    is_narrow(join.width()) && may_join(condition, join, schema)
}

fn may_join(condition: &Option<Expr>, join: &Plan, schema: &Schema) -> bool
    ensures { result ≡ spec.may_join (spec.kinds_of (schema_of schema.now) (plan_of join.now)) (option_map expression_of condition.now) }
{
    match condition {
        Some(condition) => condition.is_condition(join, schema),
        None => true,
    }
}

fn are_outputs(outputs: &[Expr], input: &Plan, schema: &Schema) -> bool
    ensures { result ≡ spec.are_outputs (spec.kinds_of (schema_of schema.now) (plan_of input.now)) (map expression_of outputs.now) }
{
    is_narrow(saturate(outputs.len())) && are_typed(outputs, input, schema)
}

fn are_typed(outputs: &[Expr], input: &Plan, schema: &Schema) -> bool
    ensures { result ≡ list_all (spec.is_typed (spec.kinds_of (schema_of schema.now) (plan_of input.now))) (map expression_of outputs.now) }
{
    for output in outputs {
        if !output.is_typed(input, schema) {
            return false;
        }
    }
    true
}

impl Function {
    /// Where the kind of the function's values comes from; `None` where it would be that of an argument that is missing.
    fn source(&self) -> Option<KindSource>
        ensures { (kinds : spec.Kinds) → option_and_then (kind_from kinds) result ≡ spec.kind_of_function kinds self.now }
    {
        match self.name().signature().result {
            ResultKind::Number => Some(KindSource::Always(ValueKind::Number)),
            ResultKind::OfArgument => match self.argument() {
                Some(column) => Some(KindSource::OfColumn(column)),
                None => None,
            },
        }
    }

    /// Whether the function takes these arguments.
    fn takes(&self, input: &Plan, schema: &Schema) -> bool
        ensures { result ≡ spec.takes (spec.kinds_of (schema_of schema.now) (plan_of input.now)) self.now }
    {
        has_argument(
            self.name().signature().argument,
            self.argument(),
            input,
            schema,
        ) && self.has_literals(input, schema)
    }

    /// Whether the function takes the literals among its arguments.
    fn has_literals(&self, input: &Plan, schema: &Schema) -> bool
        ensures { result ≡ spec.has_literals (spec.kinds_of (schema_of schema.now) (plan_of input.now)) self.now }
    {
        match self {
            Function::Ranking(ranking) => is_ranking(*ranking),
            Function::Shift(shift) => is_default(
                input.kind(shift.argument, schema),
                &shift.default,
            ),
            Function::OfFrame(function) => is_frame_function(*function),
        }
    }
}

/// Whether the value argument, if there is one, is as the signature asks.
fn has_argument(asked: Argument, argument: Option<u16>, input: &Plan, schema: &Schema) -> bool
    ensures { result ≡ spec.has_argument (spec.kinds_of (schema_of schema.now) (plan_of input.now)) asked argument }
{
    match argument {
        None => true,
        Some(column) => is_argument(asked, input.kind(column, schema)),
    }
}

fn is_argument(asked: Argument, kind: Option<ValueKind>) -> bool
    ensures { result ≡ spec.is_argument asked kind }
{
    match asked {
        Argument::Nothing => true,
        Argument::Any => kind.is_some(),
        Argument::Number => is_kind(ValueKind::Number, kind),
        Argument::Ordered => has_extremes(kind),
    }
}

fn is_ranking(ranking: Ranking) -> bool
    ensures { result ≡ spec.is_ranking ranking }
{
    match ranking {
        Ranking::RowNumber | Ranking::Rank | Ranking::DenseRank => true,
        Ranking::Ntile(buckets) => 1 <= buckets,
    }
}

fn is_frame_function(function: FrameFunction) -> bool
    ensures { result ≡ spec.is_frame_function function }
{
    match function {
        FrameFunction::ValueAt(FrameRow::Nth(n), _) => 1 <= n,
        FrameFunction::ValueAt(_, _) | FrameFunction::Aggregate(_) => true,
    }
}

fn is_default(kind: Option<ValueKind>, value: &Value) -> bool
    ensures { result ≡ spec.is_default kind value.now }
{
    match kind {
        Some(kind) => is_of_kind(kind, value),
        None => false,
    }
}

/// Whether MIN and MAX are defined for values of the kind: they are for whole numbers and texts.
pub fn has_extremes(kind: Option<ValueKind>) -> bool
    ensures { result ≡ spec.has_extremes kind }
{
    is_kind(ValueKind::Number, kind) || is_kind(ValueKind::Text, kind)
}

impl Bound {
    /// The bound's rank in the order in which bounds may follow one another.
    fn place(self) -> u32
        ensures { result ≡ spec.bound_place self }
    {
        match self {
            Bound::UnboundedPreceding => 0,
            Bound::Preceding(_) => 1,
            Bound::CurrentRow => 2,
            Bound::Following(_) => 3,
            Bound::UnboundedFollowing => 4,
        }
    }

    /// Whether the bound has an offset: a number of rows, of peer groups, or a distance of keys.
    pub fn has_offset(self) -> bool
        ensures { result ≡ spec.has_offset self }
    {
        match self {
            Bound::Preceding(_) | Bound::Following(_) => true,
            _ => false,
        }
    }
}

/// Whether a frame may have this start and this end: the start is not UNBOUNDED FOLLOWING, the end is not UNBOUNDED PRECEDING, and the
/// end's kind does not come before the start's.
pub fn are_bounds(start: Bound, end: Bound) -> bool
    ensures { result ≡ spec.are_bounds start end }
{
    start.place() < 4 && 0 < end.place() && start.place() <= end.place()
}

/// Whether the frame is allowed with these sort keys.
fn has_keys_for(keys: &[SortColumn], frame: Frame, input: &Plan, schema: &Schema) -> bool
    ensures { result ≡ spec.has_keys_for (spec.kinds_of (schema_of schema.now) (plan_of input.now)) keys.now frame }
{
    match frame.mode {
        FrameMode::Rows => true,
        FrameMode::Range => {
            !(frame.start.has_offset() || frame.end.has_offset())
                || is_one_number(keys, input, schema)
        }
        FrameMode::Groups => !keys.is_empty(),
    }
}

/// Whether there is exactly one key, of whole numbers.
fn is_one_number(keys: &[SortColumn], input: &Plan, schema: &Schema) -> bool
    ensures { result ≡ spec.is_one_number (spec.kinds_of (schema_of schema.now) (plan_of input.now)) keys.now }
{
    match keys {
        [item] => is_kind(ValueKind::Number, input.kind(item.column, schema)),
        _ => false,
    }
}

/// Whether the node has these columns.
fn has_columns(columns: &[u16], input: &Plan, schema: &Schema) -> bool
    ensures { result ≡ spec.has_columns (spec.kinds_of (schema_of schema.now) (plan_of input.now)) columns.now }
{
    for column in columns {
        if input.kind(*column, schema).is_none() {
            return false;
        }
    }
    true
}

/// Whether the node has the columns of these sort keys.
fn has_keys(keys: &[SortColumn], input: &Plan, schema: &Schema) -> bool
    ensures { result ≡ spec.has_keys (spec.kinds_of (schema_of schema.now) (plan_of input.now)) keys.now }
{
    for item in keys {
        if input.kind(item.column, schema).is_none() {
            return false;
        }
    }
    true
}

fn is_window(window: &Window, input: &Plan, schema: &Schema) -> bool
    ensures { let tree = plan_of input.now in result ≡ spec.is_window (spec.kinds_of (schema_of schema.now) tree) (spec.width tree) (window_of window.now) }
{
    is_narrow(input.width().saturating_add(saturate(window.calls.len())))
        && has_classes(&window.classes, input, schema)
        && are_calls(&window.calls, &window.classes, input, schema)
}

fn is_group(group: &Group, input: &Plan, schema: &Schema) -> bool
    ensures { let tree = plan_of input.now in result ≡ spec.is_group (spec.kinds_of (schema_of schema.now) tree) (spec.width tree) (grouping_of group.now) }
{
    is_narrow(u32::from(group.columns).saturating_add(saturate(group.calls.len())))
        && u32::from(group.columns) <= input.width()
        && are_sets(&group.sets, group.columns)
        && are_group_calls(&group.calls, group.columns, input, schema)
}

/// Whether each set names grouping columns, which are the first `columns` ones, and each of these is in some set.
fn are_sets(sets: &[Vec<u16>], columns: u16) -> bool
    ensures { result ≡ spec.are_sets columns (sets_of sets.now) }
{
    are_each_below(sets, columns) && is_each_in_some(sets, columns)
}

fn are_each_below(sets: &[Vec<u16>], columns: u16) -> bool
    ensures { result ≡ list_all (list_all (λ c. nat_lt c columns)) (sets_of sets.now) }
{
    for set in sets {
        if !are_below(set, columns) {
            return false;
        }
    }
    true
}

#[tactic(auto, using(crate::proofs::FitsNodes::range_tested))]
fn is_each_in_some(sets: &[Vec<u16>], columns: u16) -> bool
    ensures { result ≡ list_all (λ c. list_any (λ set. has set c) (sets_of sets.now)) (positions columns) }
{
    for column in 0..columns {
        if !is_in_some(sets, column) {
            return false;
        }
    }
    true
}

fn is_in_some(sets: &[Vec<u16>], column: u16) -> bool
    ensures { result ≡ list_any (λ set. has set column) (sets_of sets.now) }
{
    for set in sets {
        if has_column(set, column) {
            return true;
        }
    }
    false
}

fn are_group_calls(calls: &[GroupCall], columns: u16, input: &Plan, schema: &Schema) -> bool
    ensures { result ≡ list_all (spec.is_group_call (spec.kinds_of (schema_of schema.now) (plan_of input.now)) columns) (map group_call_of calls.now) }
{
    for call in calls {
        if !call.takes(columns, input, schema) {
            return false;
        }
    }
    true
}

fn is_limit(limit: &Limit, input: &Plan, schema: &Schema) -> bool
    ensures { result ≡ spec.is_limit (spec.kinds_of (schema_of schema.now) (plan_of input.now)) (limit_of limit.now) }
{
    has_keys(&limit.keys, input, schema) && (!limit.ties || !limit.keys.is_empty())
}

fn has_classes(classes: &[Class], input: &Plan, schema: &Schema) -> bool
    ensures { result ≡ list_all (spec.has_class (spec.kinds_of (schema_of schema.now) (plan_of input.now))) (map class_of classes.now) }
{
    for class in classes {
        if !has_class(class, input, schema) {
            return false;
        }
    }
    true
}

fn has_class(class: &Class, input: &Plan, schema: &Schema) -> bool
    ensures { result ≡ spec.has_class (spec.kinds_of (schema_of schema.now) (plan_of input.now)) (class_of class.now) }
{
    has_columns(&class.partition, input, schema) && has_keys(&class.order, input, schema)
}

fn are_calls(calls: &[Call], classes: &[Class], input: &Plan, schema: &Schema) -> bool
    ensures { result ≡ list_all (spec.is_call (spec.kinds_of (schema_of schema.now) (plan_of input.now)) (map class_of classes.now)) calls.now }
{
    for call in calls {
        if !is_call(call, classes, input, schema) {
            return false;
        }
    }
    true
}

fn is_call(call: &Call, classes: &[Class], input: &Plan, schema: &Schema) -> bool
    ensures { result ≡ spec.is_call (spec.kinds_of (schema_of schema.now) (plan_of input.now)) (map class_of classes.now) call.now }
{
    match classes.get(usize::from(call.class)) {
        Some(class) => {
            call.function.takes(input, schema)
                && are_bounds(call.frame.start, call.frame.end)
                && has_keys_for(&class.order, call.frame, input, schema)
        }
        None => false,
    }
}
