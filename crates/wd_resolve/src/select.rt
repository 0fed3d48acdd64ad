//! Selects to plans.

ghost use Rattle.std.specs.Prelude.{◌≡◌, ◌≤◌, ◌++◌, [], false, map, vec_len, option_map, IfOk};
ghost use Rattle.wd_plan.specs.Plans.{plan_of};
ghost use Rattle.wd_schema.specs.Schemas.{schema_of};
ghost use Rattle.wd_syntax.specs.Tree.{joins_of, keys_of};
ghost use Rattle.wd_syntax.specs.View.{view_item, view_joined, view_key, view_parts, view_select, view_table};
ghost use Rattle.wd_resolve_operand.specs.Causes.{Gives};
ghost use Rattle.wd_resolve_call.specs.References.{bound_expression_of};
ghost use Rattle.wd_resolve_scope.specs.declared.context.Place.TheVariants as places;
ghost use Rattle.wd_resolve_list.specs.Grouping.{below_of, grouped_rule};
ghost use Rattle.wd_resolve_scope.specs.Scopes.{scope_of};
ghost use Rattle.wd_resolve_call.specs.Windows.{known_of};
ghost use Rattle.wd_resolve_select.specs.RowLimits.{row_limit_of};
ghost use Rattle.wd_resolve_list.specs.SelectLists.{projected_of, projected_shown};
ghost use Rattle.wd_resolve_list.specs.SelectLists as listing;
ghost use Rattle.wd_resolve_list.specs.Outputs.{output_of, expressions_of};
ghost use Rattle.wd_resolve_list.specs.Outputs as outputs_spec;
ghost use Rattle.wd_resolve.specs.ReadLists as listings;
ghost use Rattle.wd_resolve.specs.Selected.{joined_of, from_of, lowered_of};
ghost use Rattle.wd_resolve.specs.Selected as parts_spec;
ghost use Rattle.wd_resolve_select.specs.Sorting.{sorted_of, shown_of, IsCounted, IsNarrow};
ghost use Rattle.wd_resolve_select.specs.Steps as steps_spec;
ghost use Rattle.wd_resolve.specs.Lowering as spec;

use crate::listed::ReadList;
use crate::part::{FromSoFar, JoinedTables, LoweredSelect};
use crate::tables::{
    admit_first, admit_joined, after_comma, derived_table, join_on, named_table, together,
};
use std::alloc::Global;
use wd_plan::Plan;
use wd_resolve_operand::{BoundExpression, Cause, ResolveError};
use wd_resolve_scope::{Context, KnownWindow, Place, Scope, SelectReference, define_windows};
use wd_resolve_select::{
    Below, Output, OutputColumn, ProjectedInputs, RowLimit, Shown, Sorted, add_distinct,
    add_filter, add_limit, add_map, drop_hidden, resolve_below, resolve_group_by, resolve_item,
    resolve_limits, resolve_sort_keys,
};
use wd_schema::Schema;
use wd_syntax::{Alias, Item, Joined, Limits, Name, Quantifier, Select, SortKey, Table};
use wd_value::{OutOfMemory, Text};

/// The plan of a select, and its columns.
#[cycle(select)]
pub fn lower(alloc: Global, schema: &Schema, select: &Select) -> Result<LoweredSelect, ResolveError>
    ensures { Gives lowered_of result (spec.lowered (schema_of schema.now) (view_select select.now)) }
{
    let first = resolve_table(alloc, schema, &select.from.first)?;
    let first = admit_first(first)?;
    let from = resolve_joins(alloc, schema, first, &select.from.joined)?;
    let part = together(alloc, from)?;
    after_from(alloc, part, select)
}

/// The tables of FROM after the first, joined from left to right.
#[cycle(select)]
fn resolve_joins(
    alloc: Global,
    schema: &Schema,
    first: FromSoFar,
    joins: &[Joined],
) -> Result<FromSoFar, ResolveError>
    ensures { Gives from_of result (spec.joins_meant (schema_of schema.now) (joins_of (map view_joined joins.now)) (from_of first)) }
{
    let mut from = first;
    for join in joins {
        from = resolve_join(alloc, schema, from, join)?;
    }
    Ok(from)
}

/// A table of FROM: a Scan, or its own plan.
#[cycle(select)]
fn resolve_table(
    alloc: Global,
    schema: &Schema,
    table: &Table,
) -> Result<JoinedTables, ResolveError>
    ensures { Gives joined_of result (spec.table_meant (schema_of schema.now) (view_table table.now)) }
{
    match table {
        Table::Named(name, alias) => named_table(
            alloc,
            schema,
            &name.text,
            table_name(name, alias),
        ),
        Table::Derived(select, alias) => {
            let plan = lower(alloc, schema, select)?;
            Ok(derived_table(alloc, &alias.name.text, plan)?)
        }
    }
}

/// What a table of the schema is called: by its alias, or else by its own name.
fn table_name<'a>(name: &'a Name, alias: &'a Option<Alias>) -> &'a Text
    ensures { result.now ≡ parts_spec.called name.now alias.now }
{
    match alias {
        Some(alias) => &alias.name.text,
        None => &name.text,
    }
}

#[cycle(select)]
fn resolve_join(
    alloc: Global,
    schema: &Schema,
    from: FromSoFar,
    join: &Joined,
) -> Result<FromSoFar, ResolveError>
    ensures { Gives from_of result (spec.join_meant (schema_of schema.now) (view_joined join.now) (from_of from)) }
{
    match join {
        Joined::Comma(table) => {
            let part = resolve_table(alloc, schema, table)?;
            after_comma(alloc, from, part)
        }
        Joined::Cross(table) => {
            let part = resolve_table(alloc, schema, table)?;
            admit_joined(alloc, from, part)
        }
        Joined::Inner(_, table, on) => {
            let part = resolve_table(alloc, schema, table)?;
            join_on(alloc, from, part, on)
        }
    }
}

/// A select after its FROM: WHERE, GROUP BY, HAVING, WINDOW, the select list, ORDER BY and the limits.
fn after_from(
    alloc: Global,
    from: JoinedTables,
    select: &Select,
) -> Result<LoweredSelect, ResolveError>
    ensures { Gives lowered_of result (spec.after_from (joined_of from) (view_parts select.now)) }
{
    let JoinedTables { scope, plan } = from;
    let plan = add_filter(alloc, &scope, &select.filter, plan)?;
    let grouped = resolve_group_by(alloc, &scope, select)?;
    let below = resolve_below(alloc, &scope, grouped, &select.grouping.having)?;
    let windows = define_windows(alloc, &scope, below.groups(), &select.windows)?;
    lower_select_list(alloc, &scope, below, plan, &windows, select)
}

/// A select after its FROM, WHERE, GROUP BY, HAVING and WINDOW: the select list, ORDER BY and the limits.
fn lower_select_list(
    alloc: Global,
    scope: &Scope,
    below: Below,
    plan: Plan,
    windows: &[KnownWindow],
    select: &Select,
) -> Result<LoweredSelect, ResolveError>
    ensures { Gives lowered_of result (spec.selected (scope_of scope.now) (below_of below) (plan_of plan) (map known_of windows.now) (view_parts select.now)) }
{
    let listed = resolve_list(alloc, scope, windows, below, &select.items)?;
    let distinct = is_distinct(select.quantifier);
    lower_sorted(
        alloc,
        scope,
        distinct,
        listed,
        &select.order,
        select.limits,
        plan,
    )
}

fn is_distinct(quantifier: Option<Quantifier>) -> bool
    ensures { result ≡ spec.is_distinct quantifier }
{
    match quantifier {
        None | Some(Quantifier::All) => false,
        Some(Quantifier::Distinct) => true,
    }
}

/// An empty select list.
fn empty_list(alloc: Global, below: Below) -> ReadList
    ensures below { below_of result.below ≡ below_of below }
    ensures nothing { map output_of result.outputs.items ≡ [] }
    ensures counted { listings.IsCounted result }
{
    ReadList {
        below,
        outputs: Vec::new(alloc),
        projected: ProjectedInputs::new(alloc),
    }
}

/// The outputs of the select list: 415 at a member that makes a node too wide.
fn resolve_list(
    alloc: Global,
    scope: &Scope,
    windows: &[KnownWindow],
    below: Below,
    items: &[Item],
) -> Result<ReadList, ResolveError>
    ensures meant { Gives (λ l. map output_of l.outputs.items) result (outputs_spec.list_meant (below_of below) (record { scope = scope_of scope.now; groups = option_map grouped_rule (below_of below).grouped; windows = map known_of windows.now; place = places.SelectList }) (map view_item items.now)) }
    ensures below { IfOk result (λ l. below_of l.below ≡ below_of below) }
    ensures counted { IfOk result (λ l. listings.IsCounted l) }
{
    let mut listed = empty_list(alloc, below);
    for item in items {
        listed = add_item(alloc, scope, windows, item, listed)?;
    }
    Ok(listed)
}

/// Adds a member of the select list; 415 comes after the member's other refusals.
fn add_item(
    alloc: Global,
    scope: &Scope,
    windows: &[KnownWindow],
    item: &Item,
    listed: ReadList,
) -> Result<ReadList, ResolveError>
    requires { listings.IsCounted listed }
    ensures meant { Gives (λ l. map output_of l.outputs.items) result (outputs_spec.item_listed (below_of listed.below) (record { scope = scope_of scope.now; groups = option_map grouped_rule (below_of listed.below).grouped; windows = map known_of windows.now; place = places.SelectList }) (view_item item.now) (map output_of listed.outputs.items)) }
    ensures below { IfOk result (λ l. below_of l.below ≡ below_of listed.below) }
    ensures counted { IfOk result (λ l. listings.IsCounted l) }
{
    let more = outputs_of_item(alloc, scope, windows, &listed.below, item)?;
    let (below, outputs, projected) = with_outputs(alloc, listed, more)?;
    narrow(alloc, below, outputs, projected)
}

/// The outputs of a member of a select list.
fn outputs_of_item<'a>(
    alloc: Global,
    scope: &'a Scope,
    windows: &'a [KnownWindow],
    below: &'a Below,
    item: &Item,
) -> Result<Vec<Output>, ResolveError>
    ensures { Gives (λ v. map output_of v.items) result (outputs_spec.item_meant (record { scope = scope_of scope.now; groups = option_map grouped_rule (below_of below.now).grouped; windows = map known_of windows.now; place = places.SelectList }) (view_item item.now)) }
{
    let context = Context {
        scope,
        groups: below.groups(),
        windows,
        place: Place::SelectList,
    };
    resolve_item(alloc, &context, item)
}

/// The outputs with further ones, and what all of them need.
#[tactic(auto, using(crate::proofs::More::projected_listed))]
fn with_outputs(
    alloc: Global,
    listed: ReadList,
    more: Vec<Output>,
) -> Result<(Below, Vec<Output>, ProjectedInputs), OutOfMemory>
    requires { listings.IsCounted listed }
    ensures below { IfOk result (λ p. below_of p.0 ≡ below_of listed.below) }
    ensures outputs { IfOk result (λ p. map output_of p.1.items ≡ map output_of listed.outputs.items ++ map output_of more.items) }
    ensures counted { IfOk result (λ p. projected_shown p.2 ≡ projected_of (expressions_of (map output_of p.1.items))) }
{
    let ReadList {
        below,
        mut outputs,
        projected,
    } = listed;
    let mut more = more;
    let projected = projected.add_all(alloc, &more)?;
    outputs.append(&mut more)?;
    Ok((below, outputs, projected))
}

/// The outputs, if no node is too wide for them; else 415.
#[tactic(auto, using(crate::proofs::More::few_listed))]
fn narrow(
    alloc: Global,
    below: Below,
    outputs: Vec<Output>,
    projected: ProjectedInputs,
) -> Result<ReadList, ResolveError>
    requires { projected_shown projected ≡ projected_of (expressions_of (map output_of outputs.items)) }
    ensures meant { Gives (λ l. map output_of l.outputs.items) result (outputs_spec.narrow (below_of below) (map output_of outputs.items)) }
    ensures below { IfOk result (λ l. below_of l.below ≡ below_of below) }
    ensures counted { IfOk result (λ l. listings.IsCounted l) }
{
    if are_wide(alloc, &below, &outputs, &projected)? {
        Err(ResolveError::Refused(Cause::TooMany))
    } else {
        Ok(ReadList {
            below,
            outputs,
            projected,
        })
    }
}

/// Whether outputs make some node too wide.
fn are_wide(
    alloc: Global,
    below: &Below,
    outputs: &[Output],
    projected: &ProjectedInputs,
) -> Result<bool, OutOfMemory>
    requires { projected_shown projected.now ≡ projected_of (expressions_of (map output_of outputs.now)) }
    ensures { IfOk result (λ b. b ≡ listing.are_wide (below_of below.now) (expressions_of (map output_of outputs.now)) []) }
{
    projected.is_wide_with_having(alloc, outputs.len(), below)
}

/// Whether there are sort keys.
pub(crate) fn is_sorted(keys: &[SortKey]) -> bool
    ensures { result ≡ spec.is_sorted (keys_of (map view_key keys.now)) }
{
    match keys {
        [] => false,
        _ => true,
    }
}

/// What a select shows, in its order and within its limits.
fn lower_sorted(
    alloc: Global,
    scope: &Scope,
    distinct: bool,
    listed: ReadList,
    order: &[SortKey],
    limits: Option<Limits>,
    plan: Plan,
) -> Result<LoweredSelect, ResolveError>
    requires { listings.IsCounted listed }
    ensures { Gives lowered_of result (spec.shown_sorted (spec.shown_by (scope_of scope.now) (below_of listed.below) distinct (map output_of listed.outputs.items)) (keys_of (map view_key order.now)) limits (plan_of plan)) }
{
    let ReadList {
        below,
        outputs,
        projected,
    } = listed;
    let projected = projected.add_having(&below.having)?;
    let shown = Shown {
        scope,
        groups: below.groups(),
        below: &below,
        distinct,
        outputs: &outputs,
    };
    let sorted = resolve_sort_keys(alloc, &shown, order, projected)?;
    let row_limit = resolve_limits(is_sorted(order), limits)?;
    Ok(lower_shown(
        alloc, scope, &below, distinct, outputs, sorted, row_limit, plan,
    )?)
}

/// The plan of what a select shows, sorts by and cuts off.
fn lower_shown(
    alloc: Global,
    scope: &Scope,
    below: &Below,
    distinct: bool,
    outputs: Vec<Output>,
    sorted: Sorted,
    row_limit: Option<RowLimit>,
    plan: Plan,
) -> Result<LoweredSelect, OutOfMemory>
    requires few { vec_len outputs ≤ 1024 }
    requires counted { IsCounted (spec.shown_by (scope_of scope.now) (below_of below.now) distinct (map output_of outputs.items)) sorted }
    requires narrow { IsNarrow (spec.shown_by (scope_of scope.now) (below_of below.now) distinct (map output_of outputs.items)) (sorted_of sorted) }
    ensures { IfOk result (λ l. lowered_of l ≡ steps_spec.lowered_shown (spec.shown_by (scope_of scope.now) (below_of below.now) distinct (map output_of outputs.items)) (sorted_of sorted) (option_map row_limit_of row_limit) (plan_of plan)) }
{
    let Sorted {
        items,
        hidden,
        projected,
    } = sorted;
    let hidden_count = hidden.len();
    let (columns, expressions) = parts_of(alloc, outputs)?;
    let plan = add_outputs(alloc, projected, below, expressions, hidden, plan)?;
    let plan = add_distinct(alloc, distinct, plan)?;
    let plan = add_limit(alloc, items, row_limit, plan)?;
    let plan = drop_hidden(alloc, columns.len(), hidden_count, plan)?;
    Ok(LoweredSelect { plan, columns })
}

/// A Map of outputs and hidden sort keys, over what is below them.
fn add_outputs(
    alloc: Global,
    projected: ProjectedInputs,
    below: &Below,
    outputs: Vec<BoundExpression<SelectReference>>,
    hidden: Vec<BoundExpression<SelectReference>>,
    plan: Plan,
) -> Result<Plan, OutOfMemory>
    requires counted { projected_shown projected ≡ listing.all_projected (below_of below.now) (map bound_expression_of outputs.items) (map bound_expression_of hidden.items) }
    requires narrow { listing.are_wide (below_of below.now) (map bound_expression_of outputs.items) (map bound_expression_of hidden.items) ≡ false }
    ensures { IfOk result (λ p. plan_of p ≡ steps_spec.mapped (below_of below.now) (map bound_expression_of outputs.items) (map bound_expression_of hidden.items) (plan_of plan)) }
{
    let (mut expressions, mut hidden) = (outputs, hidden);
    expressions.append(&mut hidden)?;
    add_map(alloc, projected, below, expressions, plan)
}

/// The names and kinds of outputs, and their expressions.
fn parts_of(
    alloc: Global,
    outputs: Vec<Output>,
) -> Result<(Vec<OutputColumn>, Vec<BoundExpression<SelectReference>>), OutOfMemory>
    ensures columns { IfOk result (λ p. p.0.items ≡ map steps_spec.column_shown (map output_of outputs.items)) }
    ensures expressions { IfOk result (λ p. map bound_expression_of p.1.items ≡ expressions_of (map output_of outputs.items)) }
    ensures as_many { IfOk result (λ p. vec_len p.0 ≡ vec_len outputs) }
{
    let mut columns = Vec::with_capacity(alloc, outputs.len())?;
    let mut expressions = Vec::with_capacity(alloc, outputs.len())?;
    for output in outputs {
        let Output {
            name,
            expression,
            kind,
        } = output;
        columns.push(OutputColumn { name, kind })?;
        expressions.push(expression)?;
    }
    Ok((columns, expressions))
}
