//! The final ORDER BY: each key is an output, or a hidden column after the outputs.

ghost use Rattle.std.specs.Prelude.{◌≡◌, ◌+◌, ◌≤◌, [], false, filter, map, length, vec_len, IfOk};
ghost use Rattle.std.specs.List.{list_all, position_or_len};
ghost use Rattle.wd_syntax.specs.Tree.{keys_of};
ghost use Rattle.wd_syntax.specs.View.{view, view_key};
ghost use Rattle.wd_resolve_operand.specs.Causes.{Gives};
ghost use Rattle.wd_resolve_call.specs.References.{bound_expression_of};
ghost use Rattle.wd_resolve_call.specs.Windows as windows;
ghost use Rattle.wd_resolve_list.specs.SelectLists.{projected_shown};
ghost use Rattle.wd_resolve_list.specs.SelectLists as listing;
ghost use Rattle.wd_resolve_list.specs.Outputs.{expressions_of, output_of};
ghost use Rattle.wd_resolve_select.specs.Sorting.{shown_of, place_shown, sorted_of, IsCounted, IsNarrow};
ghost use Rattle.wd_resolve_select.specs.Sorting as spec;

use crate::shown::{KeyPlace, Shown, Sorted};
use std::alloc::Global;
use wd_resolve_list::{Output, ProjectedInputs};
use wd_resolve_operand::{BoundExpression, Cause, ResolveError, number};
use wd_resolve_scope::{Place, SelectReference, plain, sort_key, written_number};
use wd_syntax as written;
use wd_syntax::{Literal, Name, SortKey};
use wd_value::{OutOfMemory, SortColumn};

/// Whether an output shows an expression.
fn shows(expression: &BoundExpression<SelectReference>, output: &Output) -> bool
    ensures { result ≡ spec.shows (bound_expression_of expression.now) (output_of output.now) }
{
    expression.same(&output.expression)
}

/// The number of the first output that shows an expression, and the number of outputs where none does.
fn output_number(expression: &BoundExpression<SelectReference>, outputs: &[Output]) -> usize
    ensures number { result ≡ position_or_len (spec.shows (bound_expression_of expression.now)) (map output_of outputs.now) }
    ensures within { result ≤ length outputs.now }
{
    for (number, output) in outputs.iter().enumerate() {
        if shows(expression, output) {
            return number;
        }
    }
    outputs.len()
}

/// The output that shows the expression, the first if there are several, or else the expression.
fn sorted_place(expression: BoundExpression<SelectReference>, outputs: &[Output]) -> KeyPlace
    requires { length outputs.now ≤ 1024 }
    ensures { place_shown result ≡ spec.sorted_place (bound_expression_of expression) (map output_of outputs.now) }
{
    let number = output_number(&expression, outputs);
    if number < outputs.len() {
        KeyPlace::Output(number as u16)
    } else {
        KeyPlace::Hidden(expression)
    }
}

/// The expression of a key over the columns of FROM.
fn expression_place(
    alloc: Global,
    shown: &Shown<'_>,
    tree: &written::Expr,
) -> Result<KeyPlace, ResolveError>
    ensures { Gives place_shown result (spec.expression_place (shown_of shown.now) (view tree.now)) }
{
    let operand = plain(alloc, shown.scope, shown.groups, Place::SortKey, tree)?;
    Ok(sorted_place(operand.settled(), shown.outputs))
}

fn is_named(name: &Name, output: &Output) -> bool
    ensures { result ≡ spec.is_named name.now.text (output_of output.now) }
{
    output.name.as_str() == name.text.as_str()
}

/// Whether all outputs of that name show the expression.
fn names_only(
    name: &Name,
    expression: &BoundExpression<SelectReference>,
    outputs: &[Output],
) -> bool
    ensures { result ≡ list_all (spec.shows (bound_expression_of expression.now)) (filter (spec.is_named name.now.text) (map output_of outputs.now)) }
{
    for output in outputs {
        if is_named(name, output) && !shows(expression, output) {
            return false;
        }
    }
    true
}

/// The number of the first output of a name; 403 where outputs of that name show different expressions.
#[tactic(auto, using(wd_resolve_list::proofs::Among::found_at, wd_resolve_list::proofs::Among::found_none))]
fn first_named(name: &Name, outputs: &[Output]) -> Result<Option<u16>, ResolveError>
    requires { length outputs.now ≤ 1024 }
    ensures { Gives (λ number. number) result (spec.first_named name.now.text (map output_of outputs.now)) }
{
    for (number, output) in outputs.iter().enumerate() {
        if is_named(name, output) {
            return if names_only(name, &output.expression, &outputs[number + 1..]) {
                Ok(Some(number as u16))
            } else {
                Err(ResolveError::Refused(Cause::Ambiguous))
            };
        }
    }
    Ok(None)
}

/// The output of an ordinal, which counts outputs from 1.
fn ordinal(outputs: &[Output], n: u64) -> Result<KeyPlace, ResolveError>
    requires { length outputs.now ≤ 1024 }
    ensures { Gives place_shown result (spec.ordinal (map output_of outputs.now) n) }
{
    if n >= 1 && n <= outputs.len() as u64 {
        Ok(KeyPlace::Output((n - 1) as u16))
    } else {
        Err(ResolveError::Refused(Cause::WrongSortKey))
    }
}

/// The output of a bare number, which is an ordinal; 412 for any other bare literal.
fn literal_place(outputs: &[Output], literal: &Literal) -> Result<KeyPlace, ResolveError>
    requires { length outputs.now ≤ 1024 }
    ensures { Gives place_shown result (spec.literal_place (map output_of outputs.now) literal.now) }
{
    match literal {
        Literal::Number(n) => ordinal(outputs, number(*n)?),
        Literal::Text(_) | Literal::Truth(_) | Literal::Null => Err(ResolveError::Refused(
            Cause::WrongSortKey,
        )),
    }
}

/// The output of a bare name, or else the column of FROM of that name.
fn named_place(
    alloc: Global,
    shown: &Shown<'_>,
    name: &Name,
    tree: &written::Expr,
) -> Result<KeyPlace, ResolveError>
    ensures { Gives place_shown result (spec.named_place (shown_of shown.now) name.now (view tree.now)) }
{
    match first_named(name, shown.outputs)? {
        Some(number) => Ok(KeyPlace::Output(number)),
        None => expression_place(alloc, shown, tree),
    }
}

/// The place of a key that is an expression; 412 for a number with a sign, which is a literal too.
fn signed_place(
    alloc: Global,
    shown: &Shown<'_>,
    tree: &written::Expr,
    number: Option<u64>,
) -> Result<KeyPlace, ResolveError>
    ensures { Gives place_shown result (spec.signed_place number (spec.expression_place (shown_of shown.now) (view tree.now))) }
{
    let place = expression_place(alloc, shown, tree)?;
    match number {
        Some(_) => Err(ResolveError::Refused(Cause::WrongSortKey)),
        None => Ok(place),
    }
}

/// What a final sort key sorts by. Brackets around it don't count.
fn key_place(
    alloc: Global,
    shown: &Shown<'_>,
    tree: &written::Expr,
) -> Result<KeyPlace, ResolveError>
    ensures { Gives place_shown result (spec.key_place (shown_of shown.now) (view tree.now)) }
{
    match tree {
        written::Expr::Bracket(inner) => key_place(alloc, shown, inner),
        written::Expr::Column(name) => named_place(alloc, shown, name, tree),
        written::Expr::Literal(literal) => literal_place(shown.outputs, literal),
        written::Expr::Signed(_, inner) => {
            signed_place(alloc, shown, tree, written_number(inner))
        }
        written::Expr::Qualified(_, _)
        | written::Expr::CallAll(_, _)
        | written::Expr::Call(_, _, _)
        | written::Expr::Case(_, _)
        | written::Expr::Compare(_, _, _)
        | written::Expr::Chain(_, _, _)
        | written::Expr::Tests(_, _, _)
        | written::Expr::Not(_) => expression_place(alloc, shown, tree),
    }
}

/// The keys with one by an output.
fn with_output(
    sorted: Sorted,
    shown: &Shown<'_>,
    column: u16,
    key: wd_value::SortKey,
) -> Result<Sorted, ResolveError>
    requires counted { IsCounted (shown_of shown.now) sorted }
    requires narrow { IsNarrow (shown_of shown.now) (sorted_of sorted) }
    ensures meant { Gives sorted_of result (spec.with_key (shown_of shown.now) (spec.output column) key (sorted_of sorted)) }
    ensures counted { IfOk result (λ s. IsCounted (shown_of shown.now) s) }
    ensures narrow { IfOk result (λ s. IsNarrow (shown_of shown.now) (sorted_of s)) }
{
    let Sorted {
        mut items,
        hidden,
        projected,
    } = sorted;
    items.push(SortColumn { column, key })?;
    Ok(Sorted {
        items,
        hidden,
        projected,
    })
}

/// The keys with a new hidden column and one by it.
#[tactic(auto, using(wd_resolve_list::proofs::Counted::projected_pushed))]
fn with_column(
    alloc: Global,
    sorted: Sorted,
    shown: &Shown<'_>,
    expression: BoundExpression<SelectReference>,
    key: wd_value::SortKey,
) -> Result<Sorted, OutOfMemory>
    requires few { length shown.now.outputs.now + vec_len sorted.hidden ≤ 1024 }
    requires counted { IsCounted (shown_of shown.now) sorted }
    ensures meant { IfOk result (λ s. sorted_of s ≡ spec.with_column (shown_of shown.now) (bound_expression_of expression) key (sorted_of sorted)) }
    ensures counted { IfOk result (λ s. IsCounted (shown_of shown.now) s) }
{
    let Sorted {
        mut items,
        mut hidden,
        projected,
    } = sorted;
    let column = (shown.outputs.len() + hidden.len()) as u16;
    let projected = projected.add(alloc, &expression)?;
    hidden.push(expression)?;
    items.push(SortColumn { column, key })?;
    Ok(Sorted {
        items,
        hidden,
        projected,
    })
}

/// Whether the outputs and the sort keys make some node too wide.
fn are_wide(shown: &Shown<'_>, sorted: &Sorted) -> bool
    requires { IsCounted (shown_of shown.now) sorted.now }
    ensures { result ≡ listing.are_wide (shown_of shown.now).below (expressions_of (shown_of shown.now).outputs) (sorted_of sorted.now).hidden }
{
    sorted
        .projected
        .is_wide(shown.outputs.len() + sorted.hidden.len(), shown.below)
}

/// The keys with one by a new hidden column; 414 with DISTINCT, and 415 where a node becomes too wide.
#[tactic(auto, using(crate::proofs::Counted::few_shown))]
fn add_hidden_key(
    alloc: Global,
    sorted: Sorted,
    shown: &Shown<'_>,
    expression: BoundExpression<SelectReference>,
    key: wd_value::SortKey,
) -> Result<Sorted, ResolveError>
    requires counted { IsCounted (shown_of shown.now) sorted }
    requires narrow { IsNarrow (shown_of shown.now) (sorted_of sorted) }
    ensures meant { Gives sorted_of result (spec.with_key (shown_of shown.now) (spec.hidden (bound_expression_of expression)) key (sorted_of sorted)) }
    ensures counted { IfOk result (λ s. IsCounted (shown_of shown.now) s) }
    ensures narrow { IfOk result (λ s. IsNarrow (shown_of shown.now) (sorted_of s)) }
{
    if shown.distinct {
        return Err(ResolveError::Refused(Cause::ForeignSortKey));
    }
    let next = with_column(alloc, sorted, shown, expression, key)?;
    if are_wide(shown, &next) {
        Err(ResolveError::Refused(Cause::TooMany))
    } else {
        Ok(next)
    }
}

/// A further key.
fn add_sort_key(
    alloc: Global,
    sorted: Sorted,
    shown: &Shown<'_>,
    key: &SortKey,
) -> Result<Sorted, ResolveError>
    requires counted { IsCounted (shown_of shown.now) sorted }
    requires narrow { IsNarrow (shown_of shown.now) (sorted_of sorted) }
    ensures meant { Gives sorted_of result (spec.key_sorted (shown_of shown.now) (view key.now.expr) (windows.sort_key key.now.direction key.now.nulls) (sorted_of sorted)) }
    ensures counted { IfOk result (λ s. IsCounted (shown_of shown.now) s) }
    ensures narrow { IfOk result (λ s. IsNarrow (shown_of shown.now) (sorted_of s)) }
{
    let place = key_place(alloc, shown, &key.expr)?;
    let direction = sort_key(key.direction, key.nulls);
    match place {
        KeyPlace::Output(column) => with_output(sorted, shown, column, direction),
        KeyPlace::Hidden(expression) => add_hidden_key(alloc, sorted, shown, expression, direction),
    }
}

/// The sort keys of a select whose outputs and HAVING need this.
pub fn resolve_sort_keys(
    alloc: Global,
    shown: &Shown<'_>,
    keys: &[SortKey],
    projected: ProjectedInputs,
) -> Result<Sorted, ResolveError>
    requires counted { projected_shown projected ≡ listing.all_projected (shown_of shown.now).below (expressions_of (shown_of shown.now).outputs) [] }
    requires narrow { listing.are_wide (shown_of shown.now).below (expressions_of (shown_of shown.now).outputs) [] ≡ false }
    ensures meant { Gives sorted_of result (spec.keys_sorted (shown_of shown.now) (keys_of (map view_key keys.now)) spec.unsorted) }
    ensures counted { IfOk result (λ s. IsCounted (shown_of shown.now) s) }
    ensures narrow { IfOk result (λ s. IsNarrow (shown_of shown.now) (sorted_of s)) }
{
    let mut sorted = Sorted {
        items: Vec::new(alloc),
        hidden: Vec::new(alloc),
        projected,
    };
    for key in keys {
        sorted = add_sort_key(alloc, sorted, shown, key)?;
    }
    Ok(sorted)
}
