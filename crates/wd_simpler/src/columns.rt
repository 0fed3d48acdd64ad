//! Sets of columns that are read.

ghost use Rattle.std.specs.Prelude.{◌≡◌, [], ◌∷◌, flat_map, option_to_list, IfOk, map};
ghost use Rattle.wd_plan.specs.Expressions.{expression_of};
ghost use Rattle.wd_plan.specs.Functions.{argument_of};
ghost use Rattle.wd_plan.specs.Plans.{class_of, group_call_of};
ghost use Rattle.wd_plan.specs.Sorting.{class_columns};
ghost use Rattle.wd_plan.specs.declared.window.Call.{Call as ACall};
ghost use Rattle.wd_simpler.specs.Sets.{HasAlso};
ghost use Rattle.wd_simpler.specs.Simpler.{group_argument};
ghost use Rattle.wd_step_facts.specs.Steps.{used};
ghost use Rattle.wd_value.specs.Bags.{positions};
ghost use Rattle.wd_value.specs.Keys.{key_columns};

use wd_facts::Member;
use wd_plan::{Aggregate, Call, Class, Expr, GroupCall};
use wd_sets::Set;
use wd_value::{OutOfMemory, SortColumn};

/// Adds a column to a set.
fn add_column(set: &mut Set, column: u16) -> Result<(), OutOfMemory>
    ensures { IfOk result (λ _. HasAlso set.old (column ∷ []) set.new) }
{
    set.insert(Member::Column(column))?;
    Ok(())
}

/// Adds these columns to a set.
fn add_columns(set: &mut Set, columns: &[u16]) -> Result<(), OutOfMemory>
    ensures { IfOk result (λ _. HasAlso set.old columns.now set.new) }
{
    for column in columns {
        add_column(set, *column)?;
    }
    Ok(())
}

/// Adds the columns of sort keys to a set.
pub(crate) fn add_keys(set: &mut Set, keys: &[SortColumn]) -> Result<(), OutOfMemory>
    ensures { IfOk result (λ _. HasAlso set.old (key_columns keys.now) set.new) }
{
    for key in keys {
        add_column(set, key.column)?;
    }
    Ok(())
}

/// Adds the columns of classes to a set.
pub(crate) fn add_classes(set: &mut Set, classes: &[Class]) -> Result<(), OutOfMemory>
    ensures { IfOk result (λ _. HasAlso set.old (flat_map class_columns (map class_of classes.now)) set.new) }
{
    for class in classes {
        add_columns(set, &class.partition)?;
        add_keys(set, &class.order)?;
    }
    Ok(())
}

/// Adds the arguments of calls to a set.
pub(crate) fn add_arguments(set: &mut Set, calls: &[Call]) -> Result<(), OutOfMemory>
    ensures { IfOk result (λ _. HasAlso set.old (flat_map (λ (call : ACall). option_to_list (argument_of call.function)) calls.now) set.new) }
{
    for call in calls {
        if let Some(column) = call.function.argument() {
            add_column(set, column)?;
        }
    }
    Ok(())
}

/// Adds the first `count` columns to a set.
pub(crate) fn add_first(set: &mut Set, count: u16) -> Result<(), OutOfMemory>
    ensures { IfOk result (λ _. HasAlso set.old (positions count) set.new) }
{
    for column in 0..count {
        add_column(set, column)?;
    }
    Ok(())
}

/// Adds the argument of a Group's call to a set.
fn add_group_argument(set: &mut Set, call: &GroupCall) -> Result<(), OutOfMemory>
    ensures { IfOk result (λ _. HasAlso set.old (option_to_list (group_argument (group_call_of call.now))) set.new) }
{
    match call {
        GroupCall::OfRows(Aggregate::CountRows) | GroupCall::Grouping(_) => Ok(()),
        GroupCall::OfRows(
            Aggregate::Count(column)
            | Aggregate::Sum(column)
            | Aggregate::Min(column)
            | Aggregate::Max(column),
        ) => add_column(set, *column),
    }
}

/// Adds the arguments of a Group's calls to a set.
pub(crate) fn add_group_arguments(set: &mut Set, calls: &[GroupCall]) -> Result<(), OutOfMemory>
    ensures { IfOk result (λ _. HasAlso set.old (flat_map (λ call. option_to_list (group_argument call)) (map group_call_of calls.now)) set.new) }
{
    for call in calls {
        add_group_argument(set, call)?;
    }
    Ok(())
}

/// Adds the columns that an expression uses to a set. The left operand comes last, so that the compiler makes a loop of that call.
pub(crate) fn add_used(set: &mut Set, expression: &Expr) -> Result<(), OutOfMemory>
    ensures { IfOk result (λ _. HasAlso set.old (used (expression_of expression.now)) set.new) }
{
    match expression {
        Expr::Column(column) => add_column(set, *column),
        Expr::Literal(_, _) => Ok(()),
        Expr::Negate(a) => add_used(set, a),
        Expr::Arithmetic(_, a, b) => {
            add_used(set, b)?;
            add_used(set, a)
        }
        Expr::Compare(_, a, b) => {
            add_used(set, b)?;
            add_used(set, a)
        }
        Expr::Not(a) => add_used(set, a),
        Expr::And(a, b) => {
            add_used(set, b)?;
            add_used(set, a)
        }
        Expr::Or(a, b) => {
            add_used(set, b)?;
            add_used(set, a)
        }
        Expr::IsNull(a) => add_used(set, a),
        Expr::IsNotNull(a) => add_used(set, a),
        Expr::Case(_, a, b, c) => {
            add_used(set, c)?;
            add_used(set, b)?;
            add_used(set, a)
        }
    }
}

/// Adds the columns that expressions use to a set.
pub(crate) fn add_all_used(set: &mut Set, expressions: &[Expr]) -> Result<(), OutOfMemory>
    ensures { IfOk result (λ _. HasAlso set.old (flat_map used (map expression_of expressions.now)) set.new) }
{
    for expression in expressions {
        add_used(set, expression)?;
    }
    Ok(())
}
