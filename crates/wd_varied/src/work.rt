//! The cost of an evaluation of a plan.
//!
//! Each function takes what was counted before and returns it with its own part added, up to a bound: so no sum overflows, and a chain of
//! operators is counted along its left side by a loop.

ghost use Rattle.std.specs.Prelude.{◌≡◌, ◌+◌, ◌*◌, ◌^◌, ◌≤◌, length, map, min, option_map};
ghost use Rattle.wd_plan.specs.Expressions.{expression_of};
ghost use Rattle.wd_plan.specs.Plans.{class_of, plan_of, sets_of};
ghost use Rattle.wd_varied.specs.Work as spec;

use wd_plan::{Class, Expr, Group, Plan, Window};

/// The largest number that is counted.
const MOST_COUNTED: u64 = 268_435_456;

/// The work of an evaluation of a plan for each row of the pairs of its tables, in units of about five nanoseconds. 2^28 where it is
/// more.
pub fn row_work(plan: &Plan) -> u64
    ensures { result ≡ min (spec.row_work (plan_of plan.now)) (2 ^ 28) }
{
    with_plan(0, plan)
}

/// What was counted before and a part, up to the bound.
fn more(before: u64, part: u64) -> u64
    requires counted { before ≤ 2 ^ 28 }
    requires small { part ≤ 2 ^ 62 }
    ensures { result ≡ min (before + part) (2 ^ 28) }
{
    (before + part).min(MOST_COUNTED)
}

fn with_plan(before: u64, plan: &Plan) -> u64
    requires { before ≤ 2 ^ 28 }
    ensures { result ≡ min (before + spec.row_work (plan_of plan.now)) (2 ^ 28) }
{
    match plan {
        Plan::Scan { columns, .. } => more(before, 12 * u64::from(*columns)),
        Plan::Join {
            left,
            right,
            condition,
        } => with_condition(with_plan(with_plan(before, left), right), condition),
        Plan::Filter { input, condition } => with_expression(with_plan(before, input), condition),
        Plan::Map { input, outputs } => with_expressions(with_plan(before, input), outputs),
        Plan::Group { input, group } => with_group(with_plan(before, input), group),
        Plan::Window { input, window } => with_window(with_plan(before, input), window),
        Plan::Distinct { input } => with_columns(with_plan(before, input), 0),
        Plan::Limit { input, limit } => with_columns(with_plan(before, input), limit.keys.len()),
    }
}

fn with_condition(before: u64, condition: &Option<Expr>) -> u64
    requires { before ≤ 2 ^ 28 }
    ensures { result ≡ min (before + spec.condition_work (option_map expression_of condition.now)) (2 ^ 28) }
{
    match condition {
        Some(condition) => with_expression(before, condition),
        None => before,
    }
}

fn with_expressions(before: u64, expressions: &[Expr]) -> u64
    requires { before ≤ 2 ^ 28 }
    ensures { result ≡ min (before + spec.expressions_work (map expression_of expressions.now)) (2 ^ 28) }
{
    let mut counted = before;
    for expression in expressions {
        counted = with_expression(counted, expression);
    }
    counted
}

/// The work with that of an expression. The left operand comes last, so that the compiler makes a loop of that call.
fn with_expression(before: u64, expression: &Expr) -> u64
    requires { before ≤ 2 ^ 28 }
    ensures { result ≡ min (before + spec.expression_work (expression_of expression.now)) (2 ^ 28) }
{
    match expression {
        Expr::Column(_) | Expr::Literal(..) => more(before, 3),
        Expr::Negate(a) | Expr::Not(a) | Expr::IsNull(a) | Expr::IsNotNull(a) => {
            with_expression(before, a)
        }
        Expr::Arithmetic(_, a, b) | Expr::Compare(_, a, b) | Expr::And(a, b) | Expr::Or(a, b) => {
            with_expression(with_expression(before, b), a)
        }
        Expr::Case(_, condition, then, otherwise) => with_expression(
            with_expression(with_expression(before, condition), then),
            otherwise,
        ),
    }
}

fn with_group(before: u64, group: &Group) -> u64
    requires { before ≤ 2 ^ 28 }
    ensures { result ≡ min ((before + spec.sets_work (sets_of group.now.sets.items)) + 5 * length group.now.calls.items) (2 ^ 28) }
{
    let mut counted = before;
    for set in &group.sets {
        counted = with_columns(counted, set.len());
    }
    with_calls(counted, group.calls.len())
}

fn with_window(before: u64, window: &Window) -> u64
    requires { before ≤ 2 ^ 28 }
    ensures { result ≡ min ((before + spec.classes_work (map class_of window.now.classes.items)) + 5 * length window.now.calls.items) (2 ^ 28) }
{
    let mut counted = before;
    for class in &window.classes {
        counted = with_class(counted, class);
    }
    with_calls(counted, window.calls.len())
}

fn with_class(before: u64, class: &Class) -> u64
    requires { before ≤ 2 ^ 28 }
    ensures { result ≡ min (before + spec.columns_work (length class.now.partition.items + length class.now.order.items)) (2 ^ 28) }
{
    with_columns(before, class.partition.len() + class.order.len())
}

/// The work with that of sorting or partitioning rows by the given number of columns.
fn with_columns(before: u64, columns: usize) -> u64
    requires { before ≤ 2 ^ 28 }
    ensures { result ≡ min (before + spec.columns_work columns) (2 ^ 28) }
{
    more(more(before, 20), 4 * (columns as u64).min(MOST_COUNTED))
}

fn with_calls(before: u64, calls: usize) -> u64
    requires { before ≤ 2 ^ 28 }
    ensures { result ≡ min (before + 5 * calls) (2 ^ 28) }
{
    more(before, 5 * (calls as u64).min(MOST_COUNTED))
}
