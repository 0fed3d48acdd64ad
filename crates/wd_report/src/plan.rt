//! What is printed of a plan.

ghost use Rattle.std.specs.Prelude.{◌≡◌, ◌≤◌, ◌+◌, ◌++◌, true, length, slice_get, IfOk};
ghost use Rattle.std.specs.String.{string_bytes};
ghost use Rattle.wd_plan.specs.Fits.{fits, width};
ghost use Rattle.wd_plan.specs.Plans.{node_count, plan_of};
ghost use Rattle.wd_schema.specs.Schemas.{schema_of};
ghost use Rattle.wd_report.specs.Plans as spec;

use crate::rules::Rules;
use crate::verdict::{Output, verdict_status, verdict_word};
use crate::words::{function_word, rule_word};
use std::alloc::Global;
use std::fmt::Write;
use wd_decide::Examined;
use wd_plan::{Call, Plan};
use wd_schema::Schema;
use wd_value::OutOfMemory;

/// The nodes of the plan in postorder, each with its number, its kind and its number of columns, a Scan with its table, a Limit with its
/// rule, a Window with a line for each call and its rule; then the verdict's word. A call or limit without a rule is open. The status is
/// that of the verdict.
pub fn explain(alloc: Global, examined: Examined) -> Result<Output, OutOfMemory>
    requires { fits (schema_of examined.planned.schema) (plan_of examined.planned.resolved.plan) ≡ true }
    ensures { IfOk result (λ r. spec.Explains examined r.text.items r.status) }
{
    let mut text = plan_text(alloc, &examined)?;
    let verdict = examined.verdict(alloc)?;
    writeln!(text, "{}", verdict_word(&verdict))?;
    Ok(Output {
        text: text.into_bytes(),
        status: verdict_status(&verdict),
    })
}

/// The lines of a plan's nodes.
fn plan_text(alloc: Global, examined: &Examined) -> Result<String, OutOfMemory>
    requires { fits (schema_of examined.now.planned.schema) (plan_of examined.now.planned.resolved.plan) ≡ true }
    ensures { IfOk result (λ t. string_bytes t ≡ spec.plan_lines (schema_of examined.now.planned.schema) examined.now.analysis 0 (plan_of examined.now.planned.resolved.plan)) }
{
    let planned = &examined.planned;
    let rules = Rules::new(alloc, &examined.analysis)?;
    let mut text = String::new(alloc);
    add_plan(
        &mut text,
        &planned.schema,
        &rules,
        0,
        &planned.resolved.plan,
    )?;
    Ok(text)
}

/// Adds the lines of a plan's nodes, which are numbered from `first` on; the result is the number after them. There is a line for each
/// number, so no number exceeds the length of the text.
fn add_plan(
    text: &mut String,
    schema: &Schema,
    rules: &Rules<'_>,
    first: u64,
    plan: &Plan,
) -> Result<u64, OutOfMemory>
    requires fits { fits (schema_of schema.now) (plan_of plan.now) ≡ true }
    requires room { first ≤ length (string_bytes text.old) }
    ensures next { IfOk result (λ next. next ≡ first + node_count (plan_of plan.now)) }
    ensures room { IfOk result (λ next. next ≤ length (string_bytes text.new)) }
    ensures lines { IfOk result (λ _. string_bytes text.new ≡ string_bytes text.old ++ spec.plan_lines (schema_of schema.now) rules.now.analysis.now first (plan_of plan.now)) }
{
    match plan {
        Plan::Scan { .. } => add_node(text, schema, rules, first, plan),
        Plan::Join { left, right, .. } => {
            let middle = add_plan(text, schema, rules, first, left)?;
            let node = add_plan(text, schema, rules, middle, right)?;
            add_node(text, schema, rules, node, plan)
        }
        Plan::Filter { input, .. }
        | Plan::Map { input, .. }
        | Plan::Group { input, .. }
        | Plan::Window { input, .. }
        | Plan::Distinct { input }
        | Plan::Limit { input, .. } => {
            let node = add_plan(text, schema, rules, first, input)?;
            add_node(text, schema, rules, node, plan)
        }
    }
}

/// Adds the lines of a plan's top node, which has this number; the result is the next number.
fn add_node(
    text: &mut String,
    schema: &Schema,
    rules: &Rules<'_>,
    node: u64,
    plan: &Plan,
) -> Result<u64, OutOfMemory>
    requires fits { fits (schema_of schema.now) (plan_of plan.now) ≡ true }
    requires room { node ≤ length (string_bytes text.old) }
    ensures next { IfOk result (λ next. next ≡ node + 1) }
    ensures room { IfOk result (λ next. next ≤ length (string_bytes text.new)) }
    ensures lines { IfOk result (λ _. string_bytes text.new ≡ string_bytes text.old ++ spec.top_lines (schema_of schema.now) rules.now.analysis.now node (plan_of plan.now)) }
{
    add_lines(text, schema, rules, node, plan)?;
    Ok(node + 1)
}

/// Adds the lines of a plan's top node, which has this number.
#[tactic(auto, using(wd_plan::proofs::Ranges::narrow))]
fn add_lines(
    text: &mut String,
    schema: &Schema,
    rules: &Rules<'_>,
    node: u64,
    plan: &Plan,
) -> Result<(), OutOfMemory>
    requires { fits (schema_of schema.now) (plan_of plan.now) ≡ true }
    ensures { IfOk result (λ _. string_bytes text.new ≡ string_bytes text.old ++ spec.top_lines (schema_of schema.now) rules.now.analysis.now node (plan_of plan.now)) }
{
    let columns = columns(plan);
    match plan {
        Plan::Scan { table, .. } => {
            let name = table_name(schema, *table);
            Ok(writeln!(text, "{node} Scan {name} {columns}")?)
        }
        Plan::Join { .. } => Ok(writeln!(text, "{node} Join {columns}")?),
        Plan::Filter { .. } => Ok(writeln!(text, "{node} Filter {columns}")?),
        Plan::Map { .. } => Ok(writeln!(text, "{node} Map {columns}")?),
        Plan::Group { .. } => Ok(writeln!(text, "{node} Group {columns}")?),
        Plan::Window { window, .. } => {
            writeln!(text, "{node} Window {columns}")?;
            add_calls(text, rules, node, &window.calls)
        }
        Plan::Distinct { .. } => Ok(writeln!(text, "{node} Distinct {columns}")?),
        Plan::Limit { limit, .. } => {
            let rule = rule_word(rules.of_limit(node, limit));
            Ok(writeln!(text, "{node} Limit {columns} {rule}")?)
        }
    }
}

/// How many columns a plan has.
fn columns(plan: &Plan) -> u32
    requires { width (plan_of plan.now) ≤ 1024 }
    ensures { result ≡ width (plan_of plan.now) }
{
    plan.width()
}

/// The name of the schema's table with this number.
fn table_name<'a>(schema: &'a Schema, table: u16) -> &'a str
    ensures { result.now ≡ spec.table_name (slice_get (schema_of schema.now) table) }
{
    match schema.tables.get_index(usize::from(table)) {
        Some((_, table)) => table.name.as_str(),
        None => "",
    }
}

/// Adds a line for each call of a node.
fn add_calls(
    text: &mut String,
    rules: &Rules<'_>,
    node: u64,
    calls: &[Call],
) -> Result<(), OutOfMemory>
    requires { length calls.now ≤ 1024 }
    ensures { IfOk result (λ _. string_bytes text.new ≡ string_bytes text.old ++ spec.call_lines rules.now.analysis.now node 0 calls.now) }
{
    for (number, call) in calls.iter().enumerate() {
        add_call(text, rules, node, number as u32, call)?;
    }
    Ok(())
}

/// Adds the line of a node's call, which has this number.
fn add_call(
    text: &mut String,
    rules: &Rules<'_>,
    node: u64,
    number: u32,
    call: &Call,
) -> Result<(), OutOfMemory>
    ensures { IfOk result (λ _. string_bytes text.new ≡ string_bytes text.old ++ spec.call_line rules.now.analysis.now node number call.now) }
{
    let function = function_word(call.function.name());
    let class = call.class;
    let rule = rule_word(rules.of_call(node, number));
    Ok(writeln!(text, "  call {number} {function} class {class} {rule}")?)
}
