//! The entry of a node in a certificate.

ghost use Rattle.std.specs.Prelude.{◌≡◌, ◌++◌, ◌<◌, ◌≤◌, true, [], ◌∷◌, length, map, nat_lt, None, Some, IfOk};
ghost use Rattle.std.specs.List.{list_all};
ghost use Rattle.wd_certificate.specs.Certificates.{node_of};
ghost use Rattle.wd_plan.specs.Fits as fitting;
ghost use Rattle.wd_plan.specs.Plans.{class_of, limit_of, plan_of, window_of};
ghost use Rattle.wd_plan.specs.Plans as plans;
ghost use Rattle.wd_plan.specs.Sorting as sorting;
ghost use Rattle.wd_rules.specs.Rules as rules;
ghost use Rattle.wd_schema.specs.Schemas.{schema_of};
ghost use Rattle.wd_value.specs.Keys.{key_columns as columns_of_keys};
ghost use Rattle.wd_analyse.specs.Entry.{entry_by};
ghost use Rattle.wd_analyse.specs.Evidence.{IsClosing, closing_of};
ghost use Rattle.wd_analyse.specs.Findings as spec;
ghost use Rattle.wd_analyse.specs.Sources.{AreClosings, starts};
ghost use Rattle.wd_analyse.specs.Steps.{Admits, Says, is_without_rules, told_of};

use crate::analysis::{Mark, Reason, RuleName};
use crate::closed::{Closed, add_traces, close};
use crate::decided::{Decided, Lack, decide_calls, missing, rules_of};
use crate::kept::keep;
use crate::sources::width;
use std::alloc::Global;
use wd_certificate::{Node, Rule};
use wd_close::Prepared;
use wd_plan::{Class, Limit, Plan, Window};
use wd_schema::Schema;
use wd_value::{OutOfMemory, SortColumn};

/// What is known at a node: its number, its given facts, and the claims that it keeps.
#[derive(Drop)]
pub(crate) struct Here<'a> {
    pub(crate) node: u64,
    pub(crate) facts: Prepared<'a>,
    pub(crate) claims: Vec<Closed>,
}

/// What is said of a plan's calls and limits, in postorder.
#[derive(Drop)]
pub(crate) struct Findings {
    pub(crate) reasons: Vec<Reason>,
    pub(crate) marks: Vec<Mark>,
}

/// The columns of a class.
fn class_columns(alloc: Global, class: &Class) -> Result<Vec<u16>, OutOfMemory>
    ensures { IfOk result (λ v. v.items ≡ sorting.class_columns (class_of class.now)) }
{
    let mut columns = Vec::from_slice(alloc, &class.partition)?;
    for item in &class.order {
        columns.push(item.column)?;
    }
    Ok(columns)
}

/// The columns of sort keys.
pub(crate) fn key_columns(alloc: Global, keys: &[SortColumn]) -> Result<Vec<u16>, OutOfMemory>
    ensures { IfOk result (λ v. v.items ≡ columns_of_keys keys.now) }
{
    let mut columns = Vec::with_capacity(alloc, keys.len())?;
    for item in keys {
        columns.push(item.column)?;
    }
    Ok(columns)
}

/// What the columns of a class determine.
fn close_class(
    alloc: Global,
    facts: &Prepared<'_>,
    width: u16,
    class: &Class,
) -> Result<Closed, OutOfMemory>
    requires admits { Admits facts.now width }
    requires within { list_all (λ c. nat_lt c facts.now.columns) (sorting.class_columns (class_of class.now)) ≡ true }
    ensures from { IfOk result (λ c. c.from.items ≡ sorting.class_columns (class_of class.now)) }
    ensures closing { IfOk result (λ c. IsClosing facts.now (closing_of c)) }
{
    let columns = class_columns(alloc, class)?;
    close(alloc, facts, &columns)
}

/// What the columns of each class determine.
#[tactic(auto, using(crate::proofs::Claims::closings_more))]
fn close_classes(
    alloc: Global,
    facts: &Prepared<'_>,
    width: u16,
    classes: &[Class],
) -> Result<Vec<Closed>, OutOfMemory>
    requires admits { Admits facts.now width }
    requires within { list_all (λ class. list_all (λ c. nat_lt c facts.now.columns) (sorting.class_columns class)) (map class_of classes.now) ≡ true }
    ensures closings { IfOk result (λ v. AreClosings facts.now (map closing_of v.items)) }
    ensures starts { IfOk result (λ v. starts (map closing_of v.items) ≡ map sorting.class_columns (map class_of classes.now)) }
{
    let mut list = Vec::with_capacity(alloc, classes.len())?;
    for class in classes {
        let closed = close_class(alloc, facts, width, class)?;
        list.push(closed)?;
    }
    Ok(list)
}

/// Says what is decided of a call.
fn say_call(
    decided: Decided,
    node: u64,
    call: u32,
    findings: &mut Findings,
) -> Result<(), OutOfMemory>
    ensures reasons { IfOk result (λ _. findings.new.reasons.items ≡ findings.old.reasons.items ++ spec.reason_of node call decided) }
    ensures marks { IfOk result (λ _. findings.new.marks.items ≡ findings.old.marks.items ++ spec.mark_of node call decided) }
{
    let call = Some(call);
    match decided {
        Decided::By(rule) => {
            let rule = RuleName::of(rule);
            findings.marks.push(Mark { node, call, rule })?;
        }
        Decided::Open(lack) => findings.reasons.push(Reason { node, call, lack })?,
    }
    Ok(())
}

/// Says what is decided of the calls of a Window.
#[tactic(auto, using(crate::proofs::Said::reasons_next, crate::proofs::Said::marks_next))]
fn say_calls(decided: &[Decided], node: u64, findings: &mut Findings) -> Result<(), OutOfMemory>
    requires { length decided.now < 65536 }
    ensures reasons { IfOk result (λ _. findings.new.reasons.items ≡ findings.old.reasons.items ++ spec.reasons_of node 0 decided.now) }
    ensures marks { IfOk result (λ _. findings.new.marks.items ≡ findings.old.marks.items ++ spec.marks_of node 0 decided.now) }
{
    let mut call = 0u32;
    for one in decided {
        say_call(*one, node, call, findings)?;
        call += 1;
    }
    Ok(())
}

/// The entry of a node with `width` columns.
#[tactic(auto, using(crate::proofs::Entries::traces_joined))]
fn make_entry(
    alloc: Global,
    claims: &[Closed],
    others: &[Closed],
    width: u16,
    calls: Vec<Rule>,
    limit: Option<u64>,
) -> Result<Node, OutOfMemory>
    ensures { IfOk result (λ n. node_of n ≡ entry_by width (map closing_of claims.now) (map closing_of others.now) calls.items limit) }
{
    let keep = keep(alloc, claims, width)?;
    let mut traces = Vec::new(alloc);
    add_traces(alloc, claims, &mut traces)?;
    add_traces(alloc, others, &mut traces)?;
    Ok(Node {
        calls,
        keep,
        limit,
        traces,
    })
}

/// The entry of a node whose calls and limit, if it has any, no trace shows.
fn bare_entry(alloc: Global, here: &Here<'_>, width: u16) -> Result<Node, OutOfMemory>
    ensures { IfOk result (λ n. node_of n ≡ entry_by width (map closing_of here.now.claims.items) [] [] None) }
{
    make_entry(alloc, &here.claims, &[], width, Vec::new(alloc), None)
}

/// The entry of a Window, and what is said of its calls.
#[tactic(auto, using(wd_plan::proofs::Ranges::narrow))]
fn window_entry(
    alloc: Global,
    here: &Here<'_>,
    plan: &Plan,
    input: &Plan,
    schema: &Schema,
    window: &Window,
    findings: &mut Findings,
) -> Result<Node, OutOfMemory>
    requires is { plan_of plan.now ≡ plans.Over (plans.Window (window_of window.now)) (plan_of input.now) }
    requires fits { fitting.fits (schema_of schema.now) (plan_of plan.now) ≡ true }
    requires admits { Admits here.now.facts (fitting.width (plan_of plan.now)) }
    requires few { length here.now.claims.items ≤ 64 }
    ensures { IfOk result (λ n. Says here.now.facts (plan_of plan.now) here.now.node (map closing_of here.now.claims.items) (node_of n) (told_of findings.old) (told_of findings.new)) }
{
    let classes = close_classes(alloc, &here.facts, width(plan), &window.classes)?;
    let first = here.claims.len() as u64;
    let decided = decide_calls(alloc, &classes, first, width(input), window)?;
    say_calls(&decided, here.node, findings)?;
    let rules = rules_of(alloc, &decided)?;
    make_entry(alloc, &here.claims, &classes, width(plan), rules, None)
}

/// Whether a limit keeps all rows, or all that tie from the first on.
fn is_whole_or_ties(limit: &Limit) -> bool
    ensures { result ≡ rules.is_whole_or_ties (limit_of limit.now) }
{
    limit.offset == 0 && (limit.count.is_none() || limit.ties)
}

/// Which of these rules a limit has: `whole` without a count, else `ties`.
fn whole_or_ties(limit: &Limit) -> RuleName
    ensures { result ≡ spec.whole_or_ties (limit_of limit.now) }
{
    if limit.count.is_none() {
        RuleName::Whole
    } else {
        RuleName::Ties
    }
}

/// Says which rule a limit has.
fn say_limit(node: u64, rule: RuleName, findings: &mut Findings) -> Result<(), OutOfMemory>
    ensures reasons { IfOk result (λ _. findings.new.reasons.items ≡ findings.old.reasons.items) }
    ensures marks { IfOk result (λ _. findings.new.marks.items ≡ findings.old.marks.items ++ spec.limit_mark node rule ∷ []) }
{
    let call = None;
    findings.marks.push(Mark { node, call, rule })?;
    Ok(())
}

/// The entry of a Limit with `columns` columns whose sort keys determine each of them.
#[tactic(auto, using(crate::proofs::Says::number))]
fn shown_entry(
    alloc: Global,
    here: &Here<'_>,
    columns: u16,
    keys: Closed,
) -> Result<Node, OutOfMemory>
    requires { length here.now.claims.items ≤ 64 }
    ensures { IfOk result (λ n. node_of n ≡ entry_by columns (map closing_of here.now.claims.items) (closing_of keys ∷ []) [] (Some (length (map closing_of here.now.claims.items)))) }
{
    let number = here.claims.len() as u64;
    let mut others = Vec::new(alloc);
    others.push(keys)?;
    let calls = Vec::new(alloc);
    make_entry(alloc, &here.claims, &others, columns, calls, Some(number))
}

/// Says that a limit lacks a column.
fn say_lack(node: u64, column: u16, findings: &mut Findings) -> Result<(), OutOfMemory>
    ensures reasons { IfOk result (λ _. findings.new.reasons.items ≡ findings.old.reasons.items ++ spec.limit_reason node column ∷ []) }
    ensures marks { IfOk result (λ _. findings.new.marks.items ≡ findings.old.marks.items) }
{
    let call = None;
    let lack = Lack::Column(column);
    findings.reasons.push(Reason { node, call, lack })?;
    Ok(())
}

/// Says which rule a limit has whose sort keys lack a column, or that it has none.
fn say_without_keys(
    node: u64,
    limit: &Limit,
    column: u16,
    findings: &mut Findings,
) -> Result<(), OutOfMemory>
    ensures reasons { IfOk result (λ _. findings.new.reasons.items ≡ findings.old.reasons.items ++ spec.reasons_by_keys node (limit_of limit.now) (Some column)) }
    ensures marks { IfOk result (λ _. findings.new.marks.items ≡ findings.old.marks.items ++ spec.marks_by_keys node (limit_of limit.now) (Some column)) }
{
    if is_whole_or_ties(limit) {
        say_limit(node, whole_or_ties(limit), findings)
    } else {
        say_lack(node, column, findings)
    }
}

/// The entry of a Limit with `columns` columns whose sort keys determine these, and what is said of it.
#[tactic(auto, using(crate::proofs::Says::number))]
fn keys_entry(
    alloc: Global,
    here: &Here<'_>,
    columns: u16,
    limit: &Limit,
    keys: Closed,
    findings: &mut Findings,
) -> Result<Node, OutOfMemory>
    requires { length here.now.claims.items ≤ 64 }
    ensures entry { IfOk result (λ n. node_of n ≡ spec.entry_by_keys columns (map closing_of here.now.claims.items) (closing_of keys) (spec.lacking columns (closing_of keys))) }
    ensures reasons { IfOk result (λ _. findings.new.reasons.items ≡ findings.old.reasons.items ++ spec.reasons_by_keys here.now.node (limit_of limit.now) (spec.lacking columns (closing_of keys))) }
    ensures marks { IfOk result (λ _. findings.new.marks.items ≡ findings.old.marks.items ++ spec.marks_by_keys here.now.node (limit_of limit.now) (spec.lacking columns (closing_of keys))) }
{
    match missing(&keys, columns) {
        None => {
            say_limit(here.node, RuleName::Keys, findings)?;
            shown_entry(alloc, here, columns, keys)
        }
        Some(column) => {
            say_without_keys(here.node, limit, column, findings)?;
            bare_entry(alloc, here, columns)
        }
    }
}

/// The entry of a Limit, and what is said of it: it goes by `keys` where its sort keys determine every column.
#[tactic(auto, using(wd_plan::proofs::Ranges::narrow))]
fn limit_entry(
    alloc: Global,
    here: &Here<'_>,
    plan: &Plan,
    input: &Plan,
    schema: &Schema,
    limit: &Limit,
    findings: &mut Findings,
) -> Result<Node, OutOfMemory>
    requires is { plan_of plan.now ≡ plans.Over (plans.Limit (limit_of limit.now)) (plan_of input.now) }
    requires fits { fitting.fits (schema_of schema.now) (plan_of plan.now) ≡ true }
    requires admits { Admits here.now.facts (fitting.width (plan_of plan.now)) }
    requires few { length here.now.claims.items ≤ 64 }
    ensures { IfOk result (λ n. Says here.now.facts (plan_of plan.now) here.now.node (map closing_of here.now.claims.items) (node_of n) (told_of findings.old) (told_of findings.new)) }
{
    let columns = key_columns(alloc, &limit.keys)?;
    let closed = close(alloc, &here.facts, &columns)?;
    keys_entry(alloc, here, width(input), limit, closed, findings)
}

/// The entry of a node that has neither calls nor a limit.
#[tactic(auto, using(wd_plan::proofs::Ranges::narrow))]
fn plain_entry(
    alloc: Global,
    here: &Here<'_>,
    plan: &Plan,
    schema: &Schema,
    findings: &mut Findings,
) -> Result<Node, OutOfMemory>
    requires is { is_without_rules (plan_of plan.now) ≡ true }
    requires fits { fitting.fits (schema_of schema.now) (plan_of plan.now) ≡ true }
    ensures { IfOk result (λ n. Says here.now.facts (plan_of plan.now) here.now.node (map closing_of here.now.claims.items) (node_of n) (told_of findings.old) (told_of findings.new)) }
{
    bare_entry(alloc, here, width(plan))
}

/// The entry of a plan's top node, and what is said of it.
pub(crate) fn found_entry(
    alloc: Global,
    here: &Here<'_>,
    plan: &Plan,
    schema: &Schema,
    findings: &mut Findings,
) -> Result<Node, OutOfMemory>
    requires fits { fitting.fits (schema_of schema.now) (plan_of plan.now) ≡ true }
    requires admits { Admits here.now.facts (fitting.width (plan_of plan.now)) }
    requires few { length here.now.claims.items ≤ 64 }
    ensures { IfOk result (λ n. Says here.now.facts (plan_of plan.now) here.now.node (map closing_of here.now.claims.items) (node_of n) (told_of findings.old) (told_of findings.new)) }
{
    match plan {
        Plan::Window { input, window } => {
            window_entry(alloc, here, plan, input, schema, window, findings)
        }
        Plan::Limit { input, limit } => {
            limit_entry(alloc, here, plan, input, schema, limit, findings)
        }
        _ => plain_entry(alloc, here, plan, schema, findings),
    }
}
