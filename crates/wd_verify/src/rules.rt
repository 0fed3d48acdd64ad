//! The rules of an entry's calls and of its limit, by its traces.

ghost use Rattle.std.specs.Prelude.{◌≡◌, ◌≢◌, ◌<◌, ◌||◌, ◌++◌, [], true, length, map, None, Some, IfOk, IfErr};
ghost use Rattle.std.specs.List.{list_all};
ghost use Rattle.wd_value.specs.Keys.{key_columns};
ghost use Rattle.wd_plan.specs.Outcomes.{class_at};
ghost use Rattle.wd_plan.specs.Plans.{class_of, limit_of, NamesClasses, window_of};
ghost use Rattle.wd_plan.specs.Sorting.{class_columns};
ghost use Rattle.wd_step_facts.specs.declared.facts.Member.{Member as AMember};
ghost use Rattle.wd_step_facts.specs.Facts.{columns_named};
ghost use Rattle.wd_step_facts.specs.Steps.{all_columns};
ghost use Rattle.wd_sets.specs.Reaches as reaching;
ghost use Rattle.wd_sets.specs.Sets.{has, has_column, is_in};
ghost use Rattle.wd_rules.specs.Rules as spec;
ghost use Rattle.wd_node_facts.specs.Seen.{seen_of};
ghost use Rattle.wd_verify.specs.Shown.{evidence_of, refusal_of, traced_of};

use crate::evidence::{Evidence, refuse_unless};
use std::alloc::Global;
use wd_certificate::{CertError, Rule};
use wd_facts::Member;
use wd_node_facts::NodeFacts;
use wd_plan::{Call, Class, FrameFunction, Function, Limit, Window};
use wd_sets::Set;
use wd_traces::{Followed, reaches, reaches_each};
use wd_value::{OutOfMemory, SortColumn};

/// Adds columns to a set.
#[tactic(auto, using(wd_traces::proofs::Members::one_more))]
fn insert_columns(set: &mut Set, columns: &[u16]) -> Result<(), OutOfMemory>
    ensures { IfOk result (λ _. (m : AMember) → has set.new m ≡ reaching.also (has set.old) (columns_named columns.now) m) }
{
    for column in columns {
        set.insert(Member::Column(*column))?;
    }
    Ok(())
}

/// Adds the columns of sort keys to a set.
#[tactic(auto, using(wd_traces::proofs::Members::one_more))]
fn insert_keys(set: &mut Set, keys: &[SortColumn]) -> Result<(), OutOfMemory>
    ensures { IfOk result (λ _. (m : AMember) → has set.new m ≡ reaching.also (has set.old) (columns_named (key_columns keys.now)) m) }
{
    for key in keys {
        set.insert(Member::Column(key.column))?;
    }
    Ok(())
}

/// The columns of a class: of its partition, and of its sort keys.
fn class_set(alloc: Global, partition: &[u16], keys: &[SortColumn]) -> Result<Set, OutOfMemory>
    ensures { IfOk result (λ s. has_column s ≡ is_in (partition.now ++ key_columns keys.now)) }
{
    let mut set = Set::new(alloc);
    insert_columns(&mut set, partition)?;
    insert_keys(&mut set, keys)?;
    Ok(set)
}

/// The columns of each class.
fn class_sets(alloc: Global, classes: &[Class]) -> Result<Vec<Set>, OutOfMemory>
    ensures { IfOk result (λ v. map has_column v.items ≡ map (λ class. is_in (class_columns class)) (map class_of classes.now)) }
{
    let mut list = Vec::with_capacity(alloc, classes.len())?;
    for class in classes {
        let set = class_set(alloc, &class.partition, &class.order)?;
        list.push(set)?;
    }
    Ok(list)
}

/// Whether a trace starts from among columns.
fn starts_among(among: &Set, from: &[u16]) -> bool
    ensures { result ≡ list_all (has_column among.now) from.now }
{
    for column in from {
        if !among.contains(Member::Column(*column)) {
            return false;
        }
    }
    true
}

/// Whether the first `columns` columns are reached with the members of the set.
#[tactic(auto, using(crate::proofs::Columns::columns_next, crate::proofs::Columns::columns_end))]
fn reaches_all(facts: &NodeFacts, set: &Set, columns: u16) -> bool
    ensures { result ≡ reaching.reaches_each (seen_of facts.now) (has set.now) (columns_named (all_columns columns)) }
{
    for column in 0..columns {
        if !reaches(facts, set, Member::Column(column)) {
            return false;
        }
    }
    true
}

/// Whether a trace shows that columns determine members.
fn shows(facts: &NodeFacts, among: &Set, members: &[Member], trace: &Followed) -> bool
    ensures { result ≡ spec.shows (seen_of facts.now) (has_column among.now) members.now (traced_of trace.now) }
{
    starts_among(among, &trace.from) && reaches_each(facts, &trace.set, members)
}

/// Whether a trace shows that columns determine the first `columns` columns.
fn shows_all(facts: &NodeFacts, among: &Set, columns: u16, trace: &Followed) -> bool
    ensures { result ≡ spec.shows (seen_of facts.now) (has_column among.now) (columns_named (all_columns columns)) (traced_of trace.now) }
{
    starts_among(among, &trace.from) && reaches_all(facts, &trace.set, columns)
}

/// The column whose value FIRST_VALUE, LAST_VALUE or NTH_VALUE takes.
fn taken_column(function: &Function) -> Option<u16>
    ensures { result ≡ spec.taken_column function.now }
{
    match function {
        Function::OfFrame(FrameFunction::ValueAt(_, column)) => Some(*column),
        _ => None,
    }
}

/// Whether the frame is stable and a trace reaches the column whose value the call takes.
fn shows_value(facts: &NodeFacts, among: &Set, call: &Call, trace: &Followed) -> bool
    ensures { result ≡ spec.shows_value (seen_of facts.now) (has_column among.now) call.now (traced_of trace.now) }
{
    call.frame.is_stable()
        && match taken_column(&call.function) {
            Some(column) => shows(facts, among, &[Member::Column(column)], trace),
            None => false,
        }
}

/// Checks a call by its rule; its class has the columns of the set, and the input has `columns` columns.
fn check_call(
    evidence: &Evidence,
    columns: u16,
    among: &Set,
    call: &Call,
    rule: Rule,
) -> Result<(), CertError>
    ensures { refusal_of result ≡ spec.call_refusal (evidence_of evidence.now) columns (has_column among.now) call.now rule }
{
    let facts = &evidence.known.facts;
    let holds = match rule {
        Rule::Peers => call.is_by_peers(),
        Rule::Unique(number) => shows(facts, among, &[Member::Row], evidence.trace(number)?),
        Rule::Values(number) => shows_value(facts, among, call, evidence.trace(number)?),
        Rule::Exchange(number) => shows_all(facts, among, columns, evidence.trace(number)?),
    };
    let node = evidence.node;
    refuse_unless(holds, CertError::UnjustifiedCall { node })
}

/// Checks a call of a Window by its rule; the sets are the columns of each class, by its number.
fn check_call_of(
    evidence: &Evidence,
    columns: u16,
    window: &Window,
    sets: &[Set],
    call: &Call,
    rule: Rule,
) -> Result<(), CertError>
    requires class { call.now.class < length (window_of window.now).classes }
    requires sets { map has_column sets.now ≡ map (λ class. is_in (class_columns class)) (window_of window.now).classes }
    ensures { refusal_of result ≡ spec.call_refusal (evidence_of evidence.now) columns (is_in (class_columns (class_at (window_of window.now) call.now.class))) call.now rule }
{
    let among = &sets[usize::from(call.class)];
    check_call(evidence, columns, among, call, rule)
}

/// Checks calls, each by its own rule.
fn check_calls(
    evidence: &Evidence,
    columns: u16,
    window: &Window,
    sets: &[Set],
    rules: &[Rule],
) -> Result<(), CertError>
    requires named { NamesClasses (window_of window.now) }
    requires sets { map has_column sets.now ≡ map (λ class. is_in (class_columns class)) (window_of window.now).classes }
    ensures { refusal_of result ≡ spec.calls_refusal (evidence_of evidence.now) columns (window_of window.now) (window_of window.now).calls rules.now }
{
    let mut later = rules.iter();
    for call in &window.calls {
        match later.next() {
            Some(rule) => check_call_of(evidence, columns, window, sets, call, *rule)?,
            None => return Err(CertError::Count),
        }
    }
    match later.next() {
        None => Ok(()),
        Some(_) => Err(CertError::Count),
    }
}

fn is_exchange(rule: Rule) -> bool
    ensures { result ≡ spec.is_exchange rule }
{
    matches!(rule, Rule::Exchange(_))
}

/// The class of the first call that goes by `exchange`.
fn exchange_class(calls: &[Call], rules: &[Rule]) -> u16
    ensures { result ≡ spec.exchange_class calls.now rules.now }
{
    let mut later = rules.iter();
    for call in calls {
        match later.next() {
            Some(rule) => {
                if is_exchange(*rule) {
                    return call.class;
                }
            }
            None => return 0,
        }
    }
    0
}

/// Whether each call that goes by `exchange` is of this class.
fn exchange_only(class: u16, calls: &[Call], rules: &[Rule]) -> bool
    ensures { result ≡ spec.exchange_only class calls.now rules.now }
{
    let mut later = rules.iter();
    for call in calls {
        match later.next() {
            Some(rule) => {
                if is_exchange(*rule) && call.class != class {
                    return false;
                }
            }
            None => return true,
        }
    }
    true
}

/// Whether no two classes go by `exchange`.
fn has_one_exchange(calls: &[Call], rules: &[Rule]) -> bool
    ensures { result ≡ spec.has_one_exchange calls.now rules.now }
{
    exchange_only(exchange_class(calls, rules), calls, rules)
}

/// Checks a Window's rules, over an input with `columns` columns.
pub(crate) fn check_window(
    alloc: Global,
    evidence: &Evidence,
    columns: u16,
    window: &Window,
    rules: &[Rule],
) -> Result<(), CertError>
    requires { NamesClasses (window_of window.now) }
    ensures passed { IfOk result (λ _. spec.window_refusal (evidence_of evidence.now) columns (window_of window.now) rules.now ≡ None) }
    ensures refused { IfErr result (λ e. e ≢ CertError.OutOfMemory → spec.window_refusal (evidence_of evidence.now) columns (window_of window.now) rules.now ≡ Some e) }
{
    let sets = class_sets(alloc, &window.classes)?;
    check_calls(evidence, columns, window, &sets, rules)?;
    let node = evidence.node;
    let is_one = has_one_exchange(&window.calls, rules);
    refuse_unless(is_one, CertError::SecondExchange { node })
}

/// Whether a limit has no offset, and has no count or has ties.
fn is_whole_or_ties(limit: &Limit) -> bool
    ensures { result ≡ spec.is_whole_or_ties (limit_of limit.now) }
{
    limit.offset == 0 && (limit.count.is_none() || limit.ties)
}

/// Whether a trace shows that the sort keys determine the first `columns` columns.
fn shows_by_keys(
    alloc: Global,
    facts: &NodeFacts,
    keys: &[SortColumn],
    columns: u16,
    trace: &Followed,
) -> Result<bool, OutOfMemory>
    ensures { IfOk result (λ b. b ≡ spec.shows (seen_of facts.now) (is_in (key_columns keys.now)) (columns_named (all_columns columns)) (traced_of trace.now)) }
{
    let among = class_set(alloc, &[], keys)?;
    Ok(shows_all(facts, &among, columns, trace))
}

/// Checks a limit of an input with `columns` columns, by the trace that its entry names, if any.
pub(crate) fn check_limit(
    alloc: Global,
    evidence: &Evidence,
    columns: u16,
    limit: &Limit,
    number: Option<u64>,
) -> Result<(), CertError>
    ensures passed { IfOk result (λ _. spec.limit_refusal (evidence_of evidence.now) columns (limit_of limit.now) number ≡ None) }
    ensures refused { IfErr result (λ e. e ≢ CertError.OutOfMemory → spec.limit_refusal (evidence_of evidence.now) columns (limit_of limit.now) number ≡ Some e) }
{
    let node = evidence.node;
    let refusal = CertError::UnjustifiedLimit { node };
    match number {
        None => refuse_unless(is_whole_or_ties(limit), refusal),
        Some(number) => {
            let trace = evidence.trace(number)?;
            let holds = shows_by_keys(alloc, &evidence.known.facts, &limit.keys, columns, trace)?;
            refuse_unless(holds, refusal)
        }
    }
}
