//! Which rule justifies a call or a limit, or what it lacks.

ghost use Rattle.std.specs.Prelude.{◌≡◌, ◌+◌, ◌<◌, map, slice_get, is_some, None, IfOk};
ghost use Rattle.wd_plan.specs.Plans.{window_of};
ghost use Rattle.wd_step_facts.specs.Steps.{all_columns};
ghost use Rattle.wd_sets.specs.Sets.{has};
ghost use Rattle.wd_rules.specs.Rules as rules;
ghost use Rattle.wd_analyse.specs.Decisions as spec;
ghost use Rattle.wd_analyse.specs.Evidence.{closing_of};

use crate::closed::Closed;
use std::alloc::Global;
use wd_certificate::Rule;
use wd_facts::Member;
use wd_plan::{Call, FrameFunction, Function, Window};
use wd_value::OutOfMemory;

/// Why no rule justifies a call or a limit.
#[derive(Clone, Copy)]
pub enum Lack {
    /// The keys determine every column, but another class of the node has the rule `exchange`.
    SecondClass,
    /// The keys do not determine the column with this number.
    Column(u16),
    /// The keys do not determine the row.
    Row,
}

/// What is decided of a call.
#[derive(Clone, Copy)]
pub(crate) enum Decided {
    By(Rule),
    Open(Lack),
}

/// The least of the first `columns` columns that is not determined.
#[tactic(auto, using(crate::proofs::Missing::missing_more, crate::proofs::Missing::missing_none))]
pub(crate) fn missing(closed: &Closed, columns: u16) -> Option<u16>
    ensures { result ≡ spec.missing_of (closing_of closed.now).has (all_columns columns) }
{
    for column in 0..columns {
        if !closed.set.contains(Member::Column(column)) {
            return Some(column);
        }
    }
    None
}

/// The column whose value FIRST_VALUE, LAST_VALUE or NTH_VALUE takes.
fn taken_column(function: &Function) -> Option<u16>
    ensures { result ≡ rules.taken_column function.now }
{
    match function {
        Function::OfFrame(FrameFunction::ValueAt(_, column)) => Some(*column),
        _ => None,
    }
}

/// Whether the value that a call takes over a stable frame is determined.
fn gives_value(closed: &Closed, call: &Call) -> bool
    ensures { result ≡ spec.gives_value (closing_of closed.now).has call.now }
{
    call.frame.is_stable()
        && match taken_column(&call.function) {
            Some(column) => closed.set.contains(Member::Column(column)),
            None => false,
        }
}

/// The rule `exchange`, unless another class of the node has it.
fn by_exchange(exchange: Option<u16>, class: u16, number: u64) -> Decided
    ensures { result ≡ spec.by_exchange exchange class number }
{
    match exchange {
        None => Decided::By(Rule::Exchange(number)),
        Some(first) => {
            if first == class {
                Decided::By(Rule::Exchange(number))
            } else {
                Decided::Open(Lack::SecondClass)
            }
        }
    }
}

/// What a call lacks whose class determines neither the row nor every column.
fn lack_of(call: &Call) -> Lack
    ensures { result ≡ spec.lack_of call.now }
{
    if call.frame.is_stable() {
        match taken_column(&call.function) {
            Some(column) => Lack::Column(column),
            None => Lack::Row,
        }
    } else {
        Lack::Row
    }
}

/// The first rule that justifies a call, whose class is shown by the trace with this number.
fn decide(closed: &Closed, number: u64, columns: u16, exchange: Option<u16>, call: &Call) -> Decided
    ensures { result ≡ spec.decide (closing_of closed.now).has number columns exchange call.now }
{
    if call.is_by_peers() {
        Decided::By(Rule::Peers)
    } else if closed.set.contains(Member::Row) {
        Decided::By(Rule::Unique(number))
    } else if gives_value(closed, call) {
        Decided::By(Rule::Values(number))
    } else if missing(closed, columns).is_none() {
        by_exchange(exchange, call.class, number)
    } else {
        Decided::Open(lack_of(call))
    }
}

/// The first rule that justifies a call, by the classes of its node, whose traces are numbered from `first` on.
fn decide_of(
    classes: &[Closed],
    first: u64,
    columns: u16,
    exchange: Option<u16>,
    call: &Call,
) -> Decided
    requires { first < 65536 }
    ensures { result ≡ spec.decide_of (slice_get (map closing_of classes.now) call.now.class) (first + call.now.class) columns exchange call.now }
{
    match classes.get(usize::from(call.class)) {
        Some(closed) => {
            let number = first + u64::from(call.class);
            decide(closed, number, columns, exchange, call)
        }
        None => Decided::Open(Lack::Row),
    }
}

fn takes_exchange(decided: Decided) -> bool
    ensures { result ≡ spec.takes_exchange decided }
{
    match decided {
        Decided::By(Rule::Exchange(_)) => true,
        _ => false,
    }
}

/// The class that has the rule `exchange` after a call.
fn next_exchange(exchange: Option<u16>, class: u16, decided: Decided) -> Option<u16>
    ensures { result ≡ spec.next_exchange exchange class decided }
{
    match exchange {
        Some(first) => Some(first),
        None => {
            if takes_exchange(decided) {
                Some(class)
            } else {
                None
            }
        }
    }
}

/// What is decided of the calls of a Window, over an input with `columns` columns.
pub(crate) fn decide_calls(
    alloc: Global,
    classes: &[Closed],
    first: u64,
    columns: u16,
    window: &Window,
) -> Result<Vec<Decided>, OutOfMemory>
    requires { first < 65536 }
    ensures { IfOk result (λ v. v.items ≡ spec.decided_calls (map closing_of classes.now) first columns None (window_of window.now).calls) }
{
    let mut list = Vec::with_capacity(alloc, window.calls.len())?;
    let mut exchange = None;
    for call in &window.calls {
        let decided = decide_of(classes, first, columns, exchange, call);
        exchange = next_exchange(exchange, call.class, decided);
        list.push(decided)?;
    }
    Ok(list)
}

/// The rules of calls that have one.
pub(crate) fn rules_of(alloc: Global, decided: &[Decided]) -> Result<Vec<Rule>, OutOfMemory>
    ensures { IfOk result (λ v. v.items ≡ spec.rules_in decided.now) }
{
    let mut list = Vec::with_capacity(alloc, decided.len())?;
    for one in decided {
        if let Decided::By(rule) = one {
            list.push(*rule)?;
        }
    }
    Ok(list)
}
