//! The facts of a Window's calls.

ghost use Rattle.std.specs.Prelude.{◌≡◌, ◌+◌, ◌++◌, ◌<◌, [], ◌∷◌, length, map, slice_index_or, IfOk, OnErr, OnOk};
ghost use Rattle.wd_value.specs.Keys.{key_columns as key_columns_of};
ghost use Rattle.wd_plan.specs.Plans.{class_of, NamesClasses, window_of};
ghost use Rattle.wd_plan.specs.Sorting as sorting;
ghost use Rattle.wd_step_facts.specs.declared.facts.Member.TheVariants as member;
ghost use Rattle.wd_step_facts.specs.Facts.{columns_named, fact_of, key_fact};
ghost use Rattle.wd_step_facts.specs.Steps as spec;

use crate::facts::{Given, Member};
use crate::members::{add_all, members};
use std::alloc::Global;
use wd_plan::{Call, Class, Exclusion, Frame, FrameFunction, Function, Ranking, Window};
use wd_value::{OutOfMemory, SortColumn};

fn keeps_peers_whole(exclusion: Exclusion) -> bool
    ensures { result ≡ spec.keeps_peers_whole exclusion }
{
    match exclusion {
        Exclusion::NoOthers | Exclusion::Group => true,
        Exclusion::CurrentRow | Exclusion::Ties => false,
    }
}

/// Whether peers have one frame.
fn goes_by_key(frame: Frame) -> bool
    ensures { result ≡ spec.goes_by_key frame }
{
    frame.is_stable() && keeps_peers_whole(frame.exclusion)
}

/// The columns of sort keys.
fn key_columns(alloc: Global, keys: &[SortColumn]) -> Result<Vec<u16>, OutOfMemory>
    ensures { IfOk result (λ v. v.items ≡ key_columns_of keys.now) }
{
    let mut columns = Vec::with_capacity(alloc, keys.len())?;
    for item in keys {
        columns.push(item.column)?;
    }
    Ok(columns)
}

/// The columns of a class.
fn class_columns(alloc: Global, class: &Class) -> Result<Vec<u16>, OutOfMemory>
    ensures { IfOk result (λ v. v.items ≡ sorting.class_columns (class_of class.now)) }
{
    let mut columns = Vec::from_slice(alloc, &class.partition)?;
    for item in &class.order {
        columns.push(item.column)?;
    }
    Ok(columns)
}

/// The fact that the class's columns determine the call's column.
fn value_fact(alloc: Global, class: &Class, column: u16) -> Result<Given, OutOfMemory>
    ensures { IfOk result (λ g. fact_of g ≡ spec.value_fact (class_of class.now) column) }
{
    let columns = class_columns(alloc, class)?;
    let from = members(alloc, &columns)?;
    let to = Vec::from_slice(alloc, &[Member::Column(column)])?;
    Ok(Given { from, to })
}

/// The partition's columns and the call's column, as members.
fn partition_and(alloc: Global, class: &Class, column: u16) -> Result<Vec<Member>, OutOfMemory>
    ensures { IfOk result (λ v. v.items ≡ columns_named ((class_of class.now).partition ++ column ∷ [])) }
{
    let mut columns = Vec::from_slice(alloc, &class.partition)?;
    columns.push(column)?;
    let list = members(alloc, &columns)?;
    Ok(list)
}

/// The fact that the partition's columns and the call's column determine the row.
fn number_fact(alloc: Global, class: &Class, column: u16) -> Result<Given, OutOfMemory>
    ensures { IfOk result (λ g. fact_of g ≡ key_fact member.Row ((class_of class.now).partition ++ column ∷ [])) }
{
    let from = partition_and(alloc, class, column)?;
    let to = Vec::from_slice(alloc, &[Member::Row])?;
    Ok(Given { from, to })
}

/// The fact that the partition's columns and the call's column determine the sort keys' columns.
fn rank_fact(alloc: Global, class: &Class, column: u16) -> Result<Given, OutOfMemory>
    ensures { IfOk result (λ g. fact_of g ≡ spec.rank_fact (class_of class.now) column) }
{
    let from = partition_and(alloc, class, column)?;
    let keys = key_columns(alloc, &class.order)?;
    let to = members(alloc, &keys)?;
    Ok(Given { from, to })
}

/// Appends that the class's columns determine the call's column, where peers have one frame.
fn add_over_frame(
    alloc: Global,
    class: &Class,
    frame: Frame,
    column: u16,
    list: &mut Vec<Given>,
) -> Result<(), OutOfMemory>
    ensures { IfOk result (λ _. map fact_of list.new.items ≡ map fact_of list.old.items ++ spec.over_frame (class_of class.now) frame column) }
{
    if goes_by_key(frame) {
        let fact = value_fact(alloc, class, column)?;
        list.push(fact)?;
    }
    Ok(())
}

/// Appends that the class's columns determine a rank, and what a rank determines.
fn add_rank(
    alloc: Global,
    class: &Class,
    column: u16,
    list: &mut Vec<Given>,
) -> Result<(), OutOfMemory>
    ensures { IfOk result (λ _. map fact_of list.new.items ≡ map fact_of list.old.items ++ (spec.value_fact (class_of class.now) column ∷ spec.rank_fact (class_of class.now) column ∷ [])) }
{
    let value = value_fact(alloc, class, column)?;
    list.push(value)?;
    let rank = rank_fact(alloc, class, column)?;
    list.push(rank)?;
    Ok(())
}

/// Appends the facts of a ranking function whose call has this column.
fn add_ranking(
    alloc: Global,
    class: &Class,
    ranking: Ranking,
    column: u16,
    list: &mut Vec<Given>,
) -> Result<(), OutOfMemory>
    ensures { IfOk result (λ _. map fact_of list.new.items ≡ map fact_of list.old.items ++ spec.ranking_facts (class_of class.now) ranking column) }
{
    match ranking {
        Ranking::RowNumber => {
            let fact = number_fact(alloc, class, column)?;
            list.push(fact)?;
            Ok(())
        }
        Ranking::Rank | Ranking::DenseRank => add_rank(alloc, class, column, list),
        Ranking::Ntile(_) => Ok(()),
    }
}

/// Appends the facts of a call that has this column.
fn add_call(
    alloc: Global,
    class: &Class,
    frame: Frame,
    function: &Function,
    column: u16,
    list: &mut Vec<Given>,
) -> Result<(), OutOfMemory>
    ensures { IfOk result (λ _. map fact_of list.new.items ≡ map fact_of list.old.items ++ spec.call_facts (class_of class.now) frame function.now column) }
{
    match function {
        Function::Ranking(ranking) => add_ranking(alloc, class, *ranking, column, list),
        Function::OfFrame(FrameFunction::Aggregate(_)) => {
            add_over_frame(alloc, class, frame, column, list)
        }
        _ => Ok(()),
    }
}

/// Appends the facts of a call, whose class has this number.
fn add_call_of(
    alloc: Global,
    classes: &[Class],
    call: &Call,
    column: u16,
    list: &mut Vec<Given>,
) -> Result<(), OutOfMemory>
    requires { call.now.class < length classes.now }
    ensures { IfOk result (λ _. map fact_of list.new.items ≡ map fact_of list.old.items ++ spec.call_facts (slice_index_or (map class_of classes.now) call.now.class (record { partition = []; order = [] })) call.now.frame call.now.function column) }
{
    let class = &classes[usize::from(call.class)];
    add_call(alloc, class, call.frame, &call.function, column, list)
}

/// The facts of a Window's calls; the first call has the column `first`.
#[tactic(auto, using(crate::proofs::Added::calls_next))]
fn calls_facts(alloc: Global, window: &Window, first: u16) -> Result<Vec<Given>, OutOfMemory>
    requires named { NamesClasses (window_of window.now) }
    requires narrow { first + length (window_of window.now).calls < 65536 }
    ensures { IfOk result (λ v. map fact_of v.items ≡ spec.calls_facts (window_of window.now) first (window_of window.now).calls) }
{
    let mut list = Vec::new(alloc);
    let mut column = first;
    for call in &window.calls {
        add_call_of(alloc, &window.classes, call, column, &mut list)?;
        column += 1;
    }
    Ok(list)
}

/// Appends the facts of a Window's calls; the first call has the column `first`.
///
/// # Errors
/// Where memory runs out; the list is then unchanged.
pub fn add_calls(
    alloc: Global,
    window: &Window,
    first: u16,
    list: &mut Vec<Given>,
) -> Result<(), OutOfMemory>
    requires named { NamesClasses (window_of window.now) }
    requires narrow { first + length (window_of window.now).calls < 65536 }
    ensures added { OnOk result (map fact_of list.new.items ≡ map fact_of list.old.items ++ spec.calls_facts (window_of window.now) first (window_of window.now).calls) }
    ensures kept { OnErr result (list.new.items ≡ list.old.items) }
{
    let more = calls_facts(alloc, window, first)?;
    add_all(more, list)
}
