//! The facts that a node keeps, and those that are given at the node above. A kept fact is its targets and the number of its trace, so
//! that many facts by one trace share its columns.

ghost use Rattle.std.specs.Prelude.{◌≡◌, [], ◌∷◌, ◌++◌, true, map, filter, flat_map, nat_lt, slice_get, IfOk};
ghost use Rattle.std.specs.List.{list_all};
ghost use Rattle.wd_schema.specs.Schemas.{schema_of};
ghost use Rattle.wd_plan.specs.Fits as fitting;
ghost use Rattle.wd_plan.specs.Plans.{grouping_of, plan_of};
ghost use Rattle.wd_step_facts.specs.Facts.{facts_of};
ghost use Rattle.wd_step_facts.specs.Facts as facts_spec;
ghost use Rattle.wd_step_facts.specs.Steps as steps;
ghost use Rattle.wd_step_facts.specs.Steps.{facts_of_group};
ghost use Rattle.wd_facts.specs.Given.{given as given_facts};
ghost use Rattle.wd_facts.specs.Laws.{AreOfChildren};
ghost use Rattle.wd_node_facts.specs.Seen as spec;
ghost use Rattle.wd_node_facts.specs.Seen.{each_columns, facts_kept, seen_of};

use std::alloc::Global;
use wd_facts::{Facts, Given, Member, given};
use wd_plan::{Group, Plan};
use wd_schema::Schema;
use wd_step_facts::restrict_members;
use wd_value::OutOfMemory;

/// A kept fact: the number of its trace, and what the trace's columns determine, each once.
#[derive(Drop)]
pub struct KeptFact {
    pub trace: usize,
    pub to: Vec<Member>,
}

/// What a node keeps by its traces.
#[derive(Drop)]
pub struct Keeps {
    /// The columns of each trace that a kept fact names, each once, by the trace's number.
    pub traces: Vec<Vec<u16>>,
    pub list: Vec<KeptFact>,
}

/// What a child keeps, as the node above numbers it: column 0 becomes the column `by`, and the row becomes `row`.
#[derive(Drop)]
pub struct Side {
    pub keeps: Keeps,
    pub by: u16,
    pub row: Member,
}

/// The given facts of a node, in order: of a Group its own facts come before those that its child keeps, of another node after them.
#[derive(Drop)]
pub struct NodeFacts {
    /// How many columns the facts are over.
    pub columns: u16,
    /// At a Join, how many of the columns are the left side's.
    pub split: Option<u16>,
    pub first: Vec<Given>,
    pub left: Side,
    pub right: Side,
    pub last: Vec<Given>,
}

impl Keeps {
    /// No facts.
    pub fn none(alloc: Global) -> Keeps
        ensures { facts_kept result ≡ [] }
    {
        Keeps {
            traces: Vec::new(alloc),
            list: Vec::new(alloc),
        }
    }
}

/// The columns of the trace with a number; empty where no trace has it.
pub fn columns_of(traces: &[Vec<u16>], number: usize) -> &[u16]
    ensures { result.now ≡ spec.columns_or_none (slice_get (each_columns traces.now) number) }
{
    match traces.get(number) {
        Some(columns) => columns,
        None => &[],
    }
}

/// Whether each of the numbers is below the number of columns.
pub fn are_columns(columns: u16, from: &[u16]) -> bool
    ensures { result ≡ list_all (λ c. nat_lt c columns) from.now }
{
    for column in from {
        if *column >= columns {
            return false;
        }
    }
    true
}

/// A kept fact with those of its targets that are one of the first `columns` columns or the row.
fn restrict_fact(alloc: Global, columns: u16, kept: &KeptFact) -> Result<KeptFact, OutOfMemory>
    ensures trace { IfOk result (λ k. k.trace ≡ kept.now.trace) }
    ensures to { IfOk result (λ k. k.to.items ≡ filter (facts_spec.is_plain columns) kept.now.to.items) }
{
    Ok(KeptFact {
        trace: kept.trace,
        to: restrict_members(alloc, columns, &kept.to)?,
    })
}

/// Appends a kept fact.
fn push_kept(list: &mut Vec<KeptFact>, kept: KeptFact) -> Result<(), OutOfMemory>
    ensures { IfOk result (λ _. list.new.items ≡ list.old.items ++ (kept ∷ [])) }
{
    list.push(kept)?;
    Ok(())
}

/// Appends a kept fact whose columns are all among the first `columns`, with the targets that are such columns or the row.
fn add_cut(
    alloc: Global,
    columns: u16,
    traces: &[Vec<u16>],
    kept: &KeptFact,
    list: &mut Vec<KeptFact>,
) -> Result<(), OutOfMemory>
    ensures { IfOk result (λ _. map (spec.fact_by (each_columns traces.now)) list.new.items ≡ map (spec.fact_by (each_columns traces.now)) list.old.items ++ steps.restrict_fact columns (spec.fact_by (each_columns traces.now) kept.now)) }
{
    if are_columns(columns, columns_of(traces, kept.trace)) {
        let cut = restrict_fact(alloc, columns, kept)?;
        push_kept(list, cut)
    } else {
        Ok(())
    }
}

/// Kept facts, restricted to the first `columns` columns.
#[tactic(auto, using(crate::proofs::Sides::cut_next))]
fn restrict_facts(
    alloc: Global,
    columns: u16,
    traces: &[Vec<u16>],
    kept: &[KeptFact],
) -> Result<Vec<KeptFact>, OutOfMemory>
    ensures { IfOk result (λ v. map (spec.fact_by (each_columns traces.now)) v.items ≡ flat_map (steps.restrict_fact columns) (map (spec.fact_by (each_columns traces.now)) kept.now)) }
{
    let mut list = Vec::new(alloc);
    for fact in kept {
        add_cut(alloc, columns, traces, fact, &mut list)?;
    }
    Ok(list)
}

/// What a Group with one set keeps of its child's facts; one with several sets keeps none.
fn group_keeps(alloc: Global, group: &Group, keeps: Keeps) -> Result<Keeps, OutOfMemory>
    ensures { IfOk result (λ k. facts_kept k ≡ facts_of_group (grouping_of group.now) (facts_kept keeps)) }
{
    if group.sets.len() != 1 {
        return Ok(Keeps::none(alloc));
    }
    let Keeps { traces, list } = keeps;
    let list = restrict_facts(alloc, group.columns, &traces, &list)?;
    Ok(Keeps { traces, list })
}

/// The number of the child's column 0 among the columns of the facts; at a Join of the left child's.
#[tactic(auto, using(wd_plan::proofs::Ranges::narrow))]
fn first_below(plan: &Plan, schema: &Schema) -> u16
    requires { fitting.fits (schema_of schema.now) (plan_of plan.now) ≡ true }
    ensures { result ≡ spec.first_below (plan_of plan.now) }
{
    match plan {
        Plan::Map { outputs, .. } => outputs.len() as u16,
        _ => 0,
    }
}

/// The member that the child's row becomes.
fn row_below(plan: &Plan) -> Member
    ensures { result ≡ spec.row_below (plan_of plan.now) }
{
    match plan {
        Plan::Join { .. } => Member::Left,
        _ => Member::Row,
    }
}

/// The number of the column 0 of a Join's right child.
#[tactic(auto, using(wd_plan::proofs::Ranges::narrow))]
fn first_beside(plan: &Plan, schema: &Schema) -> u16
    requires { fitting.fits (schema_of schema.now) (plan_of plan.now) ≡ true }
    ensures { result ≡ spec.first_beside (plan_of plan.now) }
{
    match plan {
        Plan::Join { left, .. } => left.width() as u16,
        _ => 0,
    }
}

/// The facts that are given by what the child keeps; of a Group what its one set keeps of them.
fn kept_through(alloc: Global, plan: &Plan, keeps: Keeps) -> Result<Keeps, OutOfMemory>
    ensures { IfOk result (λ k. facts_kept k ≡ spec.kept_through (plan_of plan.now) (facts_kept keeps)) }
{
    match plan {
        Plan::Group { group, .. } => group_keeps(alloc, group, keeps),
        _ => Ok(keeps),
    }
}

fn is_group(plan: &Plan) -> bool
    ensures { result ≡ spec.is_group (plan_of plan.now) }
{
    matches!(plan, Plan::Group { .. })
}

/// A node's own facts and those that its children keep; those of a Group come first.
fn node_facts(alloc: Global, is_group: bool, own: Facts, left: Side, right: Side) -> NodeFacts
    ensures seen { seen_of result ≡ spec.with_own is_group (facts_of own) (spec.side_facts left) (spec.side_facts right) }
    ensures left { result.left ≡ left }
    ensures right { result.right ≡ right }
{
    let Facts {
        columns,
        split,
        list,
    } = own;
    let (first, last) = if is_group {
        (list, Vec::new(alloc))
    } else {
        (Vec::new(alloc), list)
    };
    NodeFacts {
        columns,
        split,
        first,
        left,
        right,
        last,
    }
}

/// The given facts of a plan's top node, whose children keep these; nothing is kept where there is no child.
#[tactic(auto, using(crate::proofs::Sides::none_named, crate::proofs::Sides::given_seen, crate::proofs::Sides::left_narrow, crate::proofs::Sides::right_narrow))]
pub fn facts_at(
    alloc: Global,
    plan: &Plan,
    schema: &Schema,
    left: Keeps,
    right: Keeps,
) -> Result<NodeFacts, OutOfMemory>
    requires fits { fitting.fits (schema_of schema.now) (plan_of plan.now) ≡ true }
    requires named { AreOfChildren (plan_of plan.now) (facts_kept left) (facts_kept right) }
    requires alone { spec.HasNoOther (plan_of plan.now) (facts_kept left) (facts_kept right) }
    ensures seen { IfOk result (λ f. seen_of f ≡ given_facts (schema_of schema.now) (plan_of plan.now) (facts_kept left) (facts_kept right)) }
    ensures narrow { IfOk result (λ f. spec.AreNarrow f) }
{
    let own = given(alloc, plan, schema, &[])?;
    let below = kept_through(alloc, plan, left)?;
    let left = Side {
        keeps: below,
        by: first_below(plan, schema),
        row: row_below(plan),
    };
    let right = Side {
        keeps: right,
        by: first_beside(plan, schema),
        row: Member::Right,
    };
    Ok(node_facts(alloc, is_group(plan), own, left, right))
}
