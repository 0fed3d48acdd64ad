//! How nodes and facts are written.
use wd_cases::Failure;
use wd_facts::{Facts, Given, Member};
use wd_plan::Plan;

/// The nodes of a plan in postorder, each with the number of its columns.
pub fn push_nodes(out: &mut String, plan: &Plan) -> Result<(), Failure> {
    match plan {
        Plan::Scan { .. } => {}
        Plan::Join { left, right, .. } => {
            push_nodes(out, left)?;
            push_nodes(out, right)?;
        }
        Plan::Filter { input, .. }
        | Plan::Map { input, .. }
        | Plan::Group { input, .. }
        | Plan::Window { input, .. }
        | Plan::Distinct { input }
        | Plan::Limit { input, .. } => push_nodes(out, input)?,
    }
    push_node(out, plan)
}

fn push_node(out: &mut String, plan: &Plan) -> Result<(), Failure> {
    let mark = if out.is_empty() { "" } else { ", " };
    let (kind, width) = (kind_of(plan), plan.width());
    Ok(write!(out, "{mark}{kind} {width}")?)
}

fn kind_of(plan: &Plan) -> &'static str {
    match plan {
        Plan::Scan { .. } => "Scan",
        Plan::Join { .. } => "Join",
        Plan::Filter { .. } => "Filter",
        Plan::Map { .. } => "Map",
        Plan::Group { .. } => "Group",
        Plan::Window { .. } => "Window",
        Plan::Distinct { .. } => "Distinct",
        Plan::Limit { .. } => "Limit",
    }
}

/// The number of columns, at a Join also that of the left side, and the facts.
pub fn push_facts(out: &mut String, facts: &Facts) -> Result<(), Failure> {
    write!(out, "{}", facts.columns)?;
    if let Some(split) = facts.split {
        write!(out, " after {split}")?;
    }
    for fact in &facts.list {
        push_fact(out, fact)?;
    }
    Ok(())
}

fn push_fact(out: &mut String, fact: &Given) -> Result<(), Failure> {
    out.push_str("; ")?;
    push_members(out, &fact.from)?;
    out.push_str(" > ")?;
    push_members(out, &fact.to)
}

pub fn push_members(out: &mut String, members: &[Member]) -> Result<(), Failure> {
    for (place, member) in members.iter().enumerate() {
        out.push_str(if place == 0 { "" } else { "," })?;
        push_member(out, *member)?;
    }
    Ok(())
}

fn push_member(out: &mut String, member: Member) -> Result<(), Failure> {
    match member {
        Member::Column(column) => Ok(write!(out, "{column}")?),
        Member::Left => Ok(out.push_str("left")?),
        Member::Right => Ok(out.push_str("right")?),
        Member::Row => Ok(out.push_str("row")?),
    }
}
