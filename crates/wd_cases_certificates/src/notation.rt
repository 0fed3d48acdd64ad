//! Certificates, facts and members as lines write them.
//!
//! The entries of a certificate are parted by `;`, and the words of one by blanks; `-` is an entry that says nothing.
//! `0,1>2,0` is a trace from columns 0 and 1 by the facts 2 and 0; `3,row@0` keeps column 3 and the row by trace 0; the rules
//! are `peers`, `unique@0`, `values@0` and `exchange@0`, and `keys@0` is the limit's trace. After `version 2:` stand the entries
//! of a certificate of version 2, else they are of version 1. A fact is `0,1>2,row`.
use std::alloc::Global;
use wd_cases::{Failure, is_nothing};
use wd_certificate::{Certificate, Kept, Node, PackedTarget, Rule, Target, Trace, Version};
use wd_facts::{Facts, Given, Member};

pub fn certificate_of(alloc: Global, text: &str) -> Result<Certificate, Failure> {
    let (version, entries) = match text.strip_prefix("version 2:") {
        Some(entries) => (Version::Two, entries),
        None => (Version::One, text),
    };
    let mut nodes = Vec::new(alloc);
    for entry in entries.split(';') {
        nodes.push(node_of(alloc, entry)?)?;
    }
    Ok(Certificate { nodes, version })
}

fn node_of(alloc: Global, entry: &str) -> Result<Node, Failure> {
    let mut node = Node {
        calls: Vec::new(alloc),
        keep: Vec::new(alloc),
        limit: None,
        traces: Vec::new(alloc),
    };
    for word in entry.split(' ') {
        if !is_nothing(word) {
            add_word(alloc, &mut node, word)?;
        }
    }
    Ok(node)
}

fn add_word(alloc: Global, node: &mut Node, word: &str) -> Result<(), Failure> {
    if word == "peers" {
        return Ok(node.calls.push(Rule::Peers)?);
    }
    match (word.split_once('>'), word.split_once('@')) {
        (Some((from, uses)), _) => Ok(node.traces.push(trace_of(alloc, from, uses)?)?),
        (None, Some((claim, trace))) => add_claim(alloc, node, claim, trace.parse()?),
        (None, None) => Err(Failure::NoCase),
    }
}

fn trace_of(alloc: Global, from: &str, uses: &str) -> Result<Trace, Failure> {
    let from = numbers_of(alloc, from)?;
    let uses = numbers_of(alloc, uses)?;
    Ok(Trace { from, uses })
}

/// Numbers parted by `,`, or none.
fn numbers_of(alloc: Global, text: &str) -> Result<Vec<u64>, Failure> {
    let mut numbers = Vec::new(alloc);
    for word in text.split(',') {
        if !is_nothing(word) {
            numbers.push(word.parse::<u64>()?)?;
        }
    }
    Ok(numbers)
}

/// What is claimed by the trace with a number.
fn add_claim(alloc: Global, node: &mut Node, claim: &str, trace: u64) -> Result<(), Failure> {
    match claim {
        "unique" => Ok(node.calls.push(Rule::Unique(trace))?),
        "values" => Ok(node.calls.push(Rule::Values(trace))?),
        "exchange" => Ok(node.calls.push(Rule::Exchange(trace))?),
        "keys" => {
            node.limit = Some(trace);
            Ok(())
        }
        _ => {
            let to = targets_of(alloc, claim)?;
            Ok(node.keep.push(Kept { to, trace })?)
        }
    }
}

fn targets_of(alloc: Global, text: &str) -> Result<Vec<PackedTarget>, Failure> {
    let mut targets = Vec::new(alloc);
    for word in text.split(',') {
        if !is_nothing(word) {
            targets.push(PackedTarget::new(target_of(word)?))?;
        }
    }
    Ok(targets)
}

fn target_of(word: &str) -> Result<Target, Failure> {
    match word {
        "row" => Ok(Target::Row),
        _ => Ok(Target::Column(word.parse()?)),
    }
}

/// Columns parted by `,`, or none.
pub fn columns_of(alloc: Global, text: &str) -> Result<Vec<u16>, Failure> {
    let mut columns = Vec::new(alloc);
    for word in text.split(',') {
        if !is_nothing(word) {
            columns.push(word.trim().parse::<u16>()?)?;
        }
    }
    Ok(columns)
}

/// The facts after the number of columns, which at a Join stands before `/` and the number of those of the left side.
pub fn facts_over(alloc: Global, text: &str) -> Result<Facts, Failure> {
    let (columns, list) = text.split_once(' ').unwrap_or((text, ""));
    let (columns, left) = columns.split_once('/').unwrap_or((columns, ""));
    let columns = columns.parse()?;
    let split = if is_nothing(left) {
        None
    } else {
        Some(left.parse()?)
    };
    let list = facts_of(alloc, list)?;
    Ok(Facts {
        columns,
        split,
        list,
    })
}

/// Facts parted by `;`.
pub fn facts_of(alloc: Global, text: &str) -> Result<Vec<Given>, Failure> {
    let mut facts = Vec::new(alloc);
    for part in text.split(';') {
        if !is_nothing(part) {
            facts.push(fact_of(alloc, part.trim())?)?;
        }
    }
    Ok(facts)
}

fn fact_of(alloc: Global, text: &str) -> Result<Given, Failure> {
    let (from, to) = text.split_once('>').ok_or(Failure::NoCase)?;
    let from = members_of(alloc, from)?;
    let to = members_of(alloc, to)?;
    Ok(Given { from, to })
}

/// Members parted by `,`, or none.
pub fn members_of(alloc: Global, text: &str) -> Result<Vec<Member>, Failure> {
    let mut members = Vec::new(alloc);
    for word in text.split(',') {
        if !is_nothing(word) {
            members.push(member_of(word.trim())?)?;
        }
    }
    Ok(members)
}

fn member_of(word: &str) -> Result<Member, Failure> {
    match word {
        "row" => Ok(Member::Row),
        "left" => Ok(Member::Left),
        "right" => Ok(Member::Right),
        _ => Ok(Member::Column(word.parse()?)),
    }
}
