//! Sets of members.
use crate::notation::members_of;
use std::alloc::Global;
use wd_cases::Failure;
use wd_facts::Member;
use wd_sets::{Set, place};

/// `set MEMBERS ? MEMBERS`: of each of the first, put in one after another, whether it was not there; of each of the others its
/// place and whether it is there.
pub fn set(alloc: Global, text: &str) -> Result<String, Failure> {
    let (first, others) = text.split_once('?').ok_or(Failure::NoCase)?;
    let first = members_of(alloc, first)?;
    let others = members_of(alloc, others)?;
    let mut out = String::new(alloc);
    let set = fill(alloc, &first, &mut out)?;
    push_found(&set, &others, &mut out)?;
    Ok(out)
}

fn fill(alloc: Global, members: &[Member], out: &mut String) -> Result<Set, Failure> {
    let mut set = Set::new(alloc);
    for member in members {
        let is_new = set.insert(*member)?;
        out.push_str(if is_new { "new " } else { "there " })?;
    }
    Ok(set)
}

fn push_found(set: &Set, members: &[Member], out: &mut String) -> Result<(), Failure> {
    out.push('?')?;
    for member in members {
        let (at, is_in) = (place(*member), set.contains(*member));
        write!(out, " {at} {is_in}")?;
    }
    Ok(())
}
