//! The search for what a node keeps of what the tried columns determine.

ghost use Rattle.std.specs.Prelude.{map, vec_items, IfOk};
ghost use Rattle.std.specs.List.{AllByRecursion};
ghost use Rattle.wd_plan.specs.Fits.{AreBelow};
ghost use Rattle.wd_analyse.specs.Evidence.{closing_of};
ghost use Rattle.wd_analyse.specs.Sources.{Keeps};
ghost use Rattle.wd_analyse.specs.Steps.{Adds, Admits, Tries};

use crate::closed::{Closed, close};
use crate::kept::kept_members;
use crate::tried::Tried;
use std::alloc::Global;
use wd_close::Prepared;
use wd_value::OutOfMemory;

/// How many facts a node keeps at most.
const MOST_KEPT: usize = 64;

/// What was tried at a node, and what of it is kept.
#[derive(Drop)]
struct Search {
    tried: Tried,
    claims: Vec<Closed>,
}

/// Keeps what columns determine, if they determine anything.
fn add_claim(
    alloc: Global,
    facts: &Prepared<'_>,
    width: u16,
    from: &[u16],
    claims: &mut Vec<Closed>,
) -> Result<(), OutOfMemory>
    requires admits { Admits facts.now width }
    requires low { AreBelow width from.now }
    ensures { IfOk result (λ _. Adds facts.now width from.now (map closing_of claims.old.items) (map closing_of claims.new.items)) }
{
    let closed = close(alloc, facts, from)?;
    let members = kept_members(alloc, &closed, width)?;
    if !members.is_empty() {
        claims.push(closed)?;
    }
    Ok(())
}

/// Tries columns, unless they were tried before or `MOST_KEPT` facts are kept.
fn try_columns(
    alloc: Global,
    facts: &Prepared<'_>,
    width: u16,
    from: &[u16],
    search: &mut Search,
) -> Result<(), OutOfMemory>
    requires admits { Admits facts.now width }
    requires low { AreBelow width from.now }
    ensures { IfOk result (λ _. Tries facts.now width from.now search.old.tried (map closing_of search.old.claims.items) search.new.tried (map closing_of search.new.claims.items)) }
{
    if search.claims.len() < MOST_KEPT && search.tried.insert(alloc, from)? {
        add_claim(alloc, facts, width, from, &mut search.claims)?;
    }
    Ok(())
}

/// What a node with these given facts keeps of what these columns determine.
pub(crate) fn claims_of(
    alloc: Global,
    facts: &Prepared<'_>,
    width: u16,
    sources: &[Vec<u16>],
) -> Result<Vec<Closed>, OutOfMemory>
    requires admits { Admits facts.now width }
    requires low { AllByRecursion (AreBelow width) (map vec_items sources.now) }
    ensures { IfOk result (λ v. Keeps facts.now width (map vec_items sources.now) (map closing_of v.items)) }
{
    let mut search = Search {
        tried: Tried::new(alloc),
        claims: Vec::new(alloc),
    };
    for source in sources {
        try_columns(alloc, facts, width, source, &mut search)?;
    }
    let Search { claims, .. } = search;
    Ok(claims)
}
