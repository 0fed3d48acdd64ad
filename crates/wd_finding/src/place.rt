//! What is open in a query, and where it is.

ghost use Rattle.std.specs.Prelude.{◌≡◌, map, IfOk};
ghost use Rattle.wd_finding.specs.Findings.{reason_of};

use std::alloc::Global;
use wd_analyse::Reason;
use wd_lex::lex;
use wd_plan::Plan;
use wd_sites::{PlanSite, Site, sites};
use wd_value::OutOfMemory;

/// A window call or a limit for which no rule is known, and where it is written first, if that is found.
#[derive(Clone, Copy)]
pub struct OpenPlace {
    pub reason: Reason,
    pub site: Option<Site>,
}

/// The places of what is open in the plan of a query's text.
pub(crate) fn places(
    alloc: Global,
    query: &[u8],
    plan: &Plan,
    reasons: &[Reason],
) -> Result<Vec<OpenPlace>, OutOfMemory>
    ensures { IfOk result (λ found. map reason_of found.items ≡ reasons.now) }
{
    let sites = match lex(alloc, query) {
        Ok(tokens) => sites(alloc, &tokens, plan)?,
        Err(_) => Vec::new(alloc),
    };
    let mut found = Vec::with_capacity(alloc, reasons.len())?;
    for reason in reasons {
        found.push(OpenPlace {
            reason: *reason,
            site: site_of(&sites, *reason),
        })?;
    }
    Ok(found)
}

/// The first site of a call or a limit.
fn site_of(sites: &[PlanSite], reason: Reason) -> Option<Site> {
    for found in sites {
        if found.node == reason.node && found.call == reason.call {
            return Some(found.site);
        }
    }
    None
}
