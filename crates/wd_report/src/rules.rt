//! The rules of a plan's calls and limits.

ghost use Rattle.std.specs.Prelude.{◌≡◌, option_map, slice_get, IfOk};
ghost use Rattle.wd_analyse.specs.Findings.{name_of};
ghost use Rattle.wd_certificate.specs.Certificates.{nodes_of};
ghost use Rattle.wd_plan.specs.Plans.{limit_of};
ghost use Rattle.wd_rules.specs.Validity.{entry_at};
ghost use Rattle.wd_report.specs.Marks.{HasRules, marks_in};
ghost use Rattle.wd_report.specs.Plans as spec;

use crate::marks::MarkedRules;
use std::alloc::Global;
use wd_analyse::{Analysis, RuleName};
use wd_certificate::Certificate;
use wd_plan::Limit;
use wd_value::OutOfMemory;

/// The findings on a plan, with the rules of its marks.
#[derive(Drop)]
pub(crate) struct Rules<'a> {
    pub(crate) analysis: &'a Analysis,
    marked: MarkedRules,

    ghost has_rules: { HasRules (marks_in analysis.now) marked },
}

impl<'a> Rules<'a> {
    /// The rules of an analysis.
    pub(crate) fn new(alloc: Global, analysis: &'a Analysis) -> Result<Rules<'a>, OutOfMemory>
        ensures { IfOk result (λ r. r.analysis.now ≡ analysis.now) }
    {
        let marked = marked_rules(alloc, analysis)?;
        Ok(Rules { analysis, marked })
    }

    /// The rule of a node's call.
    pub(crate) fn of_call(&self, node: u64, call: u32) -> Option<RuleName>
        ensures { result ≡ spec.call_rule self.now.analysis.now node call }
    {
        match self.analysis {
            Analysis::Certified(certificate) => certified_call(certificate, node, call),
            Analysis::Open(_, _) => self.marked.get(node, Some(call)),
        }
    }

    /// The rule of a node that is a Limit.
    pub(crate) fn of_limit(&self, node: u64, limit: &Limit) -> Option<RuleName>
        ensures { result ≡ spec.limit_rule self.now.analysis.now node (limit_of limit.now) }
    {
        match self.analysis {
            Analysis::Certified(certificate) => {
                Some(limit_name(limit, certified_limit(certificate, node)))
            }
            Analysis::Open(_, _) => self.marked.get(node, None),
        }
    }
}

/// The rules of an analysis's marks.
fn marked_rules(alloc: Global, analysis: &Analysis) -> Result<MarkedRules, OutOfMemory>
    ensures { IfOk result (HasRules (marks_in analysis.now)) }
{
    match analysis {
        Analysis::Certified(_) => MarkedRules::new(alloc, &[]),
        Analysis::Open(_, marks) => MarkedRules::new(alloc, marks),
    }
}

/// The rule of a node's call in a certificate.
fn certified_call(certificate: &Certificate, node: u64, call: u32) -> Option<RuleName>
    ensures { result ≡ option_map name_of (slice_get (entry_at (nodes_of certificate.now) node).calls call) }
{
    let entry = certificate.nodes.get(node as usize)?;
    let rule = entry.calls.get(call as usize)?;
    Some(RuleName::of(*rule))
}

/// The trace of a node's limit in a certificate.
fn certified_limit(certificate: &Certificate, node: u64) -> Option<u64>
    ensures { result ≡ (entry_at (nodes_of certificate.now) node).limit }
{
    certificate.nodes.get(node as usize)?.limit
}

/// The name of a limit's rule, by its trace.
fn limit_name(limit: &Limit, trace: Option<u64>) -> RuleName
    ensures { result ≡ spec.limit_name (limit_of limit.now) trace }
{
    match trace {
        Some(_) => RuleName::Keys,
        None => {
            if limit.count.is_some() {
                RuleName::Ties
            } else {
                RuleName::Whole
            }
        }
    }
}
