//! The rules of marks, by node and call.

ghost use Rattle.std.specs.Prelude.{◌≡◌, IfOk};
ghost use Rattle.wd_report.specs.Marks.{HasRules, rule_in};

use indexmap::IndexMap;
use std::alloc::Global;
use wd_analyse::{Mark, RuleName};
use wd_value::OutOfMemory;

/// The rules of marks, by the node and the call of each; a limit has no call.
#[derive(Drop)]
pub(crate) struct MarkedRules {
    rules: IndexMap<(u64, Option<u32>), RuleName>,
}

impl MarkedRules {
    /// The rules of these marks. Of several marks of one node and call, the first counts.
    pub(crate) fn new(alloc: Global, marks: &[Mark]) -> Result<MarkedRules, OutOfMemory>
        ensures { IfOk result (HasRules marks.now) }
    {
        let mut rules = IndexMap::new(alloc);
        for mark in marks.iter().rev() {
            rules.insert((mark.node, mark.call), mark.rule)?;
        }
        Ok(MarkedRules { rules })
    }

    /// The rule of a call or a limit.
    pub(crate) fn get(&self, node: u64, call: Option<u32>) -> Option<RuleName>
        ensures { result ≡ rule_in self.now node call }
    {
        self.rules.get(&(node, call)).copied()
    }
}
