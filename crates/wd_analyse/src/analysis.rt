//! What the analysis of a plan answers.

ghost use Rattle.std.specs.Prelude.{◌≡◌};
ghost use Rattle.wd_analyse.specs.Findings.{name_of};

use crate::decided::Lack;
use wd_certificate::{Certificate, Rule};

/// Why a call or a limit is open.
#[derive(Clone, Copy)]
pub struct Reason {
    /// The node's number in postorder.
    pub node: u64,
    /// The call's number in its Window; none at a Limit.
    pub call: Option<u32>,
    pub lack: Lack,
}

/// The rules of calls and of limits.
#[derive(Clone, Copy)]
pub enum RuleName {
    Peers,
    Unique,
    Values,
    Exchange,
    Whole,
    Ties,
    Keys,
}

impl RuleName {
    /// The name of a call's rule.
    pub fn of(rule: Rule) -> RuleName
        ensures { result ≡ name_of rule }
    {
        match rule {
            Rule::Peers => RuleName::Peers,
            Rule::Unique(_) => RuleName::Unique,
            Rule::Values(_) => RuleName::Values,
            Rule::Exchange(_) => RuleName::Exchange,
        }
    }
}

/// The rule that justifies a call or a limit.
#[derive(Clone, Copy)]
pub struct Mark {
    /// The node's number in postorder.
    pub node: u64,
    /// The call's number in its Window; none at a Limit.
    pub call: Option<u32>,
    pub rule: RuleName,
}

/// What is found of a plan.
#[derive(Drop)]
pub enum Analysis {
    /// Each call and each limit is justified.
    Certified(Certificate),
    /// Why some are not, and the rules of the others, each list in postorder.
    Open(Vec<Reason>, Vec<Mark>),
}
