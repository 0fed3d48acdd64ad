//! The parts of a certificate from a text's tokens.

ghost use Rattle.std.specs.Prelude.{◌≡◌, ◌≢◌, None, IfSome};
ghost use Rattle.wd_certificate.specs.Certificates.{TraceRecord, KeptRecord, trace_of, kept_of};
ghost use Rattle.wd_certificate.specs.Json.{trace_json, target_json, kept_json, rule_json, rule_word, rule_trace};
ghost use Rattle.wd_certificate.specs.declared.certificate.Target.{Target as SpecTarget};
ghost use Rattle.wd_certificate.specs.declared.certificate.Rule.{Rule as SpecRule};

use crate::certificate::{Kept, PackedTarget, Rule, Target, Trace};
use json::Reader;
use std::alloc::Global;
use wd_json_tokens::{FromTokens, Top, Unread, read_pair, take_top};

impl FromTokens for Trace {
    ghost Said = { TraceRecord };

    ghost said = { trace_of };

    ghost json = { trace_json };

    fn read(alloc: Global, reader: &mut Reader<'_>, depth: usize) -> Result<Option<Trace>, Unread> {
        match read_pair(alloc, reader, depth, "from", "uses")? {
            Some((from, uses)) => Ok(Some(Trace { from, uses })),
            None => Ok(None),
        }
    }
}

impl FromTokens for PackedTarget {
    ghost Said = { SpecTarget };

    ghost said = { λ t. t };

    ghost json = { target_json };

    fn read(
        _alloc: Global,
        reader: &mut Reader<'_>,
        depth: usize,
    ) -> Result<Option<PackedTarget>, Unread> {
        let target = match take_top(reader, depth)? {
            Top::Number(number) => number.as_u64().map(Target::Column),
            Top::Text("row") => Some(Target::Row),
            _ => None,
        };
        Ok(target.map(PackedTarget::new))
    }
}

impl FromTokens for Kept {
    ghost Said = { KeptRecord };

    ghost said = { kept_of };

    ghost json = { kept_json };

    fn read(alloc: Global, reader: &mut Reader<'_>, depth: usize) -> Result<Option<Kept>, Unread> {
        match read_pair(alloc, reader, depth, "to", "trace")? {
            Some((to, trace)) => Ok(Some(Kept { to, trace })),
            None => Ok(None),
        }
    }
}

/// The rule with this word and this trace; only `peers` has no trace.
fn rule_of_word(word: &str, trace: Option<u64>) -> Option<Rule>
    ensures some { IfSome result (λ r. (word.now ≡ rule_word r) × (trace ≡ rule_trace r)) }
    ensures none { result ≡ None → (r : SpecRule) → word.now ≡ rule_word r → trace ≢ rule_trace r }
{
    match (word, trace) {
        ("peers", None) => Some(Rule::Peers),
        ("unique", Some(t)) => Some(Rule::Unique(t)),
        ("values", Some(t)) => Some(Rule::Values(t)),
        ("exchange", Some(t)) => Some(Rule::Exchange(t)),
        _ => None,
    }
}

impl FromTokens for Rule {
    ghost Said = { SpecRule };

    ghost said = { λ r. r };

    ghost json = { rule_json };

    fn read(alloc: Global, reader: &mut Reader<'_>, depth: usize) -> Result<Option<Rule>, Unread> {
        let members: Option<(String, Option<u64>)> = read_pair(
            alloc, reader, depth, "rule", "trace",
        )?;
        match members {
            Some((word, trace)) => Ok(rule_of_word(word.as_str(), trace)),
            None => Ok(None),
        }
    }
}
