//! The JSON forms of a certificate's parts, as they are written.

ghost use Rattle.std.specs.Prelude.{◌≡◌, IfOk};
ghost use Rattle.serde_json.specs.View.{view};
ghost use Rattle.wd_certificate.specs.Certificates.{TraceRecord, KeptRecord, NodeRecord, trace_of, kept_of, node_of};
ghost use Rattle.wd_json.specs.Json.{optional_json};
ghost use Rattle.wd_certificate.specs.Json.{trace_json, target_json, kept_json, rule_json, node_members_json, node_json};
ghost use Rattle.wd_certificate.specs.declared.certificate.Target.{Target as SpecTarget};
ghost use Rattle.wd_certificate.specs.declared.certificate.Rule.{Rule as SpecRule};

use crate::certificate::{Kept, Node, PackedTarget, Rule, Target, Trace};
use serde_json::{Map, Value, json, put};
use std::alloc::Global;
use wd_json::{InJson, list_value, numbers_value};
use wd_value::OutOfMemory;

impl InJson for Trace {
    ghost Said = { TraceRecord };

    ghost said = { trace_of };

    ghost json = { trace_json };

    fn to_value(&self, alloc: Global) -> Result<Value, OutOfMemory> {
        let from = numbers_value(alloc, &self.from)?;
        let uses = numbers_value(alloc, &self.uses)?;
        Ok(json!(in alloc; {"from": from, "uses": uses})?)
    }
}

impl InJson for PackedTarget {
    ghost Said = { SpecTarget };

    ghost said = { λ t. t };

    ghost json = { target_json };

    fn to_value(&self, alloc: Global) -> Result<Value, OutOfMemory> {
        match self.target() {
            Target::Column(c) => Ok(Value::from(c)),
            Target::Row => Ok(Value::try_from_str(alloc, "row")?),
        }
    }
}

impl InJson for Kept {
    ghost Said = { KeptRecord };

    ghost said = { kept_of };

    ghost json = { kept_json };

    fn to_value(&self, alloc: Global) -> Result<Value, OutOfMemory> {
        let to = list_value(alloc, &self.to)?;
        Ok(json!(in alloc; {"to": to, "trace": self.trace})?)
    }
}

fn optional_value(number: Option<u64>) -> Value
    ensures { view result ≡ optional_json number }
{
    match number {
        Some(n) => Value::from(n),
        None => Value::Null,
    }
}

impl InJson for Rule {
    ghost Said = { SpecRule };

    ghost said = { λ r. r };

    ghost json = { rule_json };

    fn to_value(&self, alloc: Global) -> Result<Value, OutOfMemory> {
        let (word, trace) = match *self {
            Rule::Peers => ("peers", None),
            Rule::Unique(t) => ("unique", Some(t)),
            Rule::Values(t) => ("values", Some(t)),
            Rule::Exchange(t) => ("exchange", Some(t)),
        };
        let trace = optional_value(trace);
        Ok(json!(in alloc; {"rule": word, "trace": trace})?)
    }
}

fn node_members_value(
    alloc: Global,
    calls: Value,
    keep: Value,
    limit: Value,
    traces: Value,
) -> Result<Value, OutOfMemory>
    ensures { IfOk result (λ v. view v ≡ node_members_json (view calls) (view keep) (view limit) (view traces)) }
{
    let mut map = Map::new(alloc);
    put(&mut map, alloc, "calls", calls)?;
    put(&mut map, alloc, "keep", keep)?;
    put(&mut map, alloc, "limit", limit)?;
    put(&mut map, alloc, "traces", traces)?;
    Ok(Value::Object(map))
}

impl InJson for Node {
    ghost Said = { NodeRecord };

    ghost said = { node_of };

    ghost json = { node_json };

    fn to_value(&self, alloc: Global) -> Result<Value, OutOfMemory> {
        let calls = list_value(alloc, &self.calls)?;
        let keep = list_value(alloc, &self.keep)?;
        let limit = optional_value(self.limit);
        let traces = list_value(alloc, &self.traces)?;
        node_members_value(alloc, calls, keep, limit, traces)
    }
}
