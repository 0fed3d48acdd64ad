//! The parts of a JSON value: its members one after another, numbers and texts.

ghost use Rattle.std.specs.Prelude.{◌≡◌, ◌≢◌, ℕ, List, IfOk, IfErr};
ghost use Rattle.serde_json.specs.Data.{Data, Members, string, object, member, no_members};
ghost use Rattle.serde_json.specs.View.{view, members_view};
ghost use Rattle.wd_json.specs.Json.{number_json};

use crate::misread::Misread;
use serde_json::{Map, Value};
use std::collections::btree_map;

/// The value of the next member, which must have this name; refused where there is no member or another one. Members come in the order
/// of their names, each once, whatever their order in the text.
pub fn next_member<'v>(
    members: &mut btree_map::Iter<'v, String, Value>,
    name: &str,
) -> Result<&'v Value, Misread>
    ensures ok { IfOk result (λ v. members_view members.old ≡ member name.now (view v.now) (members_view members.new)) }
    ensures refused { IfErr result (λ e. (d : Data) (ms : Members) → members_view members.old ≢ member name.now d ms) }
{
    match members.next() {
        Some((key, value)) => {
            if key.as_str() == name {
                Ok(value)
            } else {
                Err(Misread::Shape)
            }
        }
        None => Err(Misread::Shape),
    }
}

pub fn no_more_members(members: &mut btree_map::Iter<'_, String, Value>) -> Result<(), Misread>
    ensures ok { IfOk result (λ _. members_view members.old ≡ no_members) }
    ensures refused { IfErr result (λ e. members_view members.old ≢ no_members) }
{
    match members.next() {
        Some(_) => Err(Misread::Shape),
        None => Ok(()),
    }
}

pub fn object<'v>(value: &'v Value) -> Result<&'v Map<String, Value>, Misread>
    ensures ok { IfOk result (λ m. view value.now ≡ object (members_view m.now.entries)) }
    ensures refused { IfErr result (λ e. (ms : Members) → view value.now ≢ object ms) }
{
    match value {
        Value::Object(map) => Ok(map),
        _ => Err(Misread::Shape),
    }
}

/// A whole number below 2^64, written without a fraction or an exponent; any other value is refused.
pub fn number(value: &Value) -> Result<u64, Misread>
    ensures ok { IfOk result (λ n. view value.now ≡ number_json n) }
    ensures refused { IfErr result (λ e. (n : ℕ) → view value.now ≢ number_json n) }
{
    match value.as_u64() {
        Some(n) => Ok(n),
        None => Err(Misread::Shape),
    }
}

pub fn text<'v>(value: &'v Value) -> Result<&'v str, Misread>
    ensures ok { IfOk result (λ s. view value.now ≡ string s.now) }
    ensures refused { IfErr result (λ e. (s : List ℕ) → view value.now ≢ string s) }
{
    match value {
        Value::String(text) => Ok(text.as_str()),
        _ => Err(Misread::Shape),
    }
}
