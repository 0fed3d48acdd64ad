//! A line of a baseline.

ghost use Rattle.std.specs.Prelude.{◌≡◌, ◌≢◌, IfOk, IfErr};
ghost use Rattle.std.specs.String.{string_bytes};
ghost use Rattle.serde_json.specs.Data.{Data};
ghost use Rattle.serde_json.specs.View.{view};
ghost use Rattle.wd_json.specs.Json.{IsJsonOf};
ghost use Rattle.wd_json.specs.declared.misread.Misread.TheVariants as misread;
ghost use Rattle.wd_baseline.specs.Findings.{FindingRecord, finding_json, finding_text, members_json, said, version_json, word_json};
ghost use Rattle.wd_baseline.specs.declared.known.Finding.{Finding as SpecFinding};

use crate::known::{Finding, Known};
use serde_json::Value;
use std::alloc::Global;
use wd_json::{Misread, next_member, no_more_members, number, object, text};

/// The JSON value that bytes spell.
fn value_of(alloc: Global, bytes: &[u8]) -> Result<Value, Misread>
    ensures ok { IfOk result (λ v. IsJsonOf (view v) bytes.now) }
    ensures refused { IfErr result (λ e. e ≡ misread.Shape → (d : Data) → ¬ IsJsonOf d bytes.now) }
{
    match Value::from_slice(alloc, bytes) {
        Ok(value) => Ok(value),
        Err(e) => {
            if e.is_memory() {
                Err(Misread::OutOfMemory)
            } else {
                Err(Misread::Shape)
            }
        }
    }
}

/// The values of a finding's three members.
#[derive(Clone, Copy)]
struct Members<'v> {
    finding: &'v Value,
    path: &'v Value,
    place: &'v Value,
}

/// The members of an object that has these three and no other.
fn members_of<'v>(value: &'v Value) -> Result<Members<'v>, Misread>
    ensures ok { IfOk result (λ m. view value.now ≡ members_json (view m.finding.now) (view m.path.now) (view m.place.now)) }
    ensures refused { IfErr result (λ e. (a b c : Data) → view value.now ≢ members_json a b c) }
{
    let mut members = object(value)?.iter();
    let finding = next_member(&mut members, "finding")?;
    let path = next_member(&mut members, "path")?;
    let place = next_member(&mut members, "place")?;
    no_more_members(&mut members)?;
    Ok(Members {
        finding,
        path,
        place,
    })
}

/// The finding of a word's value.
fn finding_in(value: &Value) -> Result<Finding, Misread>
    ensures ok { IfOk result (λ f. view value.now ≡ word_json f) }
    ensures refused { IfErr result (λ e. (f : SpecFinding) → view value.now ≢ word_json f) }
{
    match Finding::of_word(text(value)?) {
        Some(finding) => Ok(finding),
        None => Err(Misread::Shape),
    }
}

/// The finding that a JSON value is.
fn read_known(value: &Value) -> Result<Known<'_, '_>, Misread>
    ensures ok { IfOk result (λ k. view value.now ≡ finding_json (said k)) }
    ensures refused { IfErr result (λ e. (f : FindingRecord) → view value.now ≢ finding_json f) }
{
    let members = members_of(value)?;
    let finding = finding_in(members.finding)?;
    let path = text(members.path)?;
    let place = text(members.place)?;
    Ok(Known {
        finding,
        path,
        place,
    })
}

/// The line of the finding that a line spells, whatever its white space and the order of its members.
pub(crate) fn line_of(alloc: Global, line: &[u8]) -> Result<String, Misread>
    ensures ok { IfOk result (λ s. (f : FindingRecord) × IsJsonOf (finding_json f) line.now × (string_bytes s ≡ finding_text f)) }
    ensures refused { IfErr result (λ e. e ≡ misread.Shape → (f : FindingRecord) → ¬ IsJsonOf (finding_json f) line.now) }
{
    let value = value_of(alloc, line)?;
    let known = read_known(&value)?;
    Ok(known.line(alloc)?)
}

/// Whether a JSON value is the version that is read.
fn version_in(value: &Value) -> Result<(), Misread>
    ensures ok { IfOk result (λ _. view value.now ≡ version_json) }
    ensures refused { IfErr result (λ e. view value.now ≢ version_json) }
{
    let mut members = object(value)?.iter();
    let version = number(next_member(&mut members, "version")?)?;
    no_more_members(&mut members)?;
    if version == 1 {
        Ok(())
    } else {
        Err(Misread::Shape)
    }
}

/// Reads the line of the version.
pub(crate) fn read_version(alloc: Global, line: &[u8]) -> Result<(), Misread>
    ensures ok { IfOk result (λ _. IsJsonOf version_json line.now) }
    ensures refused { IfErr result (λ e. e ≡ misread.Shape → ¬ IsJsonOf version_json line.now) }
{
    let value = value_of(alloc, line)?;
    version_in(&value)
}
