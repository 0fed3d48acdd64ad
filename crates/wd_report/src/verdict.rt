//! What is printed of a verdict.

ghost use Rattle.std.specs.Prelude.{◌≡◌, ◌++◌, codes, flat_map, IfOk};
ghost use Rattle.std.specs.String.{string_bytes};
ghost use Rattle.wd_certificate.specs.Certificates.{certificate_of};
ghost use Rattle.wd_certificate.specs.Json.{certificate_text};
ghost use Rattle.wd_witness_text.specs.Json.{witness_text};
ghost use Rattle.wd_witness_text.specs.Witnesses.{witness_of};
ghost use Rattle.wd_report.specs.Verdicts as spec;
ghost use Rattle.wd_report.specs.Words.{lack_words, line, order_words, place_words, verdict_word};

use std::alloc::Global;
use std::fmt::Write;
use wd_analyse::{Lack, Reason};
use wd_certificate::Certificate;
use wd_decide::{ListReason, ListVerdict, Verdict};
use wd_value::OutOfMemory;
use wd_witness_text::Witness;

/// What is printed on standard output, and the exit status.
#[derive(Drop)]
pub struct Output {
    pub text: Vec<u8>,
    pub status: u8,
}

/// The verdict's word on a line, then the certificate on a line, the witness on a line, or the reasons, one a line; status 0 for
/// `DETERMINISTIC`, 1 for `DEPENDS`, 2 for `UNKNOWN`.
pub fn report(alloc: Global, verdict: &Verdict) -> Result<Output, OutOfMemory>
    ensures text { IfOk result (λ r. r.text.items ≡ spec.verdict_text verdict.now) }
    ensures status { IfOk result (λ r. r.status ≡ spec.verdict_status verdict.now) }
{
    let status = verdict_status(verdict);
    let text = match verdict {
        Verdict::Deterministic(certificate) => certified_text(alloc, certificate)?,
        Verdict::Depends(witness) => refuted_text(alloc, witness)?,
        Verdict::Unknown(reasons) => unknown(alloc, reasons)?,
    };
    Ok(Output { text, status })
}

/// The word of a verdict on a list on a line, then the certificate on a line, why the order is open, the witness on a line, or the
/// reasons, one a line; status 0 for `LISTED`, 1 for `DEPENDS`, 2 for `LIST OPEN` and `UNKNOWN`.
pub fn report_list(alloc: Global, verdict: &ListVerdict) -> Result<Output, OutOfMemory>
    ensures text { IfOk result (λ r. r.text.items ≡ spec.list_text verdict.now) }
    ensures status { IfOk result (λ r. r.status ≡ spec.list_status verdict.now) }
{
    let status = list_status(verdict);
    let text = match verdict {
        ListVerdict::Listed(certificate) => listed_text(alloc, certificate)?,
        ListVerdict::Unlisted(reason) => unlisted_text(alloc, *reason)?,
        ListVerdict::Depends(witness) => refuted_text(alloc, witness)?,
        ListVerdict::Unknown(reasons) => unknown(alloc, reasons)?,
    };
    Ok(Output { text, status })
}

/// The exit status for a verdict on a list.
fn list_status(verdict: &ListVerdict) -> u8
    ensures { result ≡ spec.list_status verdict.now }
{
    match verdict {
        ListVerdict::Listed(_) => 0,
        ListVerdict::Depends(_) => 1,
        ListVerdict::Unlisted(_) | ListVerdict::Unknown(_) => 2,
    }
}

/// The exit status for a verdict.
pub(crate) fn verdict_status(verdict: &Verdict) -> u8
    ensures { result ≡ spec.verdict_status verdict.now }
{
    match verdict {
        Verdict::Deterministic(_) => 0,
        Verdict::Depends(_) => 1,
        Verdict::Unknown(_) => 2,
    }
}

/// A verdict's word.
pub(crate) fn verdict_word(verdict: &Verdict) -> &'static str
    ensures { result.now ≡ verdict_word verdict.now }
{
    match verdict {
        Verdict::Deterministic(_) => "DETERMINISTIC",
        Verdict::Depends(_) => "DEPENDS",
        Verdict::Unknown(_) => "UNKNOWN",
    }
}

/// What is printed of a verdict with this certificate.
fn certified_text(alloc: Global, certificate: &Certificate) -> Result<Vec<u8>, OutOfMemory>
    ensures { IfOk result (λ t. t.items ≡ line (codes "DETERMINISTIC") ++ line (certificate_text (certificate_of certificate.now))) }
{
    let certificate = certificate.to_json(alloc)?;
    with_evidence(alloc, b"DETERMINISTIC\n", &certificate)
}

/// What is printed of a list's verdict with this certificate.
fn listed_text(alloc: Global, certificate: &Certificate) -> Result<Vec<u8>, OutOfMemory>
    ensures { IfOk result (λ t. t.items ≡ line (codes "LISTED") ++ line (certificate_text (certificate_of certificate.now))) }
{
    let certificate = certificate.to_json(alloc)?;
    with_evidence(alloc, b"LISTED\n", &certificate)
}

/// What is printed where the order of the answer's rows is open.
fn unlisted_text(alloc: Global, reason: ListReason) -> Result<Vec<u8>, OutOfMemory>
    ensures { IfOk result (λ t. t.items ≡ line (codes "LIST OPEN") ++ line (order_words reason)) }
{
    let mut text = String::from_str(alloc, "LIST OPEN\n")?;
    add_order(&mut text, reason)?;
    text.push('\n')?;
    Ok(text.into_bytes())
}

/// Adds the reason why the order is open.
fn add_order(text: &mut String, reason: ListReason) -> Result<(), OutOfMemory>
    ensures { IfOk result (λ _. string_bytes text.new ≡ string_bytes text.old ++ order_words reason) }
{
    match reason {
        ListReason::NoOrder => Ok(text.push_str("list: no final order")?),
        ListReason::Column { node, column } => Ok(write!(
            text,
            "node {node} list: keys do not give column {column}"
        )?),
    }
}

/// What is printed of a verdict with this witness.
fn refuted_text(alloc: Global, witness: &Witness) -> Result<Vec<u8>, OutOfMemory>
    ensures { IfOk result (λ t. t.items ≡ line (codes "DEPENDS") ++ line (witness_text (witness_of witness.now))) }
{
    let witness = witness.to_json(alloc)?;
    with_evidence(alloc, b"DEPENDS\n", &witness)
}

/// The line of a word, and on the next line the evidence.
fn with_evidence(alloc: Global, word: &[u8], evidence: &[u8]) -> Result<Vec<u8>, OutOfMemory>
    ensures { IfOk result (λ t. t.items ≡ word.now ++ line evidence.now) }
{
    let mut text = Vec::from_slice(alloc, word)?;
    text.extend_from_slice(evidence)?;
    text.push(b'\n')?;
    Ok(text)
}

/// What is printed of a verdict with these reasons.
fn unknown(alloc: Global, reasons: &[Reason]) -> Result<Vec<u8>, OutOfMemory>
    ensures { IfOk result (λ t. t.items ≡ line (codes "UNKNOWN") ++ flat_map spec.reason_line reasons.now) }
{
    let mut text = String::from_str(alloc, "UNKNOWN\n")?;
    add_reasons(&mut text, reasons)?;
    Ok(text.into_bytes())
}

/// Adds a line for each reason.
fn add_reasons(text: &mut String, reasons: &[Reason]) -> Result<(), OutOfMemory>
    ensures { IfOk result (λ _. string_bytes text.new ≡ string_bytes text.old ++ flat_map spec.reason_line reasons.now) }
{
    for reason in reasons {
        add_reason(text, reason)?;
    }
    Ok(())
}

/// Adds a reason's line.
fn add_reason(text: &mut String, reason: &Reason) -> Result<(), OutOfMemory>
    ensures { IfOk result (λ _. string_bytes text.new ≡ string_bytes text.old ++ spec.reason_line reason.now) }
{
    add_place(text, reason.node, reason.call)?;
    text.push_str(": ")?;
    add_lack(text, reason.lack)?;
    Ok(text.push('\n')?)
}

/// Adds the words of a call of a node, or of its limit.
fn add_place(text: &mut String, node: u64, call: Option<u32>) -> Result<(), OutOfMemory>
    ensures { IfOk result (λ _. string_bytes text.new ≡ string_bytes text.old ++ place_words node call) }
{
    match call {
        Some(call) => Ok(write!(text, "node {node} call {call}")?),
        None => Ok(write!(text, "node {node} limit")?),
    }
}

/// Adds what a call or a limit lacks.
fn add_lack(text: &mut String, lack: Lack) -> Result<(), OutOfMemory>
    ensures { IfOk result (λ _. string_bytes text.new ≡ string_bytes text.old ++ lack_words lack) }
{
    match lack {
        Lack::SecondClass => Ok(text.push_str("second exchange class")?),
        Lack::Column(column) => Ok(write!(text, "keys do not give column {column}")?),
        Lack::Row => Ok(text.push_str("keys do not give the row")?),
    }
}
