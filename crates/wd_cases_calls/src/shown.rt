//! What calls give, as a line shows it.
use std::alloc::Global;
use wd_analyse::{Analysis, Lack, Mark, Reason, RuleName};
use wd_cases::{Failure, in_one_line};
use wd_cert::Certificate;
use wd_witness::Witness;

/// The certificate's text.
pub fn certificate_shown(alloc: Global, certificate: &Certificate) -> Result<String, Failure> {
    let text = certificate.to_json(alloc)?;
    in_one_line(alloc, &text)
}

/// The witness's text.
pub fn witness_shown(alloc: Global, witness: &Witness) -> Result<String, Failure> {
    let text = witness.to_json(alloc)?;
    in_one_line(alloc, &text)
}

/// `certified CERTIFICATE`, or `open` with the reasons and the marks.
pub fn analysis_shown(alloc: Global, analysis: &Analysis) -> Result<String, Failure> {
    match analysis {
        Analysis::Certified(certificate) => {
            let text = certificate_shown(alloc, certificate)?;
            Ok(format!(in alloc; "certified {text}")?)
        }
        Analysis::Open(reasons, marks) => {
            let reasons = reasons_shown(alloc, reasons)?;
            let marks = marks_shown(alloc, marks)?;
            Ok(format!(in alloc; "open{reasons}{marks}")?)
        }
    }
}

/// Each reason with a blank before it: ` NODE.CALL lacks WHAT`, of a limit without the call.
pub fn reasons_shown(alloc: Global, reasons: &[Reason]) -> Result<String, Failure> {
    let mut out = String::new(alloc);
    for reason in reasons {
        push_at(&mut out, reason.node, reason.call)?;
        out.push_str(" lacks ")?;
        push_lack(alloc, &mut out, reason.lack)?;
    }
    Ok(out)
}

fn push_at(out: &mut String, node: u64, call: Option<u32>) -> Result<(), Failure> {
    let written = match call {
        Some(call) => write!(out, " {node}.{call}"),
        None => write!(out, " {node}"),
    };
    written.map_err(|_| Failure::OUT_OF_MEMORY)
}

fn push_lack(alloc: Global, out: &mut String, lack: Lack) -> Result<(), Failure> {
    let lack = match lack {
        Lack::SecondClass => String::from_str(alloc, "a second class")?,
        Lack::Column(column) => format!(in alloc; "column {column}")?,
        Lack::Row => String::from_str(alloc, "the row")?,
    };
    Ok(out.push_str(lack.as_str())?)
}

/// Each mark with a blank before it: ` NODE.CALL by RULE`, of a limit without the call.
fn marks_shown(alloc: Global, marks: &[Mark]) -> Result<String, Failure> {
    let mut out = String::new(alloc);
    for mark in marks {
        push_at(&mut out, mark.node, mark.call)?;
        out.push_str(" by ")?;
        out.push_str(rule_word(mark.rule))?;
    }
    Ok(out)
}

fn rule_word(rule: RuleName) -> &'static str {
    match rule {
        RuleName::Peers => "peers",
        RuleName::Unique => "unique",
        RuleName::Values => "values",
        RuleName::Exchange => "exchange",
        RuleName::Whole => "whole",
        RuleName::Ties => "ties",
        RuleName::Keys => "keys",
    }
}
