//! What a lock has of a statement.

ghost use Rattle.std.specs.Prelude.{◌≡◌, true, false, Option, IfOk, IfErr};
ghost use Rattle.serde_json.specs.Data.{null};
ghost use Rattle.serde_json.specs.Written.{compact_text};
ghost use Rattle.wd_certificate.specs.Certificates.{CertificateRecord, certificate_of};
ghost use Rattle.wd_certificate.specs.Json.{Spells};
ghost use Rattle.wd_json.specs.Json.{IsJsonOf};
ghost use Rattle.wd_json.specs.declared.misread.Misread.TheVariants as misread;
ghost use Rattle.wd_lock.specs.Locks.{entry_json, entry_of};

use serde_json::Value;
use std::alloc::Global;
use wd_certificate::laws::is_read_back;
use wd_certificate::{CertError, Certificate, from_json};
use wd_json::Misread;
use wd_json_lines::InLine;
use wd_value::OutOfMemory;

/// What a lock has of a statement.
#[derive(Drop)]
pub enum Entry {
    /// No certificate was found for it.
    Open,
    Certified(Certificate),
}

impl InLine for Entry {
    ghost Said = { Option CertificateRecord };

    ghost said = { entry_of };

    ghost json = { entry_json };

    fn from_line(alloc: Global, line: &[u8]) -> Result<Entry, Misread> {
        if is_null(alloc, line)? {
            return Ok(Entry::Open);
        }
        Ok(Entry::Certified(certificate_in(alloc, line)?))
    }

    fn to_line(&self, alloc: Global) -> Result<Vec<u8>, OutOfMemory> {
        match self {
            Entry::Open => null_line(alloc),
            Entry::Certified(certificate) => certificate.to_json(alloc),
        }
    }
}

/// Whether bytes are JSON of null.
fn is_null(alloc: Global, line: &[u8]) -> Result<bool, Misread>
    ensures yes { IfOk result (λ is. is ≡ true → IsJsonOf null line.now) }
    ensures no { IfOk result (λ is. is ≡ false → ¬ IsJsonOf null line.now) }
    ensures refused { IfErr result (λ e. e ≡ misread.OutOfMemory) }
{
    match Value::from_slice(alloc, line) {
        Ok(Value::Null) => Ok(true),
        Ok(_) => Ok(false),
        Err(error) => if error.is_memory() {
            Err(Misread::OutOfMemory)
        } else {
            Ok(false)
        },
    }
}

/// The certificate that bytes spell.
fn certificate_in(alloc: Global, line: &[u8]) -> Result<Certificate, Misread>
    ensures ok { IfOk result (λ c. Spells (certificate_of c) line.now) }
    ensures refused { IfErr result (λ e. e ≡ misread.Shape → (c : CertificateRecord) → ¬ Spells c line.now) }
{
    is_read_back();
    match from_json(alloc, line) {
        Ok(certificate) => Ok(certificate),
        Err(CertError::OutOfMemory) => Err(Misread::OutOfMemory),
        Err(_) => Err(Misread::Shape),
    }
}

/// The line of no certificate.
fn null_line(alloc: Global) -> Result<Vec<u8>, OutOfMemory>
    ensures text { IfOk result (λ b. b.items ≡ compact_text null) }
    ensures spells { IfOk result (λ b. IsJsonOf null b.items) }
{
    let value = Value::Null;
    Ok(value.to_vec(alloc)?)
}
