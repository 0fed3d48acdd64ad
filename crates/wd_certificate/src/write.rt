//! A certificate's text.

ghost use Rattle.std.specs.Prelude.{◌≡◌, IfOk};
ghost use Rattle.serde_json.specs.View.{view};
ghost use Rattle.wd_certificate.specs.Certificates.{certificate_of, nodes_of};
ghost use Rattle.wd_certificate.specs.Json.{certificate_json, certificate_text, Spells, version_number};

use crate::certificate::{Certificate, Version};
use serde_json::{Value, json};
use std::alloc::Global;
use wd_json::list_value;
use wd_value::OutOfMemory;

impl Version {
    /// The number that a certificate's text has for its version.
    pub fn number(self) -> u64
        ensures { result ≡ version_number self }
    {
        match self {
            Version::One => 1,
            Version::Two => 2,
        }
    }
}

fn certificate_value(alloc: Global, certificate: &Certificate) -> Result<Value, OutOfMemory>
    ensures { IfOk result (λ v. view v ≡ certificate_json (version_number certificate.now.version) (nodes_of certificate.now)) }
{
    let nodes = list_value(alloc, &certificate.nodes)?;
    let version = certificate.version.number();
    Ok(json!(in alloc; {"nodes": nodes, "version": version})?)
}

impl Certificate {
    /// The certificate's text: JSON without white space, members in alphabetical order, its
    /// numbers in digits. `from_json` reads it back. Refused only where memory runs out.
    pub fn to_json(&self, alloc: Global) -> Result<Vec<u8>, OutOfMemory>
        ensures text { IfOk result (λ b. b.items ≡ certificate_text (certificate_of self.now)) }
        ensures spells { IfOk result (λ b. Spells (certificate_of self.now) b.items) }
    {
        let value = certificate_value(alloc, self)?;
        Ok(value.to_vec(alloc)?)
    }
}
