//! A certificate from its text, and back.
use crate::refusal::failure_of;
use std::alloc::Global;
use wd_cases::{Failure, in_one_line, unescape};
use wd_cert::{Certificate, from_json};
use wd_certificate::laws;

fn read_certificate(alloc: Global, text: &str) -> Result<Certificate, Failure> {
    let text = unescape(alloc, text)?;
    from_json(alloc, &text).map_err(|error| failure_of(&error))
}

fn write_certificate(alloc: Global, certificate: &Certificate) -> Result<String, Failure> {
    let text = certificate.to_json(alloc)?;
    in_one_line(alloc, &text)
}

/// `certificate TEXT`: the certificate that a text spells, written again.
pub fn certificate(alloc: Global, text: &str) -> Result<String, Failure> {
    let certificate = read_certificate(alloc, text)?;
    write_certificate(alloc, &certificate)
}

/// `again TEXT`: the same by the law that a certificate which is written comes back.
pub fn again(alloc: Global, text: &str) -> Result<String, Failure> {
    let certificate = read_certificate(alloc, text)?;
    let again = laws::read_back(alloc, &certificate).map_err(|error| failure_of(&error))?;
    write_certificate(alloc, &again)
}
