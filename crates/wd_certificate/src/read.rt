//! A certificate from its text.

ghost use Rattle.std.specs.Prelude.{◌≡◌, ◌≢◌, ℕ, List, map, None, IfSome, IfOk, IfErr};
ghost use Rattle.wd_certificate.specs.Certificates.{NodeRecord, certificate_of, node_of, nodes_of};
ghost use Rattle.wd_certificate.specs.Json.{certificate_json, Spells, version_number};
ghost use Rattle.wd_certificate.specs.Refusals.{HasCause};
ghost use Rattle.wd_certificate.specs.declared.error.CertError.TheVariants as error;

use crate::certificate::{Certificate, Node, Version};
use crate::error::CertError;
use json::Reader;
use std::alloc::Global;
use wd_json_tokens::{FromTokens, Unread, read_pair, read_text};

/// The nodes of a certificate, and the number of its version, which may be any.
#[derive(Drop)]
struct Numbered {
    nodes: Vec<Node>,
    version: u64,
}

impl FromTokens for Numbered {
    ghost Said = { List NodeRecord × ℕ };

    ghost said = { λ c. (map node_of c.nodes.items, c.version) };

    ghost json = { λ p. certificate_json p.1 p.0 };

    fn read(
        alloc: Global,
        reader: &mut Reader<'_>,
        depth: usize,
    ) -> Result<Option<Numbered>, Unread> {
        match read_pair(alloc, reader, depth, "nodes", "version")? {
            Some((nodes, version)) => Ok(Some(Numbered { nodes, version })),
            None => Ok(None),
        }
    }
}

/// The version with a number; only 1 and 2 are read.
fn version_of_number(number: u64) -> Option<Version>
    ensures read { IfSome result (λ v. number ≡ version_number v) }
    ensures unread { result ≡ None → (number ≢ 1) × (number ≢ 2) }
{
    match number {
        1 => Some(Version::One),
        2 => Some(Version::Two),
        _ => None,
    }
}

/// The certificate, if it is of a version that is read.
fn of_known_version(certificate: Numbered) -> Result<Certificate, CertError>
    ensures ok { IfOk result (λ c. (version_number c.version ≡ certificate.version) × (nodes_of c ≡ map node_of certificate.nodes.items)) }
    ensures refused { IfErr result (λ e. (e ≡ error.Version) × (certificate.version ≢ 1) × (certificate.version ≢ 2)) }
{
    match version_of_number(certificate.version) {
        Some(version) => Ok(Certificate {
            nodes: certificate.nodes,
            version,
        }),
        None => Err(CertError::Version),
    }
}

/// The certificate that a text spells. Members may appear in any order, with white space between them, and the last of equal ones
/// counts, as RFC 8259 leaves open; a number is whole, from 0 to 2^64 - 1, and written in digits alone. It refuses, in this order, a
/// text that is not JSON (501), JSON of another shape (502) and another version than 1 and 2 (503).
pub fn from_json(alloc: Global, bytes: &[u8]) -> Result<Certificate, CertError>
    ensures ok { IfOk result (λ c. Spells (certificate_of c) bytes.now) }
    ensures refused { IfErr result (λ e. HasCause e bytes.now) }
{
    match read_text(alloc, bytes) {
        Ok(Some(certificate)) => of_known_version(certificate),
        Ok(None) => Err(CertError::Shape),
        Err(Unread::NotJson) => Err(CertError::NotJson),
        Err(Unread::OutOfMemory) => Err(CertError::OutOfMemory),
    }
}
