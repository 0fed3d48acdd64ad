//! Why a certificate is refused.

ghost use Rattle.std.specs.Prelude.{◌≡◌};
ghost use Rattle.wd_certificate.specs.Refusals.{number_of, place_of};
ghost use Rattle.wd_certificate.specs.declared.error.CertError.TheVariants as error;

use thiserror::Error;
use wd_value::OutOfMemory;

/// A certificate's refusal: 501 to 503 for its text alone, 503 to 510 for the certificate and a plan. A node is named by its number in
/// postorder, from 0.
#[derive(Clone, Copy, Debug, Error)]
pub enum CertError {
    /// 501: the text is no JSON in UTF-8, or nests more than 127 deep.
    #[error("not JSON")]
    NotJson,
    /// 502: the JSON does not have the form of a certificate of any version.
    #[error("not of the shape of a certificate")]
    Shape,
    /// 503: a certificate of another version than 1 and 2, or of version 1 for a plan that groups.
    #[error("not of a version that is read for the plan")]
    Version,
    /// 504: another number of nodes than the plan has, or of calls than a node has.
    #[error("another number of nodes or calls than the plan has")]
    Count,
    /// 505: a trace uses a fact whose left side is not reached.
    #[error("node {node} uses a fact whose left side is not reached")]
    UnreachedUse { node: u64 },
    /// 506: a kept fact starts from what is no output, or its trace does not reach a target.
    #[error("node {node} claims what its trace does not reach")]
    UnreachedClaim { node: u64 },
    /// 507: a call's rule does not justify it.
    #[error("node {node} has a call that is not justified")]
    UnjustifiedCall { node: u64 },
    /// 508: two classes of a node take the rule `exchange`.
    #[error("node {node} has two classes under the rule exchange")]
    SecondExchange { node: u64 },
    /// 509: no rule justifies a limit.
    #[error("node {node} has a limit that is not justified")]
    UnjustifiedLimit { node: u64 },
    /// 510: a number names no column, fact or trace.
    #[error("node {node} has a number that names nothing")]
    OutOfRange { node: u64 },
    /// The allocator refused a growth.
    #[error("out of memory")]
    OutOfMemory,
}

impl CertError {
    /// The refusal's number, or `None` where memory runs out.
    pub fn number(&self) -> Option<u32>
        ensures { result ≡ number_of self.now }
    {
        match self {
            CertError::NotJson => Some(501),
            CertError::Shape => Some(502),
            CertError::Version => Some(503),
            CertError::Count => Some(504),
            CertError::UnreachedUse { .. } => Some(505),
            CertError::UnreachedClaim { .. } => Some(506),
            CertError::UnjustifiedCall { .. } => Some(507),
            CertError::SecondExchange { .. } => Some(508),
            CertError::UnjustifiedLimit { .. } => Some(509),
            CertError::OutOfRange { .. } => Some(510),
            CertError::OutOfMemory => None,
        }
    }

    /// The node that 505 to 510 name; `None` for the others.
    pub fn place(&self) -> Option<u64>
        ensures { result ≡ place_of self.now }
    {
        match self {
            CertError::UnreachedUse { node }
            | CertError::UnreachedClaim { node }
            | CertError::UnjustifiedCall { node }
            | CertError::SecondExchange { node }
            | CertError::UnjustifiedLimit { node }
            | CertError::OutOfRange { node } => Some(*node),
            _ => None,
        }
    }
}

impl From<OutOfMemory> for CertError {
    ghost from_gives = { λ _ e. e ≡ error.OutOfMemory };

    fn from(_error: OutOfMemory) -> CertError {
        CertError::OutOfMemory
    }
}
