//! Why a certificate is not accepted.

ghost use Rattle.std.specs.Prelude.{◌≡◌};
ghost use Rattle.wd_accept.specs.Acceptance.{origin_of, verify_number, verify_place};

use thiserror::Error;
use wd_certificate::CertError;
use wd_query::TextError;

/// Why a certificate's text is not accepted for the texts of a schema and a query.
#[derive(Debug, Drop, Error)]
pub enum VerifyError {
    /// The schema's text or the query's is refused.
    #[error(transparent)]
    Texts(TextError),
    /// 501 to 510: the certificate's text is refused, or the certificate is not valid for the plan.
    #[error(transparent)]
    Certificate(CertError),
    /// 511: the certificate is valid, and shows no order of the answer's rows.
    #[error("the certificate shows no order of the answer's rows")]
    Unlisted,
}

/// Which of its inputs a refusal is about.
#[derive(Clone, Copy)]
pub enum VerifyOrigin {
    Schema,
    Query,
    Certificate,
}

impl VerifyError {
    /// The refusal's number; `None` where memory runs out.
    pub fn number(&self) -> Option<u32>
        ensures { result ≡ verify_number self.now }
    {
        match self {
            VerifyError::Texts(error) => error.number(),
            VerifyError::Certificate(error) => error.number(),
            VerifyError::Unlisted => Some(511),
        }
    }

    /// The byte, the token or the node that the refusal is about; `None` where it is about none.
    pub fn place(&self) -> Option<u64>
        ensures { result ≡ verify_place self.now }
    {
        match self {
            VerifyError::Texts(error) => error.place(),
            VerifyError::Certificate(error) => error.place(),
            VerifyError::Unlisted => None,
        }
    }

    /// Which of the inputs the refusal is about.
    pub fn origin(&self) -> VerifyOrigin
        ensures { result ≡ origin_of self.now }
    {
        match self {
            VerifyError::Texts(TextError::Schema(_)) => VerifyOrigin::Schema,
            VerifyError::Texts(TextError::Query(_)) => VerifyOrigin::Query,
            VerifyError::Certificate(_) | VerifyError::Unlisted => VerifyOrigin::Certificate,
        }
    }
}
