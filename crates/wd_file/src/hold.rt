//! What a lock says of a judged statement.

ghost use Rattle.std.specs.Prelude.{◌≡◌, ◌≤◌, true, false, length, option_map, IfOk};
ghost use Rattle.wd_accept.specs.Acceptance.{HaveOneAnswer, IsAccepted};
ghost use Rattle.wd_certificate.specs.Certificates.{certificate_of};
ghost use Rattle.wd_certificate.specs.Json.{certificate_text};
ghost use Rattle.wd_judged.specs.Judgements.{IsJudged, statement_of};
ghost use Rattle.wd_lines.specs.declared.count.Kind.TheVariants.{Deterministic};
ghost use Rattle.wd_query.specs.Laws.{HaveMeaning};
ghost use Rattle.wd_file.specs.Holds.{IsHold};
ghost use Rattle.wd_file.specs.Holds as spec;

use crate::laws::certified_have_one;
use std::alloc::Global;
use wd_accept::laws::accepted_has_one;
use wd_accept::verify;
use wd_certificate::Certificate;
use wd_fix::Fix;
use wd_judged::{File, Judged, judge_statement};
use wd_lex::Span;
use wd_lines::Kind;
use wd_value::OutOfMemory;

/// What becomes of the certificate that a lock has of a statement.
#[derive(Clone, Copy)]
pub enum Hold<'l> {
    /// The lock has none.
    Unlocked,
    /// `verify` accepts it.
    Kept(&'l Certificate),
    /// It is no longer accepted, and the verdict gives another.
    Stale,
    /// It is no longer accepted, and no other is found.
    Lost,
}

/// A judged statement, with what a lock says of it.
#[derive(Drop)]
pub struct Settled<'l> {
    pub judged: Judged,
    pub hold: Hold<'l>,
}

impl Settled<'_> {
    /// What the statement counts as: deterministic also where its certificate in the lock is accepted.
    pub fn kind(&self) -> Kind
        ensures { result ≡ spec.kind_of self.now }
    {
        match self.hold {
            Hold::Kept(_) => Kind::Deterministic,
            Hold::Unlocked | Hold::Stale | Hold::Lost => self.judged.kind,
        }
    }

    /// Whether a help mends it; where its certificate in the lock is accepted, there is nothing to mend.
    pub fn is_mended(&self) -> bool {
        match self.hold {
            Hold::Kept(_) => false,
            Hold::Unlocked | Hold::Stale | Hold::Lost => self.judged.help.is_some(),
        }
    }
}

/// Judges the statement of a file that has this span, over the schema of another file, and says what becomes of the certificate that a
/// lock has of it. A statement that counts as deterministic has one answer.
pub fn settle<'l>(
    alloc: Global,
    schema: File<'_>,
    file: File<'_>,
    span: Span,
    locked: Option<&'l Certificate>,
) -> Result<Settled<'l>, OutOfMemory>
    requires ordered { span.start ≤ span.end }
    requires within { span.end ≤ length file.text.now }
    ensures judged { IfOk result (λ s. IsJudged schema.entry.text.now file.entry.text.now span s.judged) }
    ensures hold { IfOk result (λ s. IsHold schema.entry.text.now (statement_of file.entry.text.now span) s.judged.kind (option_map (λ c. certificate_of c.now) locked.entry) s.hold) }
    ensures one_answer { IfOk result (λ s. spec.kind_of s ≡ Deterministic → HaveOneAnswer schema.entry.text.now (statement_of file.entry.text.now span)) }
{
    accepted_has_one();
    certified_have_one();
    let judged = judge_statement(alloc, schema, file, span)?;
    let query = &file.text[span.start as usize..span.end as usize];
    let hold = hold_of(alloc, schema.text, query, judged.kind, locked)?;
    Ok(Settled { judged, hold })
}

/// What becomes of the certificate that a lock has of a query, whose kind without the certificate is given.
fn hold_of<'l>(
    alloc: Global,
    schema: &[u8],
    query: &[u8],
    kind: Kind,
    locked: Option<&'l Certificate>,
) -> Result<Hold<'l>, OutOfMemory>
    ensures { IfOk result (IsHold schema.now query.now kind (option_map (λ c. certificate_of c.now) locked.entry)) }
{
    let Some(certificate) = locked else {
        return Ok(Hold::Unlocked);
    };
    if is_accepted(alloc, schema, query, certificate)? {
        return Ok(Hold::Kept(certificate));
    }
    match kind {
        Kind::Deterministic => Ok(Hold::Stale),
        Kind::Depends | Kind::MayTie | Kind::NotRead => Ok(Hold::Lost),
    }
}

/// Whether `verify` accepts a certificate for the texts of a schema and a query.
fn is_accepted(
    alloc: Global,
    schema: &[u8],
    query: &[u8],
    certificate: &Certificate,
) -> Result<bool, OutOfMemory>
    ensures yes { IfOk result (λ is. is ≡ true → IsAccepted schema.now query.now (certificate_text (certificate_of certificate.now))) }
    ensures no { IfOk result (λ is. is ≡ false → HaveMeaning schema.now query.now → ¬ IsAccepted schema.now query.now (certificate_text (certificate_of certificate.now))) }
{
    let text = certificate.to_json(alloc)?;
    match verify(alloc, schema, query, &text) {
        Ok(_) => Ok(true),
        Err(error) => match error.number() {
            Some(_) => Ok(false),
            None => Err(OutOfMemory),
        },
    }
}
