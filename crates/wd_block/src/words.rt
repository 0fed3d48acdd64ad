//! What is said of a place that is open.

ghost use Rattle.std.specs.Prelude.{◌≡◌};
ghost use Rattle.wd_block.specs.Heads as heads;
ghost use Rattle.wd_block.specs.Kinds as spec;

use wd_analyse::{Lack, Reason};
use wd_decide::Verdict;
use wd_finding::Finding;
use wd_lines::Kind;

/// What a finding counts as.
pub fn kind_of(finding: &Finding) -> Kind
    ensures { result ≡ spec.kind_of finding.now.verdict finding.now.certain finding.now.further }
{
    match (&finding.verdict, &finding.certain, &finding.further) {
        (Verdict::Deterministic(_), _, _) => Kind::Deterministic,
        (Verdict::Depends(_), _, _) => Kind::Depends,
        (Verdict::Unknown(_), Some(_), _) => Kind::Deterministic,
        (Verdict::Unknown(_), None, Some(_)) => Kind::Depends,
        (Verdict::Unknown(_), None, None) => Kind::MayTie,
    }
}

/// What is said of a place that is open in a query of this kind.
pub fn place_words(kind: Kind, reason: Reason) -> &'static str
    ensures { result.now ≡ heads.place_words kind reason.call }
{
    match kind {
        Kind::Depends => depends_words(reason.call),
        Kind::Deterministic | Kind::MayTie | Kind::NotRead => may_tie_words(reason.call),
    }
}

/// What is said of a call, or of a limit (no call), on which the answer depends.
fn depends_words(call: Option<u32>) -> &'static str
    ensures { result.now ≡ heads.depends_words call }
{
    match call {
        Some(_) => "depends: rows that tie may stand in any order here, and the answer goes by it",
        None => "depends: rows that tie are cut in any order here, and the answer goes by it",
    }
}

/// What is said of a call, or of a limit (no call), for which no two answers are known.
fn may_tie_words(call: Option<u32>) -> &'static str
    ensures { result.now ≡ heads.may_tie_words call }
{
    match call {
        Some(_) => "may tie: rows that tie may stand in any order here; no example found",
        None => "may tie: rows that tie are cut in any order here; no example found",
    }
}

/// What a call or a limit lacks.
pub fn lack_words(lack: Lack) -> &'static str {
    match lack {
        Lack::Row => "its sort keys do not tell all rows apart",
        Lack::Column(_) => "rows that tie may differ in a column that is used here",
        Lack::SecondClass =>
            "rows may be exchanged under one ordering alone, and there are several",
    }
}
