//! The words of verdicts.

use wd_lines::Kind;
use wd_markup::Class;

/// The class of a verdict.
pub(crate) fn kind_class(kind: Kind) -> Class {
    match kind {
        Kind::Deterministic => Class::Deterministic,
        Kind::Depends => Class::Depends,
        Kind::MayTie => Class::MayTie,
        Kind::NotRead => Class::NotRead,
    }
}

/// The word of a verdict.
pub(crate) fn kind_word(kind: Kind) -> &'static str {
    match kind {
        Kind::Deterministic => "deterministic",
        Kind::Depends => "depends",
        Kind::MayTie => "may tie",
        Kind::NotRead => "not read",
    }
}

/// The word of a verdict after the number of queries that have it.
pub(crate) fn counted_word(kind: Kind, count: u64) -> &'static str {
    if matches!(kind, Kind::Depends) && count != 1 {
        "depend"
    } else {
        kind_word(kind)
    }
}

/// The meaning of a verdict.
pub(crate) fn kind_sentence(kind: Kind) -> &'static str {
    match kind {
        Kind::Deterministic => {
            "It has one answer, whatever order a database puts rows in that tie. That is proved."
        }
        Kind::Depends => "It has two answers over the same rows: which one is shown is chance.",
        Kind::MayTie => {
            "Rows may tie here, and no rule tells that the answer is the same whatever their order. No example of two answers was found."
        }
        Kind::NotRead => "It was not read, so nothing is said of it.",
    }
}
