//! The parts of a list, with commas between them.

ghost use Rattle.std.specs.Prelude.{◌≡◌, map, IfOk};
ghost use Rattle.wd_clauses.specs.Given.{Finds};
ghost use Rattle.wd_clauses.specs.Parts as spec;

use crate::level::{Stop, split};
use std::alloc::{AllocError, Global};
use wd_lex::Token;

// The most parts of a list.
const MOST_PARTS: usize = 256;

/// The tokens after the first, if there is one.
fn past_first(tokens: &[Token]) -> Option<&[Token]>
    ensures { Finds (λ r. r.now) result (spec.past_first tokens.now) }
{
    match tokens {
        [_first, rest @ ..] => Some(rest),
        [] => None,
    }
}

/// The parts of a list, with commas between them, if there are at most 256.
pub fn parts(alloc: Global, tokens: &[Token]) -> Result<Option<Vec<&[Token]>>, AllocError>
    ensures { IfOk result (λ found. Finds (λ x. map (λ part. part.now) x.items) found (spec.parts tokens.now)) }
{
    let mut parts = Vec::new(alloc);
    let mut rest = tokens;
    for _ in 0..MOST_PARTS {
        let (part, following) = split(Stop::Comma, rest);
        parts.push(part)?;
        match past_first(following) {
            Some(after) => rest = after,
            None => return Ok(Some(parts)),
        }
    }
    Ok(None)
}
