//! The conjuncts of a WHERE clause.

ghost use Rattle.std.specs.Prelude.{◌≡◌, map, IfOk};
ghost use Rattle.wd_clauses.specs.Given.{Finds};
ghost use Rattle.wd_membership.specs.Conjuncts as spec;
ghost use Rattle.wd_membership.specs.Named as named;

use crate::kind::is_end;
use std::alloc::{AllocError, Global};
use wd_lex::Token;
use wd_using::{Extent, split_at};

/// WHERE or AND, and what follows it.
#[derive(Clone, Copy)]
pub struct Conjunct<'t> {
    pub word: &'t Token,
    pub test: &'t [Token],
}

/// Whether the tokens begin with what ends such a part, outside brackets.
pub fn stands(part: Extent, tokens: &[Token]) -> bool
    ensures { result ≡ spec.stands part tokens.now }
{
    let (_before, following) = split_at(part, tokens);
    !is_end(following)
}

// The most conjuncts of a WHERE clause.
const MOST_CONJUNCTS: usize = 64;

/// The conjuncts, if there are at most 64.
fn conjuncts_at(alloc: Global, tokens: &[Token]) -> Result<Option<Vec<Conjunct<'_>>>, AllocError>
    ensures { IfOk result (λ found. Finds (λ x. map named.conjunct x.items) found (spec.conjuncts_at spec.most_conjuncts tokens.now)) }
{
    let mut conjuncts = Vec::new(alloc);
    let mut left = MOST_CONJUNCTS;
    let mut rest = tokens;
    while let [word, after @ ..] = rest {
        if left == 0 {
            return Ok(None);
        }
        left -= 1;
        let (test, following) = split_at(Extent::Conjunct, after);
        conjuncts.push(Conjunct { word, test })?;
        rest = following;
    }
    Ok(Some(conjuncts))
}

/// The conjuncts of a WHERE clause, if it has neither OR nor CASE outside brackets, and at most 64 conjuncts.
pub fn conjuncts(alloc: Global, tokens: &[Token]) -> Result<Option<Vec<Conjunct<'_>>>, AllocError>
    ensures { IfOk result (λ found. Finds (λ x. map named.conjunct x.items) found (spec.conjuncts tokens.now)) }
{
    if stands(Extent::Choice, tokens) {
        return Ok(None);
    }
    conjuncts_at(alloc, tokens)
}
