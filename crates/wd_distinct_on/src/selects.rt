//! A query whose selects are respelled, from the last to the first.

ghost use Rattle.std.specs.Prelude.{◌≡◌, ℕ, Bool, List, Option, take, drop};
ghost use Rattle.wd_lex.specs.declared.token.Token.{Token};
ghost use Rattle.wd_distinct_on.specs.Respelled.{Gives, MayWrite};
ghost use Rattle.wd_distinct_on.specs.Selects as spec;

use std::alloc::Global;
use wd_clauses::{RespellError, copy_tokens};
use wd_lex::Token;

// The most tokens of a query.
const MOST_TOKENS: usize = 65_536;

/// How the selects of a query are respelled.
pub trait Selects {
    /// Whether a select begins there that is to be looked at.
    ghost starts: { Self → List Token → Bool };

    /// The query in which the select that begins at a place is respelled, if it is.
    ghost respelled: { Self → ℕ → List Token → Option (List Token) };

    /// Whether a select begins there that is to be looked at.
    fn begins(&self, tokens: &[Token]) -> bool
        ensures { result ≡ starts self.now tokens.now };

    /// The query in which the select that begins at a place is respelled, if it is.
    fn respell_at(
        &self,
        alloc: Global,
        place: usize,
        tokens: &[Token],
    ) -> Result<Option<Vec<Token>>, RespellError>
        ensures { MayWrite (λ x. x.items) result (respelled self.now place tokens.now) };
}

/// The tokens before a place, and those from there on.
pub fn split_at_place(place: usize, tokens: &[Token]) -> (&[Token], &[Token])
    ensures before { result.0.now ≡ take place tokens.now }
    ensures following { result.1.now ≡ drop place tokens.now }
{
    let place = place.min(tokens.len());
    (&tokens[..place], &tokens[place..])
}

/// How many selects are left to be looked at, if one may begin at a place.
fn fewer<S: Selects>(selects: &S, left: usize, place: usize, tokens: &[Token]) -> usize
    ensures { result ≡ spec.fewer (S.starts selects.now) left (drop place tokens.now) }
{
    let (_, rest) = split_at_place(place, tokens);
    if selects.begins(rest) {
        return left.saturating_sub(1);
    }
    left
}

/// The query in which at most `most` selects are looked at, and each of these is respelled if it can be. The error is `TooLong` where
/// the query, or what is written, has more than 65,536 tokens.
#[tactic(auto, unfolding(crate::specs::Selects::respelled_below))]
pub fn respell_backwards<S: Selects>(
    alloc: Global,
    selects: &S,
    most: usize,
    tokens: &[Token],
) -> Result<Vec<Token>, RespellError>
    ensures { Gives (λ x. x.items) result (spec.respell_backwards (S.starts selects.now) (S.respelled selects.now) most tokens.now) }
{
    if tokens.len() > MOST_TOKENS {
        return Err(RespellError::TooLong);
    }
    let mut query = copy_tokens(alloc, tokens)?;
    let mut left = most;
    let mut place = tokens.len();
    while place > 0 {
        if left == 0 {
            return Ok(query);
        }
        place -= 1;
        left = fewer(selects, left, place, &query);
        match selects.respell_at(alloc, place, &query)? {
            Some(next) => {
                if next.len() > MOST_TOKENS {
                    return Err(RespellError::TooLong);
                }
                query = next;
            }
            None => {}
        }
    }
    Ok(query)
}
