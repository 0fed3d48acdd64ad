//! The tree of a list of tokens.

ghost use Rattle.std.specs.Prelude.{◌≤◌, length, IfOk, IfErr, IfSome};
ghost use Rattle.wd_lex.specs.Lexed.{kinds_of};
ghost use Rattle.wd_syntax.specs.Tree.{QueryTree};
ghost use Rattle.wd_syntax.specs.View.{view_query};
ghost use Rattle.wd_syntax.specs.Limits.{KeepsLimits};
ghost use Rattle.wd_syntax.specs.Laws.{IsTreeOf};
ghost use Rattle.wd_parse.specs.Causes.{HasCause, GivesTree, IsPastLimit, place_of};
ghost use Rattle.wd_parse.specs.Given.{Answers};

use crate::error::ParseError;
use crate::query::whole;
use std::alloc::Global;
use wd_lex::Token;
use wd_read_cursor::{Refusal, token_place};
use wd_syntax::Query;

fn answer(alloc: Global, tokens: &[Token]) -> Result<Query, ParseError>
    ensures whole { Answers result (kinds_of tokens.now) }
    ensures within { IfErr result (λ refusal. IfSome (place_of refusal) (λ place. place ≤ length tokens.now)) }
{
    match whole(alloc, tokens) {
        Ok(query) => Ok(query),
        Err(Refusal::Unexpected { left }) => Err(ParseError::Unexpected {
            place: token_place(tokens, left),
        }),
        Err(Refusal::PastLimit { left }) => Err(ParseError::PastLimit {
            place: token_place(tokens, left),
        }),
        Err(Refusal::OutOfMemory) => Err(ParseError::OutOfMemory),
    }
}

/// The query that the tokens spell.
///
/// The tree keeps its brackets and optional words. At most 32 levels are open at once, each opened by a left bracket,
/// CASE, NOT before an operand, or a sign; an unbracketed chain of one precedence has at most 200 operators. The refusal is
/// 201 at the first token that no query continues, or past the last one, and 202 at a token that passes a limit; the
/// earlier token decides.
pub fn parse(alloc: Global, tokens: &[Token]) -> Result<Query, ParseError>
    // The tree is well-levelled, and spells exactly the tokens.
    ensures tree { IfOk result (λ query. IsTreeOf (kinds_of tokens.now) (view_query query)) }

    // The tree keeps the limits.
    ensures limits { IfOk result (λ query. KeepsLimits (view_query query)) }

    // 201 comes only where no well-levelled tree spells the tokens. 202 comes only where a limit is passed at that place:
    // some well-levelled tree begins with the tokens up to and with the refused one, and passes the limit there.
    ensures cause { IfErr result (λ refusal. HasCause refusal (kinds_of tokens.now)) }

    // Where a tree that keeps the limits spells the tokens, that tree is returned, unless memory runs out.
    ensures given { (tree : QueryTree) → IsTreeOf (kinds_of tokens.now) tree → KeepsLimits tree → GivesTree tree result }

    // Where a tree that passes a limit spells the tokens, the call refuses by 202, unless memory runs out.
    ensures past_limit { (tree : QueryTree) → IsTreeOf (kinds_of tokens.now) tree → (KeepsLimits tree → ⊥) → IsPastLimit result }

    // A place is the number of a token, or the number of tokens.
    ensures within { IfErr result (λ refusal. IfSome (place_of refusal) (λ place. place ≤ length tokens.now)) }
{
    answer(alloc, tokens)
}
