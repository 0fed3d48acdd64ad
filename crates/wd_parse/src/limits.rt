//! Offsets and counts.

ghost use Rattle.std.specs.Prelude.{◌≡◌};
ghost use Rattle.wd_lex.specs.Lexed.{kinds_of};
ghost use Rattle.wd_parse.specs.Reading.{row_at, offset_at, fetch_word_at, number_option_at, ties_at, fetch_at, limit_at, count_if, offset_if, limits_at};
ghost use Rattle.wd_read_cursor.specs.Given.{Gives, Finds, MayGive};

use wd_lex::{Terminal, Token, TokenKind};
use wd_read_cursor::{KeyWord, Refusal, eat, eat_word, expect_word, number_at, unexpected_token};
use wd_syntax::{Count, FetchWord, Limits, Offset, RowWord};

/// `ROW` or `ROWS`, if the tokens begin with one.
#[tactic(auto, unfolding(crate::specs::Reading::row_at))]
fn row_at(tokens: &[Token]) -> Option<(RowWord, &[Token])>
    ensures { Finds (λ x. (x.0, kinds_of x.1.now)) result (row_at (kinds_of tokens.now)) }
{
    if let Some(rest) = eat_word(tokens, KeyWord::Row) {
        return Some((RowWord::Row, rest));
    }
    match eat(tokens, Terminal::Rows) {
        Some(rest) => Some((RowWord::Rows, rest)),
        None => None,
    }
}

/// After `OFFSET`.
#[tactic(auto, unfolding(crate::specs::Reading::offset_at))]
fn offset_at(tokens: &[Token]) -> Result<(Offset, &[Token]), Refusal>
    ensures { Gives (λ x. (x.0, kinds_of x.1.now)) result (offset_at (kinds_of tokens.now)) }
{
    let (number, rest) = number_at(tokens)?;
    match row_at(rest) {
        Some((word, rest)) => {
            let word = Some(word);
            Ok((Offset { number, word }, rest))
        }
        None => Ok((Offset { number, word: None }, rest)),
    }
}

/// `FIRST` or `NEXT`.
#[tactic(auto, unfolding(crate::specs::Reading::fetch_word_at))]
fn fetch_word_at(tokens: &[Token]) -> Result<(FetchWord, &[Token]), Refusal>
    ensures { Gives (λ x. (x.0, kinds_of x.1.now)) result (fetch_word_at (kinds_of tokens.now)) }
{
    match eat_word(tokens, KeyWord::First) {
        Some(rest) => Ok((FetchWord::First, rest)),
        None => Ok((FetchWord::Next, expect_word(tokens, KeyWord::Next)?)),
    }
}

/// `[number]`
#[tactic(auto, unfolding(crate::specs::Reading::number_option_at, wd_read_cursor::specs::Cursor::number_at))]
fn number_option_at(tokens: &[Token]) -> (Option<u64>, &[Token])
    ensures { number_option_at (kinds_of tokens.now) ≡ (result.0, kinds_of result.1.now) }
{
    match tokens {
        [
            Token {
                kind: TokenKind::Number(number),
                ..
            },
            rest @ ..,
        ] => (Some(*number), rest),
        _ => (None, tokens),
    }
}

/// `ONLY` or `WITH TIES`; the result is whether it is `WITH TIES`.
#[tactic(auto, unfolding(crate::specs::Reading::ties_at))]
fn ties_at(tokens: &[Token]) -> Result<(bool, &[Token]), Refusal>
    ensures { Gives (λ x. (x.0, kinds_of x.1.now)) result (ties_at (kinds_of tokens.now)) }
{
    match eat(tokens, Terminal::With) {
        Some(rest) => Ok((true, expect_word(rest, KeyWord::Ties)?)),
        None => Ok((false, expect_word(tokens, KeyWord::Only)?)),
    }
}

/// After `FETCH`.
#[tactic(auto, unfolding(crate::specs::Reading::fetch_at))]
fn fetch_at(tokens: &[Token]) -> Result<(Count, &[Token]), Refusal>
    ensures { Gives (λ x. (x.0, kinds_of x.1.now)) result (fetch_at (kinds_of tokens.now)) }
{
    let (first, rest) = fetch_word_at(tokens)?;
    let (number, rest) = number_option_at(rest);
    let Some((row, after)) = row_at(rest) else {
        return Err(unexpected_token(rest));
    };
    let (with_ties, after) = ties_at(after)?;
    Ok((
        Count::Fetch {
            first,
            number,
            row,
            with_ties,
        },
        after,
    ))
}

/// After `LIMIT`.
#[tactic(auto, unfolding(crate::specs::Reading::limit_at))]
fn limit_at(tokens: &[Token]) -> Result<(Count, &[Token]), Refusal>
    ensures { Gives (λ x. (x.0, kinds_of x.1.now)) result (limit_at (kinds_of tokens.now)) }
{
    let (number, rest) = number_at(tokens)?;
    Ok((Count::Limit(number), rest))
}

/// A count, if one begins here.
#[tactic(auto, unfolding(crate::specs::Reading::count_if))]
fn count_if(tokens: &[Token]) -> Result<Option<(Count, &[Token])>, Refusal>
    ensures { MayGive (λ x. (x.0, kinds_of x.1.now)) result (count_if (kinds_of tokens.now)) }
{
    if let Some(rest) = eat(tokens, Terminal::Limit) {
        let (count, rest) = limit_at(rest)?;
        return Ok(Some((count, rest)));
    }
    match eat(tokens, Terminal::Fetch) {
        Some(rest) => {
            let (count, rest) = fetch_at(rest)?;
            Ok(Some((count, rest)))
        }
        None => Ok(None),
    }
}

/// An offset, if one begins here.
#[tactic(auto, unfolding(crate::specs::Reading::offset_if))]
fn offset_if(tokens: &[Token]) -> Result<Option<(Offset, &[Token])>, Refusal>
    ensures { MayGive (λ x. (x.0, kinds_of x.1.now)) result (offset_if (kinds_of tokens.now)) }
{
    match eat(tokens, Terminal::Offset) {
        Some(rest) => {
            let (offset, rest) = offset_at(rest)?;
            Ok(Some((offset, rest)))
        }
        None => Ok(None),
    }
}

/// `[LIMIT .. | FETCH ..]` and `[OFFSET ..]` in either order, each at most once, and the tokens after them.
#[tactic(auto, unfolding(crate::specs::Reading::limits_at))]
pub fn limits_at(tokens: &[Token]) -> Result<(Option<Limits>, &[Token]), Refusal>
    ensures { Gives (λ x. (x.0, kinds_of x.1.now)) result (limits_at (kinds_of tokens.now)) }
{
    if let Some((offset, rest)) = offset_if(tokens)? {
        return match count_if(rest)? {
            Some((count, rest)) => Ok((Some(Limits::OffsetFirst(offset, Some(count))), rest)),
            None => Ok((Some(Limits::OffsetFirst(offset, None)), rest)),
        };
    }
    let Some((count, rest)) = count_if(tokens)? else {
        return Ok((None, tokens));
    };
    match offset_if(rest)? {
        Some((offset, rest)) => Ok((Some(Limits::CountFirst(count, Some(offset))), rest)),
        None => Ok((Some(Limits::CountFirst(count, None)), rest)),
    }
}
