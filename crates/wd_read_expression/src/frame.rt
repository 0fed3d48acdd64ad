//! Frames, directions and places of NULLs.

ghost use Rattle.wd_lex.specs.Lexed.{kinds_of};
ghost use Rattle.wd_read_expression.specs.Reading.{mode_if, mode_at, side_at, bound_at, extent_at, exclusion_words_at, exclusion_at, frame_at, direction_at, nulls_at};
ghost use Rattle.wd_read_cursor.specs.Given.{Gives, Finds};
ghost use Rattle.std.specs.Prelude.{◌≡◌};

use wd_lex::{Terminal, Token, TokenKind};
use wd_read_cursor::{KeyWord, Refusal, eat, eat_word, expect, expect_word, number_at};
use wd_syntax::{Bound, Exclusion, Extent, Frame, FrameMode, NullsPlace, SortDirection};

fn mode_of(terminal: Terminal) -> Option<FrameMode>
    ensures { result ≡ mode_if terminal }
{
    match terminal {
        Terminal::Rows => Some(FrameMode::Rows),
        Terminal::Range => Some(FrameMode::Range),
        Terminal::Groups => Some(FrameMode::Groups),
        _ => None,
    }
}

#[tactic(auto, unfolding(crate::specs::Reading::mode_at))]
fn mode_at(tokens: &[Token]) -> Option<(FrameMode, &[Token])>
    ensures { Finds (λ x. (x.0, kinds_of x.1.now)) result (mode_at (kinds_of tokens.now)) }
{
    match tokens {
        [
            Token {
                kind: TokenKind::Terminal(first),
                ..
            },
            rest @ ..,
        ] => match mode_of(*first) {
            Some(mode) => Some((mode, rest)),
            None => None,
        },
        _ => None,
    }
}

/// `PRECEDING` or `FOLLOWING`; the result is whether it is `PRECEDING`.
#[tactic(auto, unfolding(crate::specs::Reading::side_at))]
fn side_at(tokens: &[Token]) -> Result<(bool, &[Token]), Refusal>
    ensures { Gives (λ x. (x.0, kinds_of x.1.now)) result (side_at (kinds_of tokens.now)) }
{
    match eat_word(tokens, KeyWord::Preceding) {
        Some(rest) => Ok((true, rest)),
        None => Ok((false, expect_word(tokens, KeyWord::Following)?)),
    }
}

#[tactic(auto, unfolding(crate::specs::Reading::bound_at))]
fn bound_at(tokens: &[Token]) -> Result<(Bound, &[Token]), Refusal>
    ensures { Gives (λ x. (x.0, kinds_of x.1.now)) result (bound_at (kinds_of tokens.now)) }
{
    if let Some(rest) = eat_word(tokens, KeyWord::Unbounded) {
        let (preceding, rest) = side_at(rest)?;
        return if preceding {
            Ok((Bound::UnboundedPreceding, rest))
        } else {
            Ok((Bound::UnboundedFollowing, rest))
        };
    }
    if let Some(rest) = eat_word(tokens, KeyWord::Current) {
        let rest = expect_word(rest, KeyWord::Row)?;
        return Ok((Bound::CurrentRow, rest));
    }
    let (number, rest) = number_at(tokens)?;
    let (preceding, rest) = side_at(rest)?;
    if preceding {
        Ok((Bound::Preceding(number), rest))
    } else {
        Ok((Bound::Following(number), rest))
    }
}

#[tactic(auto, unfolding(crate::specs::Reading::extent_at))]
fn extent_at(tokens: &[Token]) -> Result<(Extent, &[Token]), Refusal>
    ensures { Gives (λ x. (x.0, kinds_of x.1.now)) result (extent_at (kinds_of tokens.now)) }
{
    match eat_word(tokens, KeyWord::Between) {
        Some(rest) => {
            let (start, rest) = bound_at(rest)?;
            let rest = expect(rest, Terminal::And)?;
            let (end, rest) = bound_at(rest)?;
            Ok((Extent::Between(start, end), rest))
        }
        None => {
            let (start, rest) = bound_at(tokens)?;
            Ok((Extent::Start(start), rest))
        }
    }
}

/// What is excluded, after `EXCLUDE`.
#[tactic(auto, unfolding(crate::specs::Reading::exclusion_words_at))]
fn exclusion_words_at(tokens: &[Token]) -> Result<(Exclusion, &[Token]), Refusal>
    ensures { Gives (λ x. (x.0, kinds_of x.1.now)) result (exclusion_words_at (kinds_of tokens.now)) }
{
    if let Some(rest) = eat_word(tokens, KeyWord::Current) {
        let rest = expect_word(rest, KeyWord::Row)?;
        return Ok((Exclusion::CurrentRow, rest));
    }
    if let Some(rest) = eat(tokens, Terminal::Group) {
        return Ok((Exclusion::Group, rest));
    }
    if let Some(rest) = eat_word(tokens, KeyWord::Ties) {
        return Ok((Exclusion::Ties, rest));
    }
    let rest = expect_word(tokens, KeyWord::No)?;
    let rest = expect_word(rest, KeyWord::Others)?;
    Ok((Exclusion::NoOthers, rest))
}

#[tactic(auto, unfolding(crate::specs::Reading::exclusion_at))]
fn exclusion_at(tokens: &[Token]) -> Result<(Option<Exclusion>, &[Token]), Refusal>
    ensures { Gives (λ x. (x.0, kinds_of x.1.now)) result (exclusion_at (kinds_of tokens.now)) }
{
    match eat_word(tokens, KeyWord::Exclude) {
        Some(rest) => {
            let (exclusion, rest) = exclusion_words_at(rest)?;
            Ok((Some(exclusion), rest))
        }
        None => Ok((None, tokens)),
    }
}

/// `[(ROWS|RANGE|GROUPS) extent [EXCLUDE ..]]`, where an extent is a bound or `BETWEEN bound AND bound`.
///
/// An extent has to follow ROWS, RANGE or GROUPS; otherwise the first token that does not fit is refused.
#[tactic(auto, unfolding(crate::specs::Reading::frame_at))]
pub fn frame_at(tokens: &[Token]) -> Result<(Option<Frame>, &[Token]), Refusal>
    ensures { Gives (λ x. (x.0, kinds_of x.1.now)) result (frame_at (kinds_of tokens.now)) }
{
    let Some((mode, rest)) = mode_at(tokens) else {
        return Ok((None, tokens));
    };
    let (extent, rest) = extent_at(rest)?;
    let (exclusion, rest) = exclusion_at(rest)?;
    Ok((
        Some(Frame {
            mode,
            extent,
            exclusion,
        }),
        rest,
    ))
}

/// `[ASC|DESC]`, and the tokens after it.
#[tactic(auto, unfolding(crate::specs::Reading::direction_at))]
pub fn direction_at(tokens: &[Token]) -> (Option<SortDirection>, &[Token])
    ensures { direction_at (kinds_of tokens.now) ≡ (result.0, kinds_of result.1.now) }
{
    if let Some(rest) = eat(tokens, Terminal::Asc) {
        return (Some(SortDirection::Ascending), rest);
    }
    match eat(tokens, Terminal::Desc) {
        Some(rest) => (Some(SortDirection::Descending), rest),
        None => (None, tokens),
    }
}

/// `[NULLS (FIRST|LAST)]`, and the tokens after it. FIRST or LAST has to follow NULLS.
#[tactic(auto, unfolding(crate::specs::Reading::nulls_at))]
pub fn nulls_at(tokens: &[Token]) -> Result<(Option<NullsPlace>, &[Token]), Refusal>
    ensures { Gives (λ x. (x.0, kinds_of x.1.now)) result (nulls_at (kinds_of tokens.now)) }
{
    let Some(rest) = eat_word(tokens, KeyWord::Nulls) else {
        return Ok((None, tokens));
    };
    match eat_word(rest, KeyWord::First) {
        Some(rest) => Ok((Some(NullsPlace::First), rest)),
        None => {
            let rest = expect_word(rest, KeyWord::Last)?;
            Ok((Some(NullsPlace::Last), rest))
        }
    }
}
