//! Single tokens, and what stands at the start of tokens.

ghost use Rattle.std.specs.Prelude.{◌≡◌, ◌≤◌, ◌+◌, length};
ghost use Rattle.wd_units.specs.Tokens as spec;
ghost use Rattle.wd_units.specs.Tokens.{part_from};

use wd_lex::{Terminal, Token, TokenKind};
use wd_operands::{is_left_bracket, is_sign};

/// What ends a part of tokens.
#[derive(Clone, Copy)]
pub enum Stop {
    /// `+` or `-`
    Sign,
    /// `*`, `/` or `%`
    Factor,
    /// a sign, or what stands between factors
    Operator,
    Comma,
    /// AS
    As,
    /// THEN
    Then,
    /// WHEN, THEN or ELSE
    Branch,
    /// an operator, or what closes a value: a comma, a bracket, a branch of CASE or its END
    Link,
    /// what closes a key and the frame after it: a comma, a bracket or BY
    Frame,
}

pub fn is_right_bracket(kind: &TokenKind) -> bool
    ensures { result ≡ spec.is_right_bracket kind.now }
{
    matches!(kind, TokenKind::Terminal(Terminal::RightBracket))
}

pub fn is_as(kind: &TokenKind) -> bool
    ensures { result ≡ spec.is_as kind.now }
{
    matches!(kind, TokenKind::Terminal(Terminal::As))
}

pub fn is_dot(kind: &TokenKind) -> bool
    ensures { result ≡ spec.is_dot kind.now }
{
    matches!(kind, TokenKind::Terminal(Terminal::Dot))
}

pub fn is_case(kind: &TokenKind) -> bool
    ensures { result ≡ spec.is_case kind.now }
{
    matches!(kind, TokenKind::Terminal(Terminal::Case))
}

pub fn is_end(kind: &TokenKind) -> bool
    ensures { result ≡ spec.is_end kind.now }
{
    matches!(kind, TokenKind::Terminal(Terminal::End))
}

/// Whether an item of a list begins after it.
pub fn begins_item(kind: &TokenKind) -> bool
    ensures { result ≡ spec.begins_item kind.now }
{
    matches!(
        kind,
        TokenKind::Terminal(
            Terminal::Select | Terminal::All | Terminal::Distinct | Terminal::Comma | Terminal::By,
        )
    )
}

fn is_text(kind: &TokenKind) -> bool
    ensures { result ≡ spec.is_text kind.now }
{
    matches!(kind, TokenKind::Literal(_))
}

pub fn is_comparison(kind: &TokenKind) -> bool
    ensures { result ≡ spec.is_comparison kind.now }
{
    matches!(
        kind,
        TokenKind::Terminal(
            Terminal::Equals
                | Terminal::NotEquals
                | Terminal::Less
                | Terminal::LessOrEqual
                | Terminal::Greater
                | Terminal::GreaterOrEqual,
        )
    )
}

/// Whether a text stands somewhere among tokens.
#[tactic(auto, unfolding(crate::specs::Tokens::holds_text))]
pub fn holds_text(tokens: &[Token]) -> bool
    ensures { result ≡ spec.holds_text tokens.now }
{
    let mut rest = tokens;
    while let [first, after @ ..] = rest {
        if is_text(&first.kind) {
            return true;
        }
        rest = after;
    }
    false
}

#[tactic(auto, unfolding(crate::specs::Tokens::begins_bracket))]
pub fn begins_bracket(tokens: &[Token]) -> bool
    ensures { result ≡ spec.begins_bracket tokens.now }
{
    match tokens {
        [first, ..] => is_left_bracket(&first.kind),
        [] => false,
    }
}

fn is_select(kind: &TokenKind) -> bool
    ensures { result ≡ spec.is_select kind.now }
{
    matches!(kind, TokenKind::Terminal(Terminal::Select))
}

/// Whether a query in brackets begins here, which is a derived table.
#[tactic(auto, unfolding(crate::specs::Tokens::begins_query))]
pub fn begins_query(tokens: &[Token]) -> bool
    ensures { result ≡ spec.begins_query tokens.now }
{
    match tokens {
        [first, second, ..] => is_left_bracket(&first.kind) && is_select(&second.kind),
        _ => false,
    }
}

/// Whether it stands between factors.
pub fn is_between_factors(kind: &TokenKind) -> bool
    ensures { result ≡ spec.is_between_factors kind.now }
{
    matches!(
        kind,
        TokenKind::Terminal(Terminal::Star | Terminal::Slash | Terminal::Percent)
    )
}

/// Whether it is WHEN, THEN or ELSE.
pub fn is_branch(kind: &TokenKind) -> bool
    ensures { result ≡ spec.is_branch kind.now }
{
    matches!(
        kind,
        TokenKind::Terminal(Terminal::When | Terminal::Then | Terminal::Else)
    )
}

/// Whether an argument, a value of CASE or what stands in brackets ends before it.
fn closes_value(kind: &TokenKind) -> bool
    ensures { result ≡ spec.closes_value kind.now }
{
    match kind {
        TokenKind::Terminal(Terminal::RightBracket | Terminal::Comma | Terminal::End) => true,
        _ => is_branch(kind),
    }
}

/// Whether a token ends a part, where no bracket is open, and a factor begins or not.
fn stops(stop: Stop, is_factor: bool, kind: &TokenKind) -> bool
    ensures { result ≡ spec.stops stop is_factor kind.now }
{
    match stop {
        Stop::Sign => is_sign(kind) && !is_factor,
        Stop::Factor => is_between_factors(kind),
        Stop::Operator => is_between_factors(kind) || is_sign(kind) && !is_factor,
        Stop::Comma => matches!(kind, TokenKind::Terminal(Terminal::Comma)),
        Stop::As => is_as(kind),
        Stop::Then => matches!(kind, TokenKind::Terminal(Terminal::Then)),
        Stop::Branch => is_branch(kind),
        Stop::Link => {
            is_between_factors(kind) || is_sign(kind) && !is_factor || closes_value(kind)
        }
        Stop::Frame => matches!(
            kind,
            TokenKind::Terminal(Terminal::RightBracket | Terminal::Comma | Terminal::By)
        ),
    }
}

/// How many brackets are open after a token.
pub fn depth_after(depth: usize, kind: &TokenKind) -> usize
    requires { depth ≤ 9223372036854775807 }
    ensures value { result ≡ spec.depth_after depth kind.now }
    ensures within { result ≤ depth + 1 }
{
    match kind {
        TokenKind::Terminal(Terminal::LeftBracket | Terminal::Case) => depth + 1,
        TokenKind::Terminal(Terminal::RightBracket | Terminal::End) => depth.saturating_sub(1),
        _ => depth,
    }
}

/// How many tokens stand up to where a part ends.
#[tactic(auto, unfolding(crate::specs::Tokens::part_length, crate::specs::Tokens::part_from))]
pub fn part_length(stop: Stop, tokens: &[Token]) -> usize
    ensures value { result ≡ spec.part_length stop tokens.now }
    ensures within { result ≤ length tokens.now }
{
    let mut count = 0;
    let mut depth = 0;
    let mut is_factor = false;
    let mut rest = tokens;
    while let [first, after @ ..] = rest {
        if depth == 0 && stops(stop, is_factor, &first.kind) {
            return count;
        }
        count += 1;
        depth = depth_after(depth, &first.kind);
        is_factor = is_between_factors(&first.kind);
        rest = after;
    }
    count
}
