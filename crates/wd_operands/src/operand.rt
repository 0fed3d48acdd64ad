//! Arithmetic operands: what binds more tightly than BETWEEN, IN and comparisons.

ghost use Rattle.std.specs.Prelude.{◌≡◌, ◌≤◌, length};
ghost use Rattle.wd_operands.specs.Operands.{factor_length, is_operator, link_length, operand_length, signs_from};

use crate::primary::{past, primary_length};
use crate::token::is_sign;
use wd_lex::{Terminal, Token, TokenKind};

fn is_operator(kind: &TokenKind) -> bool
    ensures { result ≡ is_operator kind.now }
{
    matches!(
        kind,
        TokenKind::Terminal(
            Terminal::Plus | Terminal::Minus | Terminal::Star | Terminal::Slash | Terminal::Percent
        )
    )
}

/// How many signs the tokens begin with.
#[tactic(auto, unfolding(crate::specs::Operands::signs_from))]
fn signs_length(tokens: &[Token]) -> usize
    ensures value { result ≡ signs_from 0 tokens.now }
    ensures within { result ≤ length tokens.now }
{
    let mut count = 0;
    let mut rest = tokens;
    while let [first, after @ ..] = rest {
        if !is_sign(&first.kind) {
            return count;
        }
        count += 1;
        rest = after;
    }
    count
}

/// How many tokens signs and a primary take.
#[tactic(auto, unfolding(crate::specs::Operands::factor_length))]
fn factor_length(tokens: &[Token]) -> usize
    ensures value { result ≡ factor_length tokens.now }
    ensures within { result ≤ length tokens.now }
{
    let signs = signs_length(tokens);
    let primary = primary_length(past(tokens, signs));
    if primary == 0 { 0 } else { signs + primary }
}

/// How many tokens an operator and its right operand take.
#[tactic(auto, unfolding(crate::specs::Operands::link_length))]
fn link_length(tokens: &[Token]) -> usize
    ensures value { result ≡ link_length tokens.now }
    ensures within { result ≤ length tokens.now }
{
    let [first, rest @ ..] = tokens else {
        return 0;
    };
    if !is_operator(&first.kind) {
        return 0;
    }
    let factor = factor_length(rest);
    if factor == 0 { 0 } else { 1 + factor }
}

/// How many tokens the longest arithmetic operand at the start takes; 0 where none begins.
#[tactic(auto, unfolding(crate::specs::Operands::operand_length, crate::specs::Operands::links_from))]
pub fn operand_length(tokens: &[Token]) -> usize
    ensures value { result ≡ operand_length tokens.now }
    ensures within { result ≤ length tokens.now }
{
    let mut count = factor_length(tokens);
    if count == 0 {
        return 0;
    }
    let mut rest = past(tokens, count);
    for _ in 0..tokens.len() {
        let link = link_length(rest);
        if link == 0 {
            return count;
        }
        count += link;
        rest = past(rest, link);
    }
    count
}
