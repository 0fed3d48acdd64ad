//! The parts of an operand: names, calls, constants, and brackets.

ghost use Rattle.std.specs.Prelude.{◌≡◌, ◌≤◌, length, drop, true};
ghost use Rattle.wd_operands.specs.Operands.{brackets_length, call_length, call_tail_length, constant_length, filter_length, is_column, name_length, over_length, or_else, primary_length, typed_length, window_length};

use crate::nest::nest_length;
use crate::token::{is_constant, is_filter, is_left_bracket, is_name, is_over, is_test_word};
use wd_lex::{Terminal, Token, TokenKind};

/// The tokens after the first `count`.
pub fn past(tokens: &[Token], count: usize) -> &[Token]
    requires { count ≤ length tokens.now }
    ensures { result.now ≡ drop count tokens.now }
{
    tokens.split_at(count).1
}

/// `( .. )`
#[tactic(auto, unfolding(crate::specs::Operands::brackets_length))]
fn brackets_length(tokens: &[Token]) -> usize
    ensures value { result ≡ brackets_length tokens.now }
    ensures within { result ≤ length tokens.now }
{
    match tokens {
        [first, ..] => if is_left_bracket(&first.kind) {
            nest_length(tokens)
        } else {
            0
        },
        [] => 0,
    }
}

/// `FILTER ( .. )`
#[tactic(auto, unfolding(crate::specs::Operands::filter_length))]
fn filter_length(tokens: &[Token]) -> usize
    ensures value { result ≡ filter_length tokens.now }
    ensures within { result ≤ length tokens.now }
{
    let [first, rest @ ..] = tokens else {
        return 0;
    };
    let brackets = brackets_length(rest);
    if is_filter(&first.kind) && brackets > 0 {
        1 + brackets
    } else {
        0
    }
}

/// A window: its name, or `( .. )`
#[tactic(auto, unfolding(crate::specs::Operands::window_length))]
fn window_length(tokens: &[Token]) -> usize
    ensures value { result ≡ window_length tokens.now }
    ensures within { result ≤ length tokens.now }
{
    match tokens {
        [first, ..] => if is_name(&first.kind) {
            1
        } else {
            brackets_length(tokens)
        },
        [] => 0,
    }
}

/// `OVER name | OVER ( .. )`
#[tactic(auto, unfolding(crate::specs::Operands::over_length))]
fn over_length(tokens: &[Token]) -> usize
    ensures value { result ≡ over_length tokens.now }
    ensures within { result ≤ length tokens.now }
{
    let [first, rest @ ..] = tokens else {
        return 0;
    };
    let window = window_length(rest);
    if is_over(&first.kind) && window > 0 {
        1 + window
    } else {
        0
    }
}

/// `[FILTER ( .. )] [OVER name | OVER ( .. )]`
#[tactic(auto, unfolding(crate::specs::Operands::call_tail_length))]
fn call_tail_length(tokens: &[Token]) -> usize
    ensures value { result ≡ call_tail_length tokens.now }
    ensures within { result ≤ length tokens.now }
{
    let filter = filter_length(tokens);
    filter + over_length(past(tokens, filter))
}

/// `name ( .. ) [FILTER ( .. )] [OVER name | OVER ( .. )]`
#[tactic(auto, unfolding(crate::specs::Operands::call_length))]
fn call_length(tokens: &[Token]) -> usize
    ensures value { result ≡ call_length tokens.now }
    ensures within { result ≤ length tokens.now }
{
    let [first, rest @ ..] = tokens else {
        return 0;
    };
    let brackets = brackets_length(rest);
    if is_name(&first.kind) && brackets > 0 {
        1 + brackets + call_tail_length(past(rest, brackets))
    } else {
        0
    }
}

/// A word and a text, as `DATE '2026-01-01'`.
fn typed_length(tokens: &[Token]) -> usize
    ensures value { result ≡ typed_length tokens.now }
    ensures within { result ≤ length tokens.now }
{
    match tokens {
        [
            Token {
                kind: TokenKind::Word(word),
                ..
            },
            Token {
                kind: TokenKind::Literal(_),
                ..
            },
            ..
        ] => if is_test_word(word.as_str()) { 0 } else { 2 },
        _ => 0,
    }
}

/// Whether the tokens begin with `. name`.
fn is_column(tokens: &[Token]) -> bool
    ensures value { result ≡ is_column tokens.now }
    ensures within { result ≡ true → 2 ≤ length tokens.now }
{
    match tokens {
        [
            Token {
                kind: TokenKind::Terminal(Terminal::Dot),
                ..
            },
            name,
            ..
        ] => is_name(&name.kind),
        _ => false,
    }
}

/// `name [. name]`
#[tactic(auto, unfolding(crate::specs::Operands::name_length))]
fn name_length(tokens: &[Token]) -> usize
    ensures value { result ≡ name_length tokens.now }
    ensures within { result ≤ length tokens.now }
{
    let [first, rest @ ..] = tokens else {
        return 0;
    };
    if !is_name(&first.kind) {
        return 0;
    }
    if is_column(rest) { 3 } else { 1 }
}

/// A text, a number, NULL, TRUE or FALSE.
#[tactic(auto, unfolding(crate::specs::Operands::constant_length))]
fn constant_length(tokens: &[Token]) -> usize
    ensures value { result ≡ constant_length tokens.now }
    ensures within { result ≤ length tokens.now }
{
    match tokens {
        [first, ..] => if is_constant(&first.kind) { 1 } else { 0 },
        [] => 0,
    }
}

/// The first of the two lengths that is not 0.
fn or_else(first: usize, second: usize) -> usize
    ensures { result ≡ or_else first second }
{
    if first == 0 { second } else { first }
}

/// An operand without sums, products and signs outside brackets.
#[tactic(auto, unfolding(crate::specs::Operands::primary_length))]
pub fn primary_length(tokens: &[Token]) -> usize
    ensures value { result ≡ primary_length tokens.now }
    ensures within { result ≤ length tokens.now }
{
    let nest_or_call = or_else(nest_length(tokens), call_length(tokens));
    let named = or_else(typed_length(tokens), name_length(tokens));
    or_else(nest_or_call, or_else(named, constant_length(tokens)))
}
