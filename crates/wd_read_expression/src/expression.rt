//! Expressions, windows and sort keys.
//!
//! `at` reads an expression of a height: a chain or a test of a lower one, or what opens a level, which reads an expression of any height
//! with one level fewer. All functions that may meet an expression call it, so they are one cycle. `tree` puts together what was read.

ghost use Rattle.std.specs.Prelude.{◌-◌, map, IsTrue};
ghost use Rattle.wd_lex.specs.Lexed.{kinds_of};
ghost use Rattle.wd_lex.specs.declared.token.Terminal.TheVariants as m;
ghost use Rattle.wd_syntax.specs.declared.expression.Height.TheVariants as heights;
ghost use Rattle.wd_syntax.specs.Limits.{most_operators};
ghost use Rattle.wd_syntax.specs.Tokens.{rank, whole_height};
ghost use Rattle.wd_syntax.specs.View.{view, view_arm, view_key, view_window, view_over_option, view_else_option};
ghost use Rattle.wd_read_expression.specs.Reading.{read, levels, deeper_of, links, compared, primary, primary_by_terminal, named_at, bracket_at, call_at, arguments_at, over_at, case_at, arm_at, else_at, key_at, partition_at, order_at, base_at, window_at};
ghost use Rattle.wd_read_cursor.specs.Cursor.{list_at};
ghost use Rattle.wd_read_cursor.specs.Given.{Gives, MayRead};
ghost use Rattle.wd_read_expression.specs.Given.{MakesDeeper, is_chain, view_arguments};

use crate::frame::{direction_at, frame_at, nulls_at};
use crate::null_test::tests;
use crate::operator::{MAX_OPERATORS, operator_at, sign_at, tighter};
use crate::tree::{call_of, case_of, chain_of, window_of};
use std::alloc::Global;
use wd_lex::{Terminal, Token, TokenKind};
use wd_read_cursor::{Refusal, eat, eat_name, expect, name_at};
use wd_syntax::{Arm, Expr, Height, Link, Literal, Name, Over, SortKey, Window};

/// The height of a whole expression.
const WHOLE: Height = Height::Disjunction;

/// One level fewer than `depth`, for what the first of the last `left` tokens opens; `PastLimit` at that token where no level is left.
pub fn deeper(depth: u8, left: usize) -> Result<u8, Refusal>
    ensures { MakesDeeper depth left result }
{
    if depth == 0 {
        return Err(Refusal::PastLimit { left });
    }
    Ok(depth - 1)
}

/// The expression that the tokens begin with, and the tokens after it, where `depth` more levels may be opened.
///
/// It refuses with `Unexpected` at the first token that no expression continues, and with `PastLimit` at a token that opens a level where
/// none is left or is one operator too many of its chain; the earlier token decides. `OutOfMemory` does not depend on the tokens.
pub fn expression_at(
    alloc: Global,
    depth: u8,
    tokens: &[Token],
) -> Result<(Box<Expr>, &[Token]), Refusal>
    ensures { Gives (λ x. (view x.0.value, kinds_of x.1.now)) result (read most_operators depth whole_height (kinds_of tokens.now)) }
{
    at(alloc, WHOLE, depth, tokens)
}

/// An expression that binds at least as tightly as the height.
#[tactic(auto, unfolding(crate::specs::Reading::levels), using(crate::proofs::Loops::read_chain))]
#[cycle(expr)]
fn at(
    alloc: Global,
    height: Height,
    depth: u8,
    tokens: &[Token],
) -> Result<(Box<Expr>, &[Token]), Refusal>
    ensures { Gives (λ x. (view x.0.value, kinds_of x.1.now)) result (read most_operators depth (rank height) (kinds_of tokens.now)) }
{
    match height {
        Height::Primary => primary(alloc, depth, tokens),
        Height::Sign => signed_operand(alloc, depth, tokens),
        Height::Product => chain(alloc, Height::Product, depth, tokens),
        Height::Sum => chain(alloc, Height::Sum, depth, tokens),
        Height::Comparison => comparison(alloc, depth, tokens),
        Height::Test => test(alloc, depth, tokens),
        Height::Negation => negation(alloc, depth, tokens),
        Height::Conjunction => chain(alloc, Height::Conjunction, depth, tokens),
        Height::Disjunction => chain(alloc, Height::Disjunction, depth, tokens),
    }
}

/// A chain of operators of that height.
#[tactic(auto, using(crate::proofs::Loops::read_chain))]
#[cycle(expr)]
fn chain(
    alloc: Global,
    height: Height,
    depth: u8,
    tokens: &[Token],
) -> Result<(Box<Expr>, &[Token]), Refusal>
    requires { IsTrue (is_chain height) }
    ensures { Gives (λ x. (view x.0.value, kinds_of x.1.now)) result (read most_operators depth (rank height) (kinds_of tokens.now)) }
{
    let (first, rest) = at(alloc, tighter(height), depth, tokens)?;
    links(alloc, height, depth, first, rest)
}

/// What follows the first operand of a chain.
#[tactic(auto, unfolding(crate::specs::Reading::links))]
#[cycle(expr)]
fn links(
    alloc: Global,
    height: Height,
    depth: u8,
    first: Box<Expr>,
    tokens: &[Token],
) -> Result<(Box<Expr>, &[Token]), Refusal>
    requires { IsTrue (is_chain height) }
    ensures { Gives (λ x. (view x.0.value, kinds_of x.1.now)) result (links (read most_operators depth (rank height - 1)) (rank height) most_operators (view first.value) (kinds_of tokens.now)) }
{
    let mut items = Vec::new(alloc);
    let mut rest = tokens;
    for _ in 0..MAX_OPERATORS {
        let Some((operator, after)) = operator_at(rest, height) else {
            return Ok((chain_of(alloc, first, items)?, rest));
        };
        let (right, after) = at(alloc, tighter(height), depth, after)?;
        items.push(Link {
            operator,
            operand: Box::into_inner(right),
        })?;
        rest = after;
    }
    match operator_at(rest, height) {
        Some(_) => Err(Refusal::PastLimit { left: rest.len() }),
        None => Ok((chain_of(alloc, first, items)?, rest)),
    }
}

/// At most one comparison.
#[tactic(auto, unfolding(crate::specs::Reading::levels, crate::specs::Reading::compared))]
#[cycle(expr)]
fn comparison(alloc: Global, depth: u8, tokens: &[Token]) -> Result<(Box<Expr>, &[Token]), Refusal>
    ensures { Gives (λ x. (view x.0.value, kinds_of x.1.now)) result (read most_operators depth (rank heights.Comparison) (kinds_of tokens.now)) }
{
    let (left, rest) = at(alloc, Height::Sum, depth, tokens)?;
    match operator_at(rest, Height::Comparison) {
        Some((operator, rest)) => {
            let (right, rest) = at(alloc, Height::Sum, depth, rest)?;
            Ok((Box::new(alloc, Expr::Compare(operator, left, right))?, rest))
        }
        None => Ok((left, rest)),
    }
}

#[tactic(auto, unfolding(crate::specs::Reading::levels))]
#[cycle(expr)]
fn test(alloc: Global, depth: u8, tokens: &[Token]) -> Result<(Box<Expr>, &[Token]), Refusal>
    ensures { Gives (λ x. (view x.0.value, kinds_of x.1.now)) result (read most_operators depth (rank heights.Test) (kinds_of tokens.now)) }
{
    let (operand, rest) = at(alloc, Height::Comparison, depth, tokens)?;
    tests(alloc, operand, rest)
}

#[tactic(auto, unfolding(crate::specs::Reading::levels, crate::specs::Reading::deeper_of), using(crate::proofs::Loops::length_kinds))]
#[cycle(expr)]
fn negation(alloc: Global, depth: u8, tokens: &[Token]) -> Result<(Box<Expr>, &[Token]), Refusal>
    ensures { Gives (λ x. (view x.0.value, kinds_of x.1.now)) result (read most_operators depth (rank heights.Negation) (kinds_of tokens.now)) }
{
    match eat(tokens, Terminal::Not) {
        Some(rest) => {
            let inside = deeper(depth, tokens.len())?;
            let (operand, rest) = at(alloc, Height::Negation, inside, rest)?;
            Ok((Box::new(alloc, Expr::Not(operand))?, rest))
        }
        None => at(alloc, Height::Test, depth, tokens),
    }
}

#[tactic(auto, unfolding(crate::specs::Reading::levels, crate::specs::Reading::deeper_of), using(crate::proofs::Loops::length_kinds))]
#[cycle(expr)]
fn signed_operand(
    alloc: Global,
    depth: u8,
    tokens: &[Token],
) -> Result<(Box<Expr>, &[Token]), Refusal>
    ensures { Gives (λ x. (view x.0.value, kinds_of x.1.now)) result (read most_operators depth (rank heights.Sign) (kinds_of tokens.now)) }
{
    match sign_at(tokens) {
        Some((sign, rest)) => {
            let inside = deeper(depth, tokens.len())?;
            let (operand, rest) = at(alloc, Height::Sign, inside, rest)?;
            Ok((Box::new(alloc, Expr::Signed(sign, operand))?, rest))
        }
        None => at(alloc, Height::Primary, depth, tokens),
    }
}

#[tactic(auto, unfolding(crate::specs::Reading::primary))]
#[cycle(expr)]
fn primary(alloc: Global, depth: u8, tokens: &[Token]) -> Result<(Box<Expr>, &[Token]), Refusal>
    ensures { Gives (λ x. (view x.0.value, kinds_of x.1.now)) result (primary (deeper_of most_operators depth) (kinds_of tokens.now)) }
{
    let [first, rest @ ..] = tokens else {
        return Err(Refusal::Unexpected { left: 0 });
    };
    match &first.kind {
        TokenKind::Number(number) => {
            let literal = Literal::Number(*number);
            Ok((Box::new(alloc, Expr::Literal(literal))?, rest))
        }
        TokenKind::Literal(text) => {
            let literal = Literal::Text(text.copy()?);
            Ok((Box::new(alloc, Expr::Literal(literal))?, rest))
        }
        TokenKind::Word(text) => {
            let text = text.copy()?;
            primary_by_name(
                alloc,
                depth,
                Name {
                    text,
                    quoted: false,
                },
                rest,
            )
        }
        TokenKind::Quoted(text) => {
            let text = text.copy()?;
            primary_by_name(alloc, depth, Name { text, quoted: true }, rest)
        }
        TokenKind::Terminal(terminal) => primary_by_terminal(alloc, depth, *terminal, rest),
    }
}

/// A primary expression that begins with a terminal, after the terminal.
#[tactic(auto, unfolding(crate::specs::Reading::deeper_of), using(crate::proofs::Loops::length_kinds))]
#[cycle(expr)]
fn primary_by_terminal(
    alloc: Global,
    depth: u8,
    terminal: Terminal,
    rest: &[Token],
) -> Result<(Box<Expr>, &[Token]), Refusal>
    ensures { Gives (λ x. (view x.0.value, kinds_of x.1.now)) result (primary_by_terminal (deeper_of most_operators depth) terminal (kinds_of rest.now)) }
{
    match terminal {
        Terminal::True => Ok((Box::new(alloc, Expr::Literal(Literal::Truth(true)))?, rest)),
        Terminal::False => Ok((Box::new(alloc, Expr::Literal(Literal::Truth(false)))?, rest)),
        Terminal::Null => Ok((Box::new(alloc, Expr::Literal(Literal::Null))?, rest)),
        Terminal::LeftBracket => {
            let inside = deeper(depth, rest.len() + 1)?;
            bracket(alloc, inside, rest)
        }
        Terminal::Case => {
            let inside = deeper(depth, rest.len() + 1)?;
            case(alloc, inside, rest)
        }
        _ => Err(Refusal::Unexpected {
            left: rest.len() + 1,
        }),
    }
}

/// After an opening bracket.
#[tactic(auto, unfolding(crate::specs::Reading::bracket_at))]
#[cycle(expr)]
fn bracket(alloc: Global, depth: u8, tokens: &[Token]) -> Result<(Box<Expr>, &[Token]), Refusal>
    ensures { Gives (λ x. (view x.0.value, kinds_of x.1.now)) result (bracket_at (read most_operators depth whole_height) (kinds_of tokens.now)) }
{
    let (inside, rest) = at(alloc, WHOLE, depth, tokens)?;
    let rest = expect(rest, Terminal::RightBracket)?;
    Ok((Box::new(alloc, Expr::Bracket(inside))?, rest))
}

/// A name, and what may follow it.
#[tactic(auto, unfolding(crate::specs::Reading::named_at))]
#[cycle(expr)]
fn primary_by_name(
    alloc: Global,
    depth: u8,
    name: Name,
    tokens: &[Token],
) -> Result<(Box<Expr>, &[Token]), Refusal>
    ensures { Gives (λ x. (view x.0.value, kinds_of x.1.now)) result (named_at (deeper_of most_operators depth) name (kinds_of tokens.now)) }
{
    if let Some(rest) = eat(tokens, Terminal::Dot) {
        let (column, rest) = name_at(alloc, rest)?;
        return Ok((Box::new(alloc, Expr::Qualified(name, column))?, rest));
    }
    match eat(tokens, Terminal::LeftBracket) {
        Some(rest) => call(alloc, depth, name, rest),
        None => Ok((Box::new(alloc, Expr::Column(name))?, tokens)),
    }
}

/// A call, after its opening bracket.
#[tactic(auto, unfolding(crate::specs::Reading::call_at, crate::specs::Reading::deeper_of), using(crate::proofs::Loops::length_kinds))]
#[cycle(expr)]
fn call(
    alloc: Global,
    depth: u8,
    name: Name,
    tokens: &[Token],
) -> Result<(Box<Expr>, &[Token]), Refusal>
    ensures { Gives (λ x. (view x.0.value, kinds_of x.1.now)) result (call_at (deeper_of most_operators depth) name (kinds_of tokens.now)) }
{
    let inside = deeper(depth, tokens.len() + 1)?;
    let (arguments, rest) = arguments(alloc, inside, tokens)?;
    let (over, rest) = over(alloc, depth, rest)?;
    Ok((Box::new(alloc, call_of(name, arguments, over))?, rest))
}

/// `* )`, for which the result is `None`, or `[expr {, expr}] )`.
#[tactic(auto, unfolding(crate::specs::Reading::arguments_at))]
#[cycle(expr)]
fn arguments(
    alloc: Global,
    depth: u8,
    tokens: &[Token],
) -> Result<(Option<Vec<Expr>>, &[Token]), Refusal>
    ensures { Gives (λ x. (view_arguments x.0, kinds_of x.1.now)) result (arguments_at (read most_operators depth whole_height) (kinds_of tokens.now)) }
{
    if let Some(rest) = eat(tokens, Terminal::Star) {
        let rest = expect(rest, Terminal::RightBracket)?;
        return Ok((None, rest));
    }
    if let Some(rest) = eat(tokens, Terminal::RightBracket) {
        return Ok((Some(Vec::new(alloc)), rest));
    }
    let (arguments, rest) = list(alloc, depth, tokens)?;
    let rest = expect(rest, Terminal::RightBracket)?;
    Ok((Some(arguments), rest))
}

/// `[OVER (name | ( .. ))]`
#[tactic(auto, unfolding(crate::specs::Reading::over_at, crate::specs::Reading::deeper_of), using(crate::proofs::Loops::length_kinds))]
#[cycle(expr)]
fn over(
    alloc: Global,
    depth: u8,
    tokens: &[Token],
) -> Result<(Option<Box<Over>>, &[Token]), Refusal>
    ensures { Gives (λ x. (view_over_option x.0, kinds_of x.1.now)) result (over_at (deeper_of most_operators depth) (kinds_of tokens.now)) }
{
    let Some(rest) = eat(tokens, Terminal::Over) else {
        return Ok((None, tokens));
    };
    match eat(rest, Terminal::LeftBracket) {
        Some(after) => {
            let inside = deeper(depth, rest.len())?;
            let (window, after) = window_at(alloc, inside, after)?;
            Ok((Some(Box::new(alloc, Over::Window(window))?), after))
        }
        None => {
            let (name, rest) = name_at(alloc, rest)?;
            Ok((Some(Box::new(alloc, Over::Name(name))?), rest))
        }
    }
}

/// `expr {, expr}`
#[tactic(auto, unfolding(wd_read_cursor::specs::Cursor::list_at))]
#[cycle(expr)]
fn list(alloc: Global, depth: u8, tokens: &[Token]) -> Result<(Vec<Expr>, &[Token]), Refusal>
    ensures { Gives (λ x. (map view x.0.items, kinds_of x.1.now)) result (list_at m.Comma (read most_operators depth whole_height) (kinds_of tokens.now)) }
{
    let (first, mut rest) = at(alloc, WHOLE, depth, tokens)?;
    let mut items = Vec::new(alloc);
    items.push(Box::into_inner(first))?;
    for _ in 0..rest.len() {
        let Some(after) = eat(rest, Terminal::Comma) else {
            return Ok((items, rest));
        };
        let (item, after) = at(alloc, WHOLE, depth, after)?;
        items.push(Box::into_inner(item))?;
        rest = after;
    }
    Ok((items, rest))
}

/// `expr THEN expr`
#[tactic(auto, unfolding(crate::specs::Reading::arm_at))]
#[cycle(expr)]
fn arm(alloc: Global, depth: u8, tokens: &[Token]) -> Result<(Arm, &[Token]), Refusal>
    ensures { Gives (λ x. (view_arm x.0, kinds_of x.1.now)) result (arm_at (read most_operators depth whole_height) (kinds_of tokens.now)) }
{
    let (when, rest) = at(alloc, WHOLE, depth, tokens)?;
    let rest = expect(rest, Terminal::Then)?;
    let (gives, rest) = at(alloc, WHOLE, depth, rest)?;
    Ok((
        Arm {
            when: Box::into_inner(when),
            gives: Box::into_inner(gives),
        },
        rest,
    ))
}

/// `arm {WHEN arm}`
#[tactic(auto, unfolding(wd_read_cursor::specs::Cursor::list_at))]
#[cycle(expr)]
fn arms(alloc: Global, depth: u8, tokens: &[Token]) -> Result<(Vec<Arm>, &[Token]), Refusal>
    ensures { Gives (λ x. (map view_arm x.0.items, kinds_of x.1.now)) result (list_at m.When (arm_at (read most_operators depth whole_height)) (kinds_of tokens.now)) }
{
    let (first, mut rest) = arm(alloc, depth, tokens)?;
    let mut items = Vec::new(alloc);
    items.push(first)?;
    for _ in 0..rest.len() {
        let Some(after) = eat(rest, Terminal::When) else {
            return Ok((items, rest));
        };
        let (item, after) = arm(alloc, depth, after)?;
        items.push(item)?;
        rest = after;
    }
    Ok((items, rest))
}

/// `[ELSE expr]`
#[tactic(auto, unfolding(crate::specs::Reading::else_at))]
#[cycle(expr)]
fn otherwise(
    alloc: Global,
    depth: u8,
    tokens: &[Token],
) -> Result<(Option<Box<Expr>>, &[Token]), Refusal>
    ensures { Gives (λ x. (view_else_option x.0, kinds_of x.1.now)) result (else_at (read most_operators depth whole_height) (kinds_of tokens.now)) }
{
    match eat(tokens, Terminal::Else) {
        Some(rest) => {
            let (other, rest) = at(alloc, WHOLE, depth, rest)?;
            Ok((Some(other), rest))
        }
        None => Ok((None, tokens)),
    }
}

/// After `CASE`.
#[tactic(auto, unfolding(crate::specs::Reading::case_at))]
#[cycle(expr)]
fn case(alloc: Global, depth: u8, tokens: &[Token]) -> Result<(Box<Expr>, &[Token]), Refusal>
    ensures { Gives (λ x. (view x.0.value, kinds_of x.1.now)) result (case_at (read most_operators depth whole_height) (kinds_of tokens.now)) }
{
    let rest = expect(tokens, Terminal::When)?;
    let (arms, rest) = arms(alloc, depth, rest)?;
    let (other, rest) = otherwise(alloc, depth, rest)?;
    let rest = expect(rest, Terminal::End)?;
    Ok((Box::new(alloc, case_of(arms, other))?, rest))
}

/// `expr [ASC|DESC] [NULLS (FIRST|LAST)]`
#[tactic(auto, unfolding(crate::specs::Reading::key_at))]
#[cycle(expr)]
fn key(alloc: Global, depth: u8, tokens: &[Token]) -> Result<(SortKey, &[Token]), Refusal>
    ensures { Gives (λ x. (view_key x.0, kinds_of x.1.now)) result (key_at (read most_operators depth whole_height) (kinds_of tokens.now)) }
{
    let (expr, rest) = at(alloc, WHOLE, depth, tokens)?;
    let (direction, rest) = direction_at(rest);
    let (nulls, rest) = nulls_at(rest)?;
    Ok((
        SortKey {
            expr: Box::into_inner(expr),
            direction,
            nulls,
        },
        rest,
    ))
}

/// `key {, key}`
#[tactic(auto, unfolding(wd_read_cursor::specs::Cursor::list_at))]
#[cycle(expr)]
fn keys(alloc: Global, depth: u8, tokens: &[Token]) -> Result<(Vec<SortKey>, &[Token]), Refusal>
    ensures { Gives (λ x. (map view_key x.0.items, kinds_of x.1.now)) result (list_at m.Comma (key_at (read most_operators depth whole_height)) (kinds_of tokens.now)) }
{
    let (first, mut rest) = key(alloc, depth, tokens)?;
    let mut items = Vec::new(alloc);
    items.push(first)?;
    for _ in 0..rest.len() {
        let Some(after) = eat(rest, Terminal::Comma) else {
            return Ok((items, rest));
        };
        let (item, after) = key(alloc, depth, after)?;
        items.push(item)?;
        rest = after;
    }
    Ok((items, rest))
}

/// `[ORDER BY key {, key}]`: the keys, none where the first token is not ORDER, and the tokens after them, where `depth` more levels may
/// be opened. It refuses as `expression_at` does.
#[tactic(auto, unfolding(crate::specs::Reading::order_at))]
#[cycle(expr)]
pub fn order_at(
    alloc: Global,
    depth: u8,
    tokens: &[Token],
) -> Result<(Vec<SortKey>, &[Token]), Refusal>
    ensures { Gives (λ x. (map view_key x.0.items, kinds_of x.1.now)) result (order_at (read most_operators depth whole_height) (kinds_of tokens.now)) }
{
    match eat(tokens, Terminal::Order) {
        Some(rest) => {
            let rest = expect(rest, Terminal::By)?;
            keys(alloc, depth, rest)
        }
        None => Ok((Vec::new(alloc), tokens)),
    }
}

/// `[PARTITION BY expr {, expr}]`
#[tactic(auto, unfolding(crate::specs::Reading::partition_at))]
#[cycle(expr)]
fn partition(alloc: Global, depth: u8, tokens: &[Token]) -> Result<(Vec<Expr>, &[Token]), Refusal>
    ensures { Gives (λ x. (map view x.0.items, kinds_of x.1.now)) result (partition_at (read most_operators depth whole_height) (kinds_of tokens.now)) }
{
    match eat(tokens, Terminal::Partition) {
        Some(rest) => {
            let rest = expect(rest, Terminal::By)?;
            list(alloc, depth, rest)
        }
        None => Ok((Vec::new(alloc), tokens)),
    }
}

/// `[name]`
#[tactic(auto, unfolding(crate::specs::Reading::base_at))]
fn base_at(alloc: Global, tokens: &[Token]) -> Result<(Option<Name>, &[Token]), Refusal>
    ensures { MayRead (λ x. (x.0, kinds_of x.1.now)) result (base_at (kinds_of tokens.now)) }
{
    match eat_name(alloc, tokens)? {
        Some((name, rest)) => Ok((Some(name), rest)),
        None => Ok((None, tokens)),
    }
}

/// A window specification after its opening bracket, with the bracket that closes it, and the tokens after that, where `depth`
/// more levels may be opened. It refuses as `expression_at` does.
#[tactic(auto, unfolding(crate::specs::Reading::window_at))]
#[cycle(expr)]
pub fn window_at(alloc: Global, depth: u8, tokens: &[Token]) -> Result<(Window, &[Token]), Refusal>
    ensures { Gives (λ x. (view_window x.0, kinds_of x.1.now)) result (window_at (read most_operators depth whole_height) (kinds_of tokens.now)) }
{
    let (base, rest) = base_at(alloc, tokens)?;
    let (partition, rest) = partition(alloc, depth, rest)?;
    let (order, rest) = order_at(alloc, depth, rest)?;
    let (frame, rest) = frame_at(rest)?;
    let rest = expect(rest, Terminal::RightBracket)?;
    Ok((window_of(base, partition, order, frame), rest))
}
