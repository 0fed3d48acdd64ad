//! The names that a query gives.

ghost use Rattle.std.specs.Prelude.{◌≡◌, ◌++◌, map, false, IfOk};
ghost use Rattle.wd_amounts.specs.Names as spec;
ghost use Rattle.wd_operands.specs.Given.{Finds};
ghost use Rattle.wd_amounts.specs.Names.{lists_names, text_if};

use std::alloc::Global;
use wd_lex::{Terminal, Token, TokenKind};
use wd_operands::{is_constant, is_filter, is_name, is_test_word};
use wd_units::{begins_bracket, is_as, is_right_bracket};
use wd_value::OutOfMemory;

/// Whether a name right after a token is an alias.
fn ends_operand(kind: &TokenKind) -> bool
    ensures { result ≡ spec.ends_operand kind.now }
{
    match kind {
        TokenKind::Terminal(Terminal::As | Terminal::RightBracket | Terminal::End) => true,
        _ => is_name(kind) || is_constant(kind),
    }
}

/// The text of a name.
pub(crate) fn name_text(kind: &TokenKind) -> Option<&str>
    ensures { Finds (λ text. text.now) result (spec.name_text kind.now) }
{
    match kind {
        TokenKind::Word(text) => if is_test_word(text.as_str()) {
            None
        } else {
            Some(text.as_str())
        },
        TokenKind::Quoted(text) => Some(text.as_str()),
        _ => None,
    }
}

/// Adds a name that a query gives.
fn push_given<'t>(
    names: &mut Vec<&'t str>,
    is_given: bool,
    kind: &'t TokenKind,
) -> Result<(), OutOfMemory>
    ensures { IfOk result (λ _. map (λ n. n.now) names.new.items ≡ map (λ n. n.now) names.old.items ++ text_if is_given kind.now) }
{
    if is_given {
        if let Some(name) = name_text(kind) {
            names.push(name)?;
        }
    }
    Ok(())
}

/// The names that a query gives: aliases, and names of calls, which are names of their results.
#[tactic(auto, unfolding(crate::specs::Names::given_names))]
pub fn given_names(alloc: Global, tokens: &[Token]) -> Result<Vec<&str>, OutOfMemory>
    ensures { IfOk result (λ found. map (λ n. n.now) found.items ≡ spec.given_names false tokens.now) }
{
    let mut found = Vec::new(alloc);
    let mut is_alias = false;
    let mut rest = tokens;
    while let [first, after @ ..] = rest {
        push_given(&mut found, is_alias || begins_bracket(after), &first.kind)?;
        is_alias = ends_operand(&first.kind);
        rest = after;
    }
    Ok(found)
}

/// Whether AS and no name stand first.
#[tactic(auto, unfolding(crate::specs::Names::begins_as))]
fn begins_as(tokens: &[Token]) -> bool
    ensures { result ≡ spec.begins_as tokens.now }
{
    match tokens {
        [first, second, ..] => is_as(&first.kind) && !is_name(&second.kind),
        _ => false,
    }
}

/// Whether an alias has a list of names here, or such a list ends in WITH.
fn lists_names(is_alias: bool, kind: &TokenKind, tokens: &[Token]) -> bool
    ensures { result ≡ lists_names is_alias kind.now tokens.now }
{
    (is_alias && is_name(kind) && !is_filter(kind) && begins_bracket(tokens))
        || (is_right_bracket(kind) && begins_as(tokens))
}

/// Whether a query gives a list of names.
#[tactic(auto, unfolding(crate::specs::Names::has_lists))]
pub fn has_lists(tokens: &[Token]) -> bool
    ensures { result ≡ spec.has_lists false tokens.now }
{
    let mut is_alias = false;
    let mut rest = tokens;
    while let [first, after @ ..] = rest {
        if lists_names(is_alias, &first.kind, after) {
            return true;
        }
        is_alias = ends_operand(&first.kind);
        rest = after;
    }
    false
}
