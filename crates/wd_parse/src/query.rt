//! Selects.

ghost use Rattle.std.specs.Prelude.{◌≡◌, length, map};
ghost use Rattle.wd_lex.specs.Lexed.{kinds_of};
ghost use Rattle.wd_syntax.specs.Limits.{most_levels, most_operators};
ghost use Rattle.wd_syntax.specs.Tokens.{whole_height};
ghost use Rattle.wd_syntax.specs.Tree.{derived, query};
ghost use Rattle.wd_syntax.specs.View.{view_item, view_named_window, view_window, view_option, view_grouping, view_table, view_joined, view_select, view_query};
ghost use Rattle.wd_read_expression.specs.Reading.{read, deeper_of};
ghost use Rattle.wd_parse.specs.Reading.{inside_of, selects, quantifier_at, required_alias_at, alias_at, star_at, filter_at, window_in_brackets_at, windows_at, ending_at, grouped_ending_at, tail_at, named_table_at, table_at, inner_at, join_at, from_at, from_and_tail_at, if_last, whole};
ghost use Rattle.wd_read_cursor.specs.Cursor.{list_at, many};
ghost use Rattle.wd_read_cursor.specs.Given.{Gives, MayFind, MayGive};
ghost use Rattle.wd_parse.specs.Given.{view_from, view_ending, view_tail};

use crate::group::grouping;
use crate::limits::limits_at;
use std::alloc::Global;
use wd_lex::{Terminal, Token};
use wd_read_cursor::{Reader, Refusal, eat, eat_name, expect, list_at, name_at, unexpected_token};
use wd_read_expression::{deeper, expression_at, order_at, window_at};
use wd_syntax::{
    Alias, Expr, From, Grouping, Item, Joined, Limits, Name, NamedWindow, Quantifier, Query,
    Select, SortKey, Table, Window,
};

/// The most levels that are open at once.
const MAX_LEVELS: u8 = 32;

/// `[ALL|DISTINCT]`
#[tactic(auto, unfolding(crate::specs::Reading::quantifier_at))]
fn quantifier_at(tokens: &[Token]) -> (Option<Quantifier>, &[Token])
    ensures { quantifier_at (kinds_of tokens.now) ≡ (result.0, kinds_of result.1.now) }
{
    if let Some(rest) = eat(tokens, Terminal::All) {
        return (Some(Quantifier::All), rest);
    }
    match eat(tokens, Terminal::Distinct) {
        Some(rest) => (Some(Quantifier::Distinct), rest),
        None => (None, tokens),
    }
}

/// `[AS] name`
#[tactic(auto, unfolding(crate::specs::Reading::required_alias_at))]
fn required_alias_at(alloc: Global, tokens: &[Token]) -> Result<(Alias, &[Token]), Refusal>
    ensures { Gives (λ x. (x.0, kinds_of x.1.now)) result (required_alias_at (kinds_of tokens.now)) }
{
    match eat(tokens, Terminal::As) {
        Some(rest) => {
            let (name, rest) = name_at(alloc, rest)?;
            Ok((
                Alias {
                    with_as: true,
                    name,
                },
                rest,
            ))
        }
        None => {
            let (name, rest) = name_at(alloc, tokens)?;
            Ok((
                Alias {
                    with_as: false,
                    name,
                },
                rest,
            ))
        }
    }
}

/// `[[AS] name]`
#[tactic(auto, unfolding(crate::specs::Reading::alias_at))]
fn alias_at(alloc: Global, tokens: &[Token]) -> Result<(Option<Alias>, &[Token]), Refusal>
    ensures { Gives (λ x. (x.0, kinds_of x.1.now)) result (alias_at (kinds_of tokens.now)) }
{
    if let Some(rest) = eat(tokens, Terminal::As) {
        let (name, rest) = name_at(alloc, rest)?;
        return Ok((
            Some(Alias {
                with_as: true,
                name,
            }),
            rest,
        ));
    }
    match eat_name(alloc, tokens)? {
        Some((name, rest)) => Ok((
            Some(Alias {
                with_as: false,
                name,
            }),
            rest,
        )),
        None => Ok((None, tokens)),
    }
}

/// `name . *`, if the tokens begin with it.
#[tactic(auto, unfolding(crate::specs::Reading::star_at))]
fn star_at(alloc: Global, tokens: &[Token]) -> Result<Option<(Name, &[Token])>, Refusal>
    ensures { MayFind (λ x. (x.0, kinds_of x.1.now)) result (star_at (kinds_of tokens.now)) }
{
    let Some((name, rest)) = eat_name(alloc, tokens)? else {
        return Ok(None);
    };
    let Some(rest) = eat(rest, Terminal::Dot) else {
        return Ok(None);
    };
    match eat(rest, Terminal::Star) {
        Some(rest) => Ok(Some((name, rest))),
        None => Ok(None),
    }
}

/// Reads the members of a select list, with the given number of levels left.
#[derive(Clone, Copy)]
struct Items {
    depth: u8,
}

impl Reader for Items {
    ghost use Rattle.wd_syntax.specs.Tree.{ItemTree};
    ghost use Rattle.wd_syntax.specs.Tokens.{whole_height};
    ghost use Rattle.wd_syntax.specs.Limits.{most_operators};
    ghost use Rattle.wd_syntax.specs.View.{view_item};
    ghost use Rattle.wd_read_expression.specs.Reading.{read};
    ghost use Rattle.wd_parse.specs.Reading.{item_at};

    type Item = Item;

    ghost Tree = { ItemTree };

    ghost tree = { view_item };

    ghost item = { λ items. item_at (read most_operators items.depth whole_height) };

    #[tactic(auto, unfolding(crate::specs::Reading::item_at))]
    fn read<'t>(&self, alloc: Global, tokens: &'t [Token]) -> Result<(Item, &'t [Token]), Refusal> {
        if let Some(rest) = eat(tokens, Terminal::Star) {
            return Ok((Item::All, rest));
        }
        if let Some((name, rest)) = star_at(alloc, tokens)? {
            return Ok((Item::AllOf(name), rest));
        }
        let (expr, rest) = expression_at(alloc, self.depth, tokens)?;
        let (alias, rest) = alias_at(alloc, rest)?;
        Ok((Item::Expr(Box::into_inner(expr), alias), rest))
    }
}

/// `[WHERE expr]`
#[tactic(auto, unfolding(crate::specs::Reading::filter_at))]
fn filter(alloc: Global, depth: u8, tokens: &[Token]) -> Result<(Option<Expr>, &[Token]), Refusal>
    ensures { Gives (λ x. (view_option x.0, kinds_of x.1.now)) result (filter_at (read most_operators depth whole_height) (kinds_of tokens.now)) }
{
    match eat(tokens, Terminal::Where) {
        Some(rest) => {
            let (expr, rest) = expression_at(alloc, depth, rest)?;
            Ok((Some(Box::into_inner(expr)), rest))
        }
        None => Ok((None, tokens)),
    }
}

/// `AS ( .. )`, with the given number of levels left.
#[tactic(auto, unfolding(wd_read_expression::specs::Reading::deeper_of), using(wd_read_expression::proofs::Loops::length_kinds))]
fn window_in_brackets(
    alloc: Global,
    depth: u8,
    tokens: &[Token],
) -> Result<(Window, &[Token]), Refusal>
    ensures { Gives (λ x. (view_window x.0, kinds_of x.1.now)) result (window_in_brackets_at (deeper_of most_operators depth) (kinds_of tokens.now)) }
{
    let bracket = expect(tokens, Terminal::As)?;
    let rest = expect(bracket, Terminal::LeftBracket)?;
    let inside = deeper(depth, bracket.len())?;
    window_at(alloc, inside, rest)
}

/// Reads windows `name AS ( .. )`, with the given number of levels left.
#[derive(Clone, Copy)]
struct NamedWindows {
    depth: u8,
}

impl Reader for NamedWindows {
    ghost use Rattle.wd_read_cursor.specs.declared.name.Name.{Name as NameTree};
    ghost use Rattle.wd_syntax.specs.Tree.{WindowTree};
    ghost use Rattle.wd_syntax.specs.Limits.{most_operators};
    ghost use Rattle.wd_syntax.specs.View.{view_named_window};
    ghost use Rattle.wd_read_expression.specs.Reading.{deeper_of};
    ghost use Rattle.wd_parse.specs.Reading.{named_window_at};

    type Item = NamedWindow;

    ghost Tree = { NameTree × WindowTree };

    ghost tree = { view_named_window };

    ghost item = { λ windows. named_window_at (deeper_of most_operators windows.depth) };

    #[tactic(auto, using(crate::proofs::CompleteQuery::named_window_by_window))]
    fn read<'t>(
        &self,
        alloc: Global,
        tokens: &'t [Token],
    ) -> Result<(NamedWindow, &'t [Token]), Refusal> {
        let (name, rest) = name_at(alloc, tokens)?;
        let (window, rest) = window_in_brackets(alloc, self.depth, rest)?;
        Ok((NamedWindow { name, window }, rest))
    }
}

/// `[WINDOW window {, window}]`
#[tactic(auto, unfolding(crate::specs::Reading::windows_at))]
fn windows(
    alloc: Global,
    depth: u8,
    tokens: &[Token],
) -> Result<(Vec<NamedWindow>, &[Token]), Refusal>
    ensures { Gives (λ x. (map view_named_window x.0.items, kinds_of x.1.now)) result (windows_at (deeper_of most_operators depth) (kinds_of tokens.now)) }
{
    match eat(tokens, Terminal::Window) {
        Some(rest) => list_at(alloc, &NamedWindows { depth }, Terminal::Comma, rest),
        None => Ok((Vec::new(alloc), tokens)),
    }
}

/// What follows HAVING.
#[derive(Drop)]
struct Ending {
    windows: Vec<NamedWindow>,
    order: Vec<SortKey>,
    limits: Option<Limits>,
}

/// What follows FROM.
#[derive(Drop)]
struct Tail {
    filter: Option<Expr>,
    grouping: Grouping,
    ending: Ending,
}

/// From WINDOW to the limits.
#[tactic(auto, unfolding(crate::specs::Reading::ending_at))]
fn ending_at(alloc: Global, depth: u8, tokens: &[Token]) -> Result<(Ending, &[Token]), Refusal>
    ensures { Gives (λ x. (view_ending x.0, kinds_of x.1.now)) result (ending_at most_operators depth (kinds_of tokens.now)) }
{
    let (windows, rest) = windows(alloc, depth, tokens)?;
    let (order, rest) = order_at(alloc, depth, rest)?;
    let (limits, rest) = limits_at(rest)?;
    Ok((
        Ending {
            windows,
            order,
            limits,
        },
        rest,
    ))
}

/// From GROUP BY to the limits.
fn grouped_ending_at(
    alloc: Global,
    depth: u8,
    tokens: &[Token],
) -> Result<((Grouping, Ending), &[Token]), Refusal>
    ensures { Gives (λ x. ((view_grouping x.0.0, view_ending x.0.1), kinds_of x.1.now)) result (grouped_ending_at most_operators depth (kinds_of tokens.now)) }
{
    let (grouping, rest) = grouping(alloc, depth, tokens)?;
    let (ending, rest) = ending_at(alloc, depth, rest)?;
    Ok(((grouping, ending), rest))
}

/// From WHERE to the limits.
#[tactic(auto, unfolding(crate::specs::Reading::tail_at))]
fn tail_at(alloc: Global, depth: u8, tokens: &[Token]) -> Result<(Tail, &[Token]), Refusal>
    ensures { Gives (λ x. (view_tail x.0, kinds_of x.1.now)) result (tail_at most_operators depth (kinds_of tokens.now)) }
{
    let (filter, rest) = filter(alloc, depth, tokens)?;
    let ((grouping, ending), rest) = grouped_ending_at(alloc, depth, rest)?;
    Ok((
        Tail {
            filter,
            grouping,
            ending,
        },
        rest,
    ))
}

// A Vec inside the tree is a list of its elements there: this says once what it holds.
fn derived_table(select: Box<Select>, alias: Alias) -> Table
    ensures { view_table result ≡ derived (view_select select.value) alias }
{
    Table::Derived(select, alias)
}

/// `name [[AS] name]`
fn named_table(alloc: Global, tokens: &[Token]) -> Result<(Table, &[Token]), Refusal>
    ensures { Gives (λ x. (view_table x.0, kinds_of x.1.now)) result (named_table_at (kinds_of tokens.now)) }
{
    let (name, rest) = name_at(alloc, tokens)?;
    let (alias, rest) = alias_at(alloc, rest)?;
    Ok((Table::Named(name, alias), rest))
}

/// A table of FROM.
#[tactic(auto, unfolding(crate::specs::Reading::table_at), using(wd_read_expression::proofs::Loops::length_kinds))]
#[cycle(select)]
fn table(alloc: Global, depth: u8, tokens: &[Token]) -> Result<(Table, &[Token]), Refusal>
    ensures { Gives (λ x. (view_table x.0, kinds_of x.1.now)) result (table_at (inside_of most_operators depth) (kinds_of tokens.now)) }
{
    match eat(tokens, Terminal::LeftBracket) {
        Some(rest) => {
            let inside = deeper(depth, tokens.len())?;
            let (select, rest) = select(alloc, inside, rest)?;
            let rest = expect(rest, Terminal::RightBracket)?;
            let (alias, rest) = required_alias_at(alloc, rest)?;
            Ok((derived_table(select, alias), rest))
        }
        None => named_table(alloc, tokens),
    }
}

/// `table ON expr`, after `JOIN`.
#[tactic(auto, unfolding(crate::specs::Reading::inner_at))]
#[cycle(select)]
fn inner(
    alloc: Global,
    depth: u8,
    with_inner: bool,
    tokens: &[Token],
) -> Result<(Joined, &[Token]), Refusal>
    ensures { Gives (λ x. (view_joined x.0, kinds_of x.1.now)) result (inner_at (inside_of most_operators depth) (read most_operators depth whole_height) with_inner (kinds_of tokens.now)) }
{
    let (table, rest) = table(alloc, depth, tokens)?;
    let rest = expect(rest, Terminal::On)?;
    let (on, rest) = expression_at(alloc, depth, rest)?;
    Ok((Joined::Inner(with_inner, table, Box::into_inner(on)), rest))
}

/// A table and how it is joined, if one begins here.
#[tactic(auto, unfolding(crate::specs::Reading::join_at))]
#[cycle(select)]
fn join(alloc: Global, depth: u8, tokens: &[Token]) -> Result<Option<(Joined, &[Token])>, Refusal>
    ensures { MayGive (λ x. (view_joined x.0, kinds_of x.1.now)) result (join_at (inside_of most_operators depth) (read most_operators depth whole_height) (kinds_of tokens.now)) }
{
    if let Some(rest) = eat(tokens, Terminal::Comma) {
        let (table, rest) = table(alloc, depth, rest)?;
        return Ok(Some((Joined::Comma(table), rest)));
    }
    if let Some(rest) = eat(tokens, Terminal::Cross) {
        let rest = expect(rest, Terminal::Join)?;
        let (table, rest) = table(alloc, depth, rest)?;
        return Ok(Some((Joined::Cross(table), rest)));
    }
    if let Some(rest) = eat(tokens, Terminal::Inner) {
        let rest = expect(rest, Terminal::Join)?;
        let (joined, rest) = inner(alloc, depth, true, rest)?;
        return Ok(Some((joined, rest)));
    }
    match eat(tokens, Terminal::Join) {
        Some(rest) => {
            let (joined, rest) = inner(alloc, depth, false, rest)?;
            Ok(Some((joined, rest)))
        }
        None => Ok(None),
    }
}

/// The tables after the first.
#[cycle(select)]
fn joins(alloc: Global, depth: u8, tokens: &[Token]) -> Result<(Vec<Joined>, &[Token]), Refusal>
    ensures { Gives (λ x. (map view_joined x.0.items, kinds_of x.1.now)) result (many (join_at (inside_of most_operators depth) (read most_operators depth whole_height)) (length (kinds_of tokens.now)) (kinds_of tokens.now)) }
{
    let mut items = Vec::new(alloc);
    let mut rest = tokens;
    for _ in 0..tokens.len() {
        let Some((item, after)) = join(alloc, depth, rest)? else {
            return Ok((items, rest));
        };
        items.push(item)?;
        rest = after;
    }
    Ok((items, rest))
}

/// After `FROM`.
#[tactic(auto, unfolding(crate::specs::Reading::from_at))]
#[cycle(select)]
fn from(alloc: Global, depth: u8, tokens: &[Token]) -> Result<(From, &[Token]), Refusal>
    ensures { Gives (λ x. (view_from x.0, kinds_of x.1.now)) result (from_at (inside_of most_operators depth) (read most_operators depth whole_height) (kinds_of tokens.now)) }
{
    let (first, rest) = table(alloc, depth, tokens)?;
    let (joined, rest) = joins(alloc, depth, rest)?;
    Ok((From { first, joined }, rest))
}

/// From FROM to the limits.
#[cycle(select)]
fn from_and_tail(
    alloc: Global,
    depth: u8,
    tokens: &[Token],
) -> Result<((From, Tail), &[Token]), Refusal>
    ensures { Gives (λ x. ((view_from x.0.0, view_tail x.0.1), kinds_of x.1.now)) result (from_and_tail_at most_operators depth (kinds_of tokens.now)) }
{
    let rest = expect(tokens, Terminal::From)?;
    let (from, rest) = from(alloc, depth, rest)?;
    let (tail, rest) = tail_at(alloc, depth, rest)?;
    Ok(((from, tail), rest))
}

/// A select, up to its limits.
#[tactic(auto, using(crate::proofs::CompleteQuery::selects_by_tail))]
#[cycle(select)]
fn select(alloc: Global, depth: u8, tokens: &[Token]) -> Result<(Box<Select>, &[Token]), Refusal>
    ensures { Gives (λ x. (view_select x.0.value, kinds_of x.1.now)) result (selects most_operators depth (kinds_of tokens.now)) }
{
    let rest = expect(tokens, Terminal::Select)?;
    let (quantifier, rest) = quantifier_at(rest);
    let (items, rest) = list_at(alloc, &Items { depth }, Terminal::Comma, rest)?;
    let ((from, tail), rest) = from_and_tail(alloc, depth, rest)?;
    let select = Select {
        quantifier,
        items,
        from,
        filter: tail.filter,
        grouping: tail.grouping,
        windows: tail.ending.windows,
        order: tail.ending.order,
        limits: tail.ending.limits,
    };
    Ok((Box::new(alloc, select)?, rest))
}

/// The query, if no token is left.
fn query_at_end(select: Box<Select>, semicolon: bool, rest: &[Token]) -> Result<Query, Refusal>
    ensures { Gives view_query result (if_last (query (view_select select.value) semicolon) (kinds_of rest.now)) }
{
    match rest {
        [] => Ok(Query {
            select: Box::into_inner(select),
            semicolon,
        }),
        _ => Err(unexpected_token(rest)),
    }
}

/// `select [;]` and no further token.
#[tactic(auto, unfolding(crate::specs::Reading::whole))]
pub fn whole(alloc: Global, tokens: &[Token]) -> Result<Query, Refusal>
    ensures { Gives view_query result (whole most_operators most_levels (kinds_of tokens.now)) }
{
    let (select, rest) = select(alloc, MAX_LEVELS, tokens)?;
    match eat(rest, Terminal::Semicolon) {
        Some(rest) => query_at_end(select, true, rest),
        None => query_at_end(select, false, rest),
    }
}
