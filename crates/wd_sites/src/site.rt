//! The sites of a plan's window calls and limits.
//!
//! The syntax tree has no places. The selects in the order in which they end are those of the plan in postorder, and the calls that the
//! Map above a Window shows, from left to right, belong to the words OVER of its select. Where the numbers differ, as for the tokens of
//! another query, there is no site.

ghost use Rattle.std.specs.Prelude.{IfOk, IfSome, IsTrue, All};
ghost use Rattle.wd_sites.specs.Sites.{IsCallSite, IsKeyPlace, IsSite, IsSiteAt, IsSiteOf, IsTerminalAt};
ghost use Rattle.wd_lex.specs.declared.token.Terminal.TheVariants as m;

use crate::nodes::{PlanNodes, plan_nodes};
use crate::outline::{Brackets, NamedWindow, Outline};
use crate::place::{end_of, partners, span_from};
use std::alloc::Global;
use wd_lex::{Span, Terminal, Token};
use wd_plan::Plan;
use wd_value::OutOfMemory;

/// The place where a sort key can be added.
#[derive(Clone, Copy, PartialEq, Eq)]
pub struct KeyPlace {
    /// The byte at which the key is added, after a token.
    pub at: u64,
    /// The byte at which the ORDER BY begins whose keys come before the added one, so that a comma comes first. `None` where there is
    /// none.
    pub order: Option<u64>,
}

/// The place of a window call, or of an ORDER BY with its limits, and where a sort key can be added to it.
#[derive(Clone, Copy)]
pub struct Site {
    pub span: Span,
    pub key: Option<KeyPlace>,
}

/// A site of a window call or a limit of a plan. A call that is written twice has two.
#[derive(Clone, Copy)]
pub struct PlanSite {
    /// The node's number in postorder.
    pub node: u64,
    /// The call's number in its Window; `None` for a Limit.
    pub call: Option<u32>,
    pub site: Site,
}

/// The sites of the window calls and the limits of a plan in the tokens of the query that it was read from, each
/// Window's calls in the order in which they are written. Where the tokens are those of another query there may be fewer.
pub fn sites(alloc: Global, tokens: &[Token], plan: &Plan) -> Result<Vec<PlanSite>, OutOfMemory>
    ensures { IfOk result (λ found. All (IsSiteOf tokens.now) found.items) }
{
    let partners = partners(alloc, tokens)?;
    let brackets = Brackets {
        tokens,
        partners: &partners,
    };
    let outlines = brackets.outlines(alloc)?;
    let nodes = plan_nodes(alloc, plan)?;
    let mut found = Vec::new(alloc);
    add_calls(brackets, &outlines, &nodes, &mut found)?;
    add_limits(brackets, &outlines, &nodes, &mut found)?;
    Ok(found)
}

/// Adds the sites of the calls of Windows, which are those of the selects with calls, in order.
fn add_calls(
    brackets: Brackets<'_>,
    outlines: &[Outline],
    nodes: &PlanNodes,
    found: &mut Vec<PlanSite>,
) -> Result<(), OutOfMemory>
    requires { All (IsSiteOf brackets.tokens.now) found.old.items }
    ensures { IfOk result (λ _. All (IsSiteOf brackets.entry.tokens.now) found.new.items) }
{
    let mut windows = nodes.windows.iter();
    for outline in outlines {
        if outline.overs.is_empty() {
            continue;
        }
        let Some(window) = windows.next() else {
            return Ok(());
        };
        if window.shown.len() == outline.overs.len() {
            add_shown(brackets, outline, window.node, &window.shown, found)?;
        }
    }
    Ok(())
}

/// Adds the sites of the calls of one Window.
fn add_shown(
    brackets: Brackets<'_>,
    outline: &Outline,
    node: u64,
    shown: &[u32],
    found: &mut Vec<PlanSite>,
) -> Result<(), OutOfMemory>
    requires { All (IsSiteOf brackets.tokens.now) found.old.items }
    ensures { IfOk result (λ _. All (IsSiteOf brackets.entry.tokens.now) found.new.items) }
{
    let mut calls = shown.iter();
    for over in &outline.overs {
        let Some(call) = calls.next() else {
            return Ok(());
        };
        let site = call_site(brackets, &outline.windows, *over);
        add_site(brackets.tokens, node, Some(*call), site, found)?;
    }
    Ok(())
}

/// Adds the sites of the Limits, which are those of the selects that sort or limit their rows, in order.
fn add_limits(
    brackets: Brackets<'_>,
    outlines: &[Outline],
    nodes: &PlanNodes,
    found: &mut Vec<PlanSite>,
) -> Result<(), OutOfMemory>
    requires { All (IsSiteOf brackets.tokens.now) found.old.items }
    ensures { IfOk result (λ _. All (IsSiteOf brackets.entry.tokens.now) found.new.items) }
{
    let mut limits = nodes.limits.iter();
    for outline in outlines {
        if outline.order.is_none() && outline.limits.is_none() {
            continue;
        }
        let Some(node) = limits.next() else {
            return Ok(());
        };
        let site = limit_site(brackets, outline);
        add_site(brackets.tokens, *node, None, site, found)?;
    }
    Ok(())
}

/// Adds a site, if there is one.
fn add_site(
    tokens: &[Token],
    node: u64,
    call: Option<u32>,
    site: Option<Site>,
    found: &mut Vec<PlanSite>,
) -> Result<(), OutOfMemory>
    requires are { All (IsSiteOf tokens.now) found.old.items }
    requires is { IfSome site (IsSiteAt tokens.now call) }
    ensures { IfOk result (λ _. All (IsSiteOf tokens.now) found.new.items) }
{
    if let Some(site) = site {
        found.push(PlanSite { node, call, site })?;
    }
    Ok(())
}

/// The site of the call before this word OVER: from its name to its window.
fn call_site(brackets: Brackets<'_>, windows: &[NamedWindow], over: usize) -> Option<Site>
    ensures { IfSome result (IsCallSite brackets.entry.tokens.now) }
{
    let first = brackets.partner(over.checked_sub(1)?).checked_sub(1)?;
    let window = over.checked_add(1)?;
    let last = brackets.partner(window);
    if first >= over || over >= last || !is_over(brackets, over) {
        return None;
    }
    let span = span_from(brackets.tokens, first, last)?;
    let key = match brackets.terminal(window) {
        Some(Terminal::LeftBracket) => window_key(brackets, windows, window),
        _ => named_key(brackets, windows, window),
    };
    Some(Site { span, key })
}

/// Whether the token with this number is the word OVER.
fn is_over(brackets: Brackets<'_>, number: usize) -> bool
    ensures { IsTrue result → IsTerminalAt brackets.entry.tokens.now number m.Over }
{
    match brackets.terminal(number) {
        Some(Terminal::Over) => true,
        _ => false,
    }
}

/// Where a key can be added to the window whose name is the token with this number.
fn named_key(brackets: Brackets<'_>, windows: &[NamedWindow], name: usize) -> Option<KeyPlace>
    ensures { IfSome result (IsKeyPlace brackets.entry.tokens.now) }
{
    window_key(brackets, windows, window_named(brackets, windows, name)?)
}

/// The left bracket of the window of a WINDOW clause whose name is that of the token with this number.
fn window_named(brackets: Brackets<'_>, windows: &[NamedWindow], name: usize) -> Option<usize> {
    let wanted = brackets.name(name)?;
    for window in windows {
        if let Some(name) = brackets.name(window.name) {
            if name == wanted {
                return Some(window.open);
            }
        }
    }
    None
}

/// Where a key can be added to the window that this bracket opens, or to the window whose ORDER BY it copies.
fn window_key(brackets: Brackets<'_>, windows: &[NamedWindow], open: usize) -> Option<KeyPlace>
    ensures { IfSome result (IsKeyPlace brackets.entry.tokens.now) }
{
    let own = own_key(brackets, open)?;
    let mut key = own;
    let mut base = open;
    for _ in windows {
        if key.order.is_some() {
            return Some(key);
        }
        match window_named(brackets, windows, base.saturating_add(1)) {
            Some(next) => base = next,
            None => return Some(own),
        }
        key = own_key(brackets, base)?;
    }
    Some(if key.order.is_some() { key } else { own })
}

/// Where a key can be added within the brackets of a window: before its frame.
fn own_key(brackets: Brackets<'_>, open: usize) -> Option<KeyPlace>
    ensures { IfSome result (IsKeyPlace brackets.entry.tokens.now) }
{
    let close = brackets.partner(open);
    let mut order = None;
    let mut end = close;
    let mut next = open.saturating_add(1);
    for number in next..close {
        if number < next {
            continue;
        }
        match brackets.terminal(number) {
            Some(Terminal::LeftBracket) => next = brackets.partner(number),
            Some(Terminal::Order) => order = order.or(Some(number)),
            Some(Terminal::Rows) | Some(Terminal::Range) | Some(Terminal::Groups) => {
                end = end.min(number);
            }
            _ => {}
        }
    }
    key_after(brackets.tokens, order, end.checked_sub(1)?)
}

/// The place for a key after a token, and the beginning of its ORDER BY, if there is one.
fn key_after(tokens: &[Token], order: Option<usize>, last: usize) -> Option<KeyPlace>
    ensures { IfSome result (IsKeyPlace tokens.now) }
{
    let at = end_of(tokens, last)?;
    match order {
        Some(first) => {
            let span = span_from(tokens, first, last)?;
            Some(KeyPlace {
                at,
                order: Some(span.start),
            })
        }
        None => Some(KeyPlace { at, order: None }),
    }
}

/// The site of a select's ORDER BY and limits.
fn limit_site(brackets: Brackets<'_>, outline: &Outline) -> Option<Site>
    ensures { IfSome result (IsSite brackets.entry.tokens.now) }
{
    let end = outline.range.end;
    let last = end.checked_sub(1)?;
    let limits = outline.limits.unwrap_or(end);
    let first = outline.order.unwrap_or(limits);
    let span = span_from(brackets.tokens, first, last)?;
    let key = key_after(brackets.tokens, outline.order, limits.checked_sub(1)?);
    Some(Site { span, key })
}
