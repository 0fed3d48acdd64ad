//! When a select is grouped.

ghost use Rattle.std.specs.Prelude.{◌≡◌, ◌||◌, map};
ghost use Rattle.std.specs.List.{list_any};
ghost use Rattle.wd_syntax.specs.Tree.{trees_of, arms_of, keys_of};
ghost use Rattle.wd_syntax.specs.View.{view, view_arm, view_else_option, view_item, view_key, view_named_window, view_over_option, view_parts, view_window};
ghost use Rattle.wd_resolve_scope.specs.Grouped as spec;

use wd_resolve_call::group_function_named;
use wd_syntax as written;
use wd_syntax::{Arm, Item, Link, Name, NamedWindow, Over, Select, SortKey};

/// Whether an aggregate or GROUPING is in the expression.
#[tactic(auto, using(crate::proofs::GroupCalls::call_has, crate::proofs::GroupCalls::case_has, crate::proofs::GroupCalls::chain_ends_have, crate::proofs::GroupCalls::tests_have))]
#[cycle(has)]
fn has_group_call(tree: &written::Expr) -> bool
    ensures { result ≡ spec.has_group_call (view tree.now) }
{
    match tree {
        written::Expr::Literal(_) | written::Expr::Column(_) | written::Expr::Qualified(_, _) => {
            false
        }
        written::Expr::CallAll(name, over) => is_group_call(name, over) || over_has(over),
        written::Expr::Call(name, arguments, over) => {
            any_of(
                is_group_call(name, over),
                some_has(arguments),
                over_has(over),
            )
        }
        written::Expr::Case(arms, other) => arms_have(arms) || else_has(other),
        written::Expr::Bracket(a) => has_group_call(a),
        written::Expr::Signed(_, a) => has_group_call(a),
        written::Expr::Compare(_, a, b) => has_group_call(a) || has_group_call(b),
        written::Expr::Chain(first, before, last) => {
            any_of(
                has_group_call(first),
                links_have(before),
                has_group_call(&last.operand),
            )
        }
        written::Expr::Tests(a, _, _) => has_group_call(a),
        written::Expr::Not(a) => has_group_call(a),
    }
}

/// Whether a call is an aggregate or GROUPING without OVER, by its name.
#[tactic(auto, using(crate::proofs::GroupCalls::no_group_call))]
fn is_group_call(name: &Name, over: &Option<Box<Over>>) -> bool
    ensures { result ≡ spec.is_group_call name.now (view_over_option over.now) }
{
    match over {
        None => match group_function_named(name.text.as_str()) {
            None => false,
            Some(_) => true,
        },
        Some(_) => false,
    }
}

fn any_of(a: bool, b: bool, c: bool) -> bool
    ensures { result ≡ (a || (b || c)) }
{
    a || b || c
}

#[cycle(has)]
fn some_has(trees: &[written::Expr]) -> bool
    ensures { result ≡ spec.some_has (trees_of (map view trees.now)) }
{
    for tree in trees {
        if has_group_call(tree) {
            return true;
        }
    }
    false
}

#[cycle(has)]
fn links_have(links: &[Link]) -> bool
    ensures { result ≡ list_any (λ link. spec.has_group_call (view link.operand)) links.now }
{
    for link in links {
        if has_group_call(&link.operand) {
            return true;
        }
    }
    false
}

#[cycle(has)]
fn arms_have(arms: &[Arm]) -> bool
    ensures { result ≡ spec.arms_have (arms_of (map view_arm arms.now)) }
{
    for arm in arms {
        if has_group_call(&arm.when) || has_group_call(&arm.gives) {
            return true;
        }
    }
    false
}

#[cycle(has)]
fn else_has(other: &Option<Box<written::Expr>>) -> bool
    ensures { result ≡ spec.else_has (view_else_option other.now) }
{
    match other {
        None => false,
        Some(tree) => has_group_call(tree),
    }
}

#[cycle(has)]
fn over_has(over: &Option<Box<Over>>) -> bool
    ensures { result ≡ spec.over_has (view_over_option over.now) }
{
    let Some(over) = over else {
        return false;
    };
    match &**over {
        Over::Name(_) => false,
        Over::Window(window) => window_has(window),
    }
}

#[tactic(auto, using(crate::proofs::GroupCalls::window_is))]
#[cycle(has)]
fn window_has(window: &written::Window) -> bool
    ensures { result ≡ spec.window_has (view_window window.now) }
{
    let written::Window {
        base: _,
        partition,
        order,
        frame: _,
    } = window;
    some_has(partition) || keys_have(order)
}

#[cycle(has)]
fn keys_have(keys: &[SortKey]) -> bool
    ensures { result ≡ spec.keys_have (keys_of (map view_key keys.now)) }
{
    for key in keys {
        if has_group_call(&key.expr) {
            return true;
        }
    }
    false
}

fn items_have(items: &[Item]) -> bool
    ensures { result ≡ list_any spec.item_has (map view_item items.now) }
{
    for item in items {
        if let Item::Expr(tree, _) = item {
            if has_group_call(tree) {
                return true;
            }
        }
    }
    false
}

fn windows_have(windows: &[NamedWindow]) -> bool
    ensures { result ≡ list_any (λ w. spec.window_has w.1) (map view_named_window windows.now) }
{
    for window in windows {
        if window_has(&window.window) {
            return true;
        }
    }
    false
}

/// Whether a select is grouped: by GROUP BY, by HAVING, or by an aggregate or GROUPING in its select list, its windows or its
/// final sort keys.
pub fn is_grouped(select: &Select) -> bool
    ensures { result ≡ spec.is_grouped (view_parts select.now) }
{
    !select.grouping.items.is_empty()
        || select.grouping.having.is_some()
        || items_have(&select.items)
        || windows_have(&select.windows)
        || keys_have(&select.order)
}
