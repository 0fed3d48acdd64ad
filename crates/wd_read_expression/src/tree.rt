//! Trees of the parts that were read.

ghost use Rattle.std.specs.Prelude.{◌≡◌, map};
ghost use Rattle.wd_syntax.specs.Tree.{Tree, trees_of, arms_of, keys_of, window};
ghost use Rattle.wd_syntax.specs.View.{view, view_link, chained, tested, view_arm, view_key, view_window, view_over_option, view_else_option};
ghost use Rattle.wd_read_expression.specs.Reading.{call_of};
ghost use Rattle.wd_read_cursor.specs.Given.{MayRead};
ghost use Rattle.wd_read_expression.specs.Given.{view_arguments};

use std::alloc::Global;
use wd_read_cursor::Refusal;
use wd_syntax::{Arm, Expr, Frame, Link, Name, Over, SortKey, Window};

// A Vec inside the tree is a list of its elements there: `link`, `call_of`, `case_of` and `window_of` say once what it holds.
fn link(first: Box<Expr>, before: Vec<Link>, last: Box<Link>) -> Expr
    ensures { view result ≡ Tree.Binary last.value.operator (chained (view first.value) (map view_link before.items)) (view last.value.operand) }
{
    Expr::Chain(first, before, last)
}

/// The first operand, with the links of its chain if there are any.
#[tactic(auto, using(crate::proofs::Loops::chained_last))]
pub fn chain_of(alloc: Global, first: Box<Expr>, mut links: Vec<Link>) -> Result<Box<Expr>, Refusal>
    ensures { MayRead (λ b. view b.value) result (chained (view first.value) (map view_link links.items)) }
{
    match links.pop() {
        Some(last) => {
            let last = Box::new(alloc, last)?;
            Ok(Box::new(alloc, link(first, links, last))?)
        }
        None => Ok(first),
    }
}

/// The operand, with its tests for NULL if there are any.
#[tactic(auto, using(crate::proofs::Loops::tested_last))]
pub fn tests_of(
    alloc: Global,
    operand: Box<Expr>,
    mut nots: Vec<bool>,
) -> Result<Box<Expr>, Refusal>
    ensures { MayRead (λ b. view b.value) result (tested (view operand.value) nots.items) }
{
    match nots.pop() {
        Some(last) => Ok(Box::new(alloc, Expr::Tests(operand, nots, last))?),
        None => Ok(operand),
    }
}

/// A call; `None` for the arguments stands for `*`.
pub fn call_of(name: Name, arguments: Option<Vec<Expr>>, over: Option<Box<Over>>) -> Expr
    ensures { view result ≡ call_of name (view_arguments arguments) (view_over_option over) }
{
    match arguments {
        Some(arguments) => Expr::Call(name, arguments, over),
        None => Expr::CallAll(name, over),
    }
}

pub fn case_of(arms: Vec<Arm>, other: Option<Box<Expr>>) -> Expr
    ensures { view result ≡ Tree.Case (arms_of (map view_arm arms.items)) (view_else_option other) }
{
    Expr::Case(arms, other)
}

pub fn window_of(
    base: Option<Name>,
    partition: Vec<Expr>,
    order: Vec<SortKey>,
    frame: Option<Frame>,
) -> Window
    ensures { view_window result ≡ window base (trees_of (map view partition.items)) (keys_of (map view_key order.items)) frame }
{
    Window {
        base,
        partition,
        order,
        frame,
    }
}
