//! The parts of expressions and windows.

use crate::part::{Neutral, Walk};
use wd_syntax::{Arm, Exclusion, Expr, Extent, Frame, Link, Over, SortKey, Window};
use wd_value::OutOfMemory;

/// Whether an expression itself may be the cause of a refusal of this number.
fn is_wanted(number: u32, tree: &Expr) -> bool {
    match number {
        402 | 403 | 417 | 418 => matches!(tree, Expr::Column(_) | Expr::Qualified(_, _)),
        404 | 405 => true,
        406 => matches!(tree, Expr::Call(_, _, Some(_)) | Expr::CallAll(_, Some(_))),
        416 => matches!(tree, Expr::Call(_, _, None) | Expr::CallAll(_, None)),
        _ => false,
    }
}

/// Whether a frame may be the cause of a refusal of this number.
fn is_of_frame(number: u32) -> bool {
    matches!(number, 404 | 409 | 410 | 411)
}

/// Adds the parts of an expression.
#[cycle(walk)]
pub(crate) fn add_expression(walk: &mut Walk, tree: &Expr) -> Result<(), OutOfMemory> {
    let opened = walk.open(is_wanted(walk.number, tree), walk.at, Neutral::Null)?;
    match tree {
        Expr::Literal(_) | Expr::Column(_) => walk.pass(1),
        Expr::Qualified(_, _) => walk.pass(3),
        Expr::CallAll(_, over) => {
            walk.pass(4);
            add_over(walk, over)?;
        }
        Expr::Call(_, arguments, over) => {
            walk.pass(2);
            add_expressions(walk, arguments)?;
            walk.pass(1);
            add_over(walk, over)?;
        }
        Expr::Case(arms, other) => {
            walk.pass(1);
            add_arms(walk, arms)?;
            add_else(walk, other)?;
            walk.pass(1);
        }
        Expr::Bracket(inner) => {
            walk.pass(1);
            add_expression(walk, inner)?;
            walk.pass(1);
        }
        Expr::Signed(_, inner) | Expr::Not(inner) => {
            walk.pass(1);
            add_expression(walk, inner)?;
        }
        Expr::Compare(_, left, right) => {
            add_expression(walk, left)?;
            walk.pass(1);
            add_expression(walk, right)?;
        }
        Expr::Chain(first, before, last) => {
            add_expression(walk, first)?;
            add_links(walk, before)?;
            walk.pass(1);
            add_expression(walk, &last.operand)?;
        }
        Expr::Tests(inner, before, last) => {
            add_expression(walk, inner)?;
            pass_tests(walk, before);
            walk.pass(test_tokens(*last));
        }
    }
    walk.close(opened);
    Ok(())
}

/// How many tokens a test for NULL has.
fn test_tokens(not: bool) -> usize {
    if not { 3 } else { 2 }
}

/// Passes tests for NULL.
fn pass_tests(walk: &mut Walk, tests: &[bool]) {
    for not in tests {
        walk.pass(test_tokens(*not));
    }
}

/// Adds the parts of expressions with commas between them.
#[cycle(walk)]
fn add_expressions(walk: &mut Walk, trees: &[Expr]) -> Result<(), OutOfMemory> {
    for (number, tree) in trees.iter().enumerate() {
        if number > 0 {
            walk.pass(1);
        }
        add_expression(walk, tree)?;
    }
    Ok(())
}

/// Adds the parts of operands, each after its operator.
#[cycle(walk)]
fn add_links(walk: &mut Walk, links: &[Link]) -> Result<(), OutOfMemory> {
    for link in links {
        walk.pass(1);
        add_expression(walk, &link.operand)?;
    }
    Ok(())
}

/// Adds the parts of the branches of a CASE.
#[cycle(walk)]
fn add_arms(walk: &mut Walk, arms: &[Arm]) -> Result<(), OutOfMemory> {
    for arm in arms {
        walk.pass(1);
        add_expression(walk, &arm.when)?;
        walk.pass(1);
        add_expression(walk, &arm.gives)?;
    }
    Ok(())
}

/// Adds the parts of the operand of ELSE, if it is written.
#[cycle(walk)]
fn add_else(walk: &mut Walk, other: &Option<Box<Expr>>) -> Result<(), OutOfMemory> {
    match other {
        None => Ok(()),
        Some(tree) => {
            walk.pass(1);
            add_expression(walk, tree)
        }
    }
}

/// Adds the parts of what is in OVER, where it is written.
#[cycle(walk)]
fn add_over(walk: &mut Walk, over: &Option<Box<Over>>) -> Result<(), OutOfMemory> {
    let Some(over) = over else {
        return Ok(());
    };
    walk.pass(1);
    match &**over {
        Over::Name(_) => walk.add(walk.number == 407, 1, Neutral::Brackets),
        Over::Window(window) => add_window(walk, window),
    }
}

/// Adds the parts of a window, with its brackets.
#[cycle(walk)]
pub(crate) fn add_window(walk: &mut Walk, window: &Window) -> Result<(), OutOfMemory> {
    let opened = walk.open(walk.number == 408, walk.at, Neutral::Brackets)?;
    walk.pass(1);
    if window.base.is_some() {
        walk.add(walk.number == 407, 1, Neutral::Nothing)?;
    }
    if !window.partition.is_empty() {
        walk.pass(2);
        add_expressions(walk, &window.partition)?;
    }
    if !window.order.is_empty() {
        walk.pass(1);
        add_keys(walk, &window.order)?;
    }
    if let Some(frame) = window.frame {
        walk.add(
            is_of_frame(walk.number),
            frame_tokens(frame),
            Neutral::Nothing,
        )?;
    }
    walk.pass(1);
    walk.close(opened);
    Ok(())
}

/// Adds the parts of a window's sort keys, each after BY or a comma.
#[cycle(walk)]
fn add_keys(walk: &mut Walk, keys: &[SortKey]) -> Result<(), OutOfMemory> {
    for key in keys {
        walk.pass(1);
        add_expression(walk, &key.expr)?;
        pass_direction(walk, key);
    }
    Ok(())
}

/// Passes what follows the expression of a sort key.
pub(crate) fn pass_direction(walk: &mut Walk, key: &SortKey) {
    if key.direction.is_some() {
        walk.pass(1);
    }
    if key.nulls.is_some() {
        walk.pass(2);
    }
}

/// How many tokens a frame has; a bound has two.
fn frame_tokens(frame: Frame) -> usize {
    let extent = match frame.extent {
        Extent::Start(_) => 2,
        Extent::Between(_, _) => 6,
    };
    let exclusion = match frame.exclusion {
        None => 0,
        Some(Exclusion::Group) | Some(Exclusion::Ties) => 2,
        Some(Exclusion::CurrentRow) | Some(Exclusion::NoOthers) => 3,
    };
    1 + extent + exclusion
}
