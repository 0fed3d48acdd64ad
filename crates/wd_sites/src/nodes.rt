//! The Windows and the Limits of a plan, by the numbers of their nodes.

use std::alloc::Global;
use wd_plan::{Expr, Plan};
use wd_value::OutOfMemory;

/// A Window of a plan.
#[derive(Drop)]
pub(crate) struct WindowNode {
    pub(crate) node: u64,
    /// The numbers of the calls that the select list shows, in the order of the list.
    pub(crate) shown: Vec<u32>,
}

/// The Windows and the Limits of a plan, each in postorder.
#[derive(Drop)]
pub(crate) struct PlanNodes {
    pub(crate) windows: Vec<WindowNode>,
    pub(crate) limits: Vec<u64>,
}

/// The Windows and the Limits of a plan.
pub(crate) fn plan_nodes(alloc: Global, plan: &Plan) -> Result<PlanNodes, OutOfMemory> {
    let mut found = PlanNodes {
        windows: Vec::new(alloc),
        limits: Vec::new(alloc),
    };
    let _count = add(alloc, plan, 0, &mut found)?;
    Ok(found)
}

/// Adds the Windows and Limits of a plan whose nodes are numbered from `first` on; the result is the number after them.
fn add(alloc: Global, plan: &Plan, first: u64, found: &mut PlanNodes) -> Result<u64, OutOfMemory> {
    let node = match plan {
        Plan::Scan { .. } => first,
        Plan::Join { left, right, .. } => {
            let middle = add(alloc, left, first, found)?;
            add(alloc, right, middle, found)?
        }
        Plan::Filter { input, .. }
        | Plan::Group { input, .. }
        | Plan::Window { input, .. }
        | Plan::Distinct { input } => add(alloc, input, first, found)?,
        Plan::Map { input, outputs } => {
            let node = add(alloc, input, first, found)?;
            add_window(alloc, input, outputs, node, found)?;
            node
        }
        Plan::Limit { input, .. } => {
            let node = add(alloc, input, first, found)?;
            found.limits.push(node)?;
            node
        }
    };
    Ok(node.saturating_add(1))
}

/// Adds the Window directly below a Map of these outputs; the Window has this number.
fn add_window(
    alloc: Global,
    input: &Plan,
    outputs: &[Expr],
    map: u64,
    found: &mut PlanNodes,
) -> Result<(), OutOfMemory> {
    if let Plan::Window { input, .. } = input {
        let mut shown = Vec::new(alloc);
        let width = input.width() as usize;
        for output in outputs {
            add_shown(output, width, &mut shown)?;
        }
        found.windows.push(WindowNode {
            node: map.saturating_sub(1),
            shown,
        })?;
    }
    Ok(())
}

/// Adds the calls that an expression shows, from left to right: the columns from `width` on.
fn add_shown(expression: &Expr, width: usize, shown: &mut Vec<u32>) -> Result<(), OutOfMemory> {
    match expression {
        Expr::Column(column) => {
            let column = usize::from(*column);
            if column >= width {
                shown.push(u32::try_from(column - width).unwrap_or(u32::MAX))?;
            }
            Ok(())
        }
        Expr::Literal(_, _) => Ok(()),
        Expr::Negate(a) | Expr::Not(a) | Expr::IsNull(a) | Expr::IsNotNull(a) => {
            add_shown(a, width, shown)
        }
        Expr::Arithmetic(_, a, b) => {
            add_shown(a, width, shown)?;
            add_shown(b, width, shown)
        }
        Expr::Compare(_, a, b) => {
            add_shown(a, width, shown)?;
            add_shown(b, width, shown)
        }
        Expr::And(a, b) | Expr::Or(a, b) => {
            add_shown(a, width, shown)?;
            add_shown(b, width, shown)
        }
        Expr::Case(_, condition, gives, rest) => {
            add_shown(condition, width, shown)?;
            add_shown(gives, width, shown)?;
            add_shown(rest, width, shown)
        }
    }
}
