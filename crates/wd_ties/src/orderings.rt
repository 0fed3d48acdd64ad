//! The orderings of a plan.

ghost use Rattle.std.specs.Prelude.{◌≡◌, ◌++◌, map, IfOk};
ghost use Rattle.wd_plan.specs.Plans.{class_of, plan_of};
ghost use Rattle.wd_ties.specs.Ordered.{node_columns};
ghost use Rattle.wd_ties.specs.Orderings as spec;

use wd_plan::{Class, Plan};
use wd_value::{OutOfMemory, SortColumn};

/// The columns by which an ordering sorts the rows of a node: those of a partition, and of sort keys.
#[derive(Clone, Copy)]
pub(crate) struct Ordered<'p> {
    pub node: &'p Plan,
    pub partition: &'p [u16],
    pub keys: &'p [SortColumn],
}

/// Appends the orderings of a plan, in the order of a choice.
pub(crate) fn add_orderings<'p>(
    plan: &'p Plan,
    found: &mut Vec<Ordered<'p>>,
) -> Result<(), OutOfMemory>
    ensures { IfOk result (λ _. map node_columns found.new.items ≡ map node_columns found.old.items ++ spec.orderings (plan_of plan.now)) }
{
    match plan {
        Plan::Scan { .. } => Ok(()),
        Plan::Join { left, right, .. } => {
            add_orderings(left, found)?;
            add_orderings(right, found)
        }
        Plan::Filter { input, .. }
        | Plan::Map { input, .. }
        | Plan::Group { input, .. }
        | Plan::Distinct { input } => add_orderings(input, found),
        Plan::Window { input, window } => {
            add_orderings(input, found)?;
            add_classes(input, &window.classes, found)
        }
        Plan::Limit { input, limit } => {
            add_orderings(input, found)?;
            let keys = &limit.keys;
            Ok(found.push(Ordered {
                node: input,
                partition: &[],
                keys,
            })?)
        }
    }
}

/// Appends the orderings of classes over the rows of a node.
fn add_classes<'p>(
    node: &'p Plan,
    classes: &'p [Class],
    found: &mut Vec<Ordered<'p>>,
) -> Result<(), OutOfMemory>
    ensures { IfOk result (λ _. map node_columns found.new.items ≡ map node_columns found.old.items ++ map (spec.of_class (plan_of node.now)) (map class_of classes.now)) }
{
    for class in classes {
        found.push(Ordered {
            node,
            partition: &class.partition,
            keys: &class.order,
        })?;
    }
    Ok(())
}
