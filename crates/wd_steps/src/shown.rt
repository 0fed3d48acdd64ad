//! Outputs that are columns.

ghost use Rattle.std.specs.List.{list_all};
ghost use Rattle.std.specs.Prelude.{◌≡◌, IfNone, IfOk, IfSome, false, map};
ghost use Rattle.wd_plan.specs.Expressions.{Column, expression_of};
ghost use Rattle.wd_steps.specs.Selections.{is_column};

use std::alloc::Global;
use wd_plan::Expr;
use wd_value::OutOfMemory;

/// The columns that the outputs are; none where one of them is no column.
pub fn shown_columns(alloc: Global, outputs: &[Expr]) -> Result<Option<Vec<u64>>, OutOfMemory>
    ensures columns { IfOk result (λ o. IfSome o (λ v. map expression_of outputs.now ≡ map Column v.items)) }
    ensures none { IfOk result (λ o. IfNone o (list_all is_column (map expression_of outputs.now) ≡ false)) }
{
    let mut columns = Vec::with_capacity(alloc, outputs.len())?;
    for output in outputs {
        match output {
            Expr::Column(column) => columns.push(u64::from(*column))?,
            _ => return Ok(None),
        }
    }
    Ok(Some(columns))
}
