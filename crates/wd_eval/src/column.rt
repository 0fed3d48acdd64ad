//! The values of a call at all rows, one partition after another.

ghost use Rattle.std.specs.Prelude.{◌<◌, IfOk, OnOk, length};
ghost use Rattle.wd_plan.specs.Plans.{NameBelow, WindowRule, window_of};
ghost use Rattle.wd_eval.specs.Columns.{AreColumns, AreFilled, FillsNext, IsColumn};
ghost use Rattle.wd_eval.specs.ClassIndexes.{AreAskedBy, WhereIndexed, WhereClassIndex, asks_keys};

use crate::class_index::ClassIndex;
use std::alloc::Global;
use wd_calls::{CallColumn, Partition, put_values};
use wd_columns::RowSource;
use wd_frame::Part;
use wd_plan::{Call, Window};
use wd_value::OutOfMemory;

/// The column of each call.
pub(crate) fn call_columns(
    alloc: Global,
    window: &Window,
    rows: &RowSource,
    indexes: &[ClassIndex],
) -> Result<Vec<CallColumn>, OutOfMemory>
    requires { NameBelow (length indexes.now) (window_of window.now).calls }
    ensures { let w = window_of window.now in IfOk result (λ v. WhereIndexed w rows.now indexes.now (λ orderings. AreColumns w rows.now orderings v.items)) }
{
    let mut columns = Vec::with_capacity(alloc, window.calls.len())?;
    for call in &window.calls {
        let column = call_column(alloc, call, rows, indexes)?;
        columns.push(column)?;
    }
    Ok(columns)
}

/// The column of a call, under its class.
fn call_column(
    alloc: Global,
    call: &Call,
    rows: &RowSource,
    indexes: &[ClassIndex],
) -> Result<CallColumn, OutOfMemory>
    requires { call.now.class < length indexes.now }
    ensures { IfOk result (λ v. (w : WindowRule) → AreAskedBy call.now.frame (asks_keys w call.now.class) → WhereIndexed w rows.now indexes.now (λ orderings. IsColumn w rows.now orderings call.now v)) }
{
    let column = column_of(alloc, call, rows, &indexes[call.class as usize])?;
    Ok(column)
}

/// The values of a call at all rows.
pub(crate) fn column_of(
    alloc: Global,
    call: &Call,
    rows: &RowSource,
    class_index: &ClassIndex,
) -> Result<CallColumn, OutOfMemory>
    ensures { IfOk result (λ v. WhereClassIndex call.now.frame rows.now class_index.now (λ class ordering. AreFilled class call.now rows.now ordering (length rows.now) v)) }
{
    let mut column = CallColumn::blank(alloc, rows.len())?;
    for position in 0..rows.len() {
        fill(alloc, call, rows, class_index, position, &mut column)?;
    }
    Ok(column)
}

/// Puts the values of the partition whose first row stands at this position in the column. Another
/// row's position changes nothing.
fn fill(
    alloc: Global,
    call: &Call,
    rows: &RowSource,
    class_index: &ClassIndex,
    position: usize,
    column: &mut CallColumn,
) -> Result<(), OutOfMemory>
    requires { position < length rows.now }
    ensures { OnOk result (WhereClassIndex call.now.frame rows.now class_index.now (λ class ordering. FillsNext class call.now rows.now ordering position column.old column.new)) }
{
    match class_index.partitions.member(position) {
        None => Ok(()),
        Some(member) if member.place > 0 => Ok(()),
        Some(member) => {
            let partition = Partition {
                rows,
                positions: member.positions,
            };
            let part = Part {
                groups: member.groups,
                keys: member.numbers,
                desc: class_index.desc,
            };
            put_values(alloc, call, &partition, &part, column)
        }
    }
}
