//! Where the columns of joined rows stand.

ghost use Rattle.std.specs.Prelude.{◌≡◌, ◌+◌, ◌<◌, ◌^◌, ◌++◌, true, All, IfOk, None, OnOk, Some, get_or, map, slice_index_or, if◌then◌else◌};
ghost use Rattle.std.specs.Option.{ForSome};
ghost use Rattle.wd_joined.specs.Joined.{behind};
ghost use Rattle.wd_joined.specs.Needed.{origins_marked};
ghost use Rattle.wd_value.specs.Bags as bags;

use std::alloc::Global;
use wd_column_store::Columns;
use wd_value::OutOfMemory;

/// Where a column of joined rows stands: the number of one of the tables that are joined, and a column of that table.
#[derive(Clone, Copy)]
pub struct Origin {
    pub table: usize,
    pub column: usize,
}

/// A column of joined rows as it is stored: a column of a table, and for each joined row the position of its row there.
#[derive(Clone, Copy)]
pub struct StoredColumn<'a> {
    pub table: &'a Columns,
    pub column: usize,
    pub positions: &'a [u64],
}

/// The first so many columns of the first table.
pub fn own_origins(alloc: Global, width: usize) -> Result<Vec<Option<Origin>>, OutOfMemory>
    ensures { IfOk result (λ v. v.items ≡ map (λ c. Some (record { table = 0; column = c })) (bags.positions width)) }
{
    let mut origins = Vec::with_capacity(alloc, width)?;
    for column in 0..width {
        origins.push(Some(Origin { table: 0, column }))?;
    }
    Ok(origins)
}

/// Those of these columns, in their order; one past the last stands nowhere.
pub fn origins_at(
    alloc: Global,
    origins: &[Option<Origin>],
    columns: &[u64],
) -> Result<Vec<Option<Origin>>, OutOfMemory>
    ensures { IfOk result (λ v. v.items ≡ map (λ c. slice_index_or origins.now c None) columns.now) }
{
    let mut picked = Vec::with_capacity(alloc, columns.len())?;
    for column in columns {
        picked.push(origin_at(origins, *column as usize))?;
    }
    Ok(picked)
}

/// The columns that are marked, and those past the marks; the others stand nowhere.
pub fn marked_origins(
    alloc: Global,
    origins: &[Option<Origin>],
    marks: &[bool],
) -> Result<Vec<Option<Origin>>, OutOfMemory>
    ensures { IfOk result (λ v. v.items ≡ origins_marked marks.now origins.now) }
{
    let mut kept = Vec::with_capacity(alloc, origins.len())?;
    for column in 0..origins.len() {
        kept.push(marked_origin(origins, marks, column))?;
    }
    Ok(kept)
}

/// Where a column stands that is marked or past the marks, and else nowhere.
fn marked_origin(origins: &[Option<Origin>], marks: &[bool], column: usize) -> Option<Origin>
    ensures { result ≡ (if get_or marks.now column true then slice_index_or origins.now column None else None) }
{
    if marks.get(column).copied().unwrap_or(true) {
        origin_at(origins, column)
    } else {
        None
    }
}

/// Where the column with a number stands, and nowhere past the last.
pub fn origin_at(origins: &[Option<Origin>], column: usize) -> Option<Origin>
    ensures { result ≡ slice_index_or origins.now column None }
{
    if column < origins.len() {
        origins[column]
    } else {
        None
    }
}

/// The first columns, and after them the second ones, which stand behind so many further tables.
pub fn appended_behind(
    first: Vec<Option<Origin>>,
    second: &[Option<Origin>],
    count: usize,
) -> Result<Vec<Option<Origin>>, OutOfMemory>
    requires { All (λ o. ForSome o (λ origin. count + origin.table < 2 ^ 64)) second.now }
    ensures { IfOk result (λ v. v.items ≡ first.items ++ map (behind count) second.now) }
{
    let mut all = first;
    for origin in second {
        all.push(one_behind(*origin, count))?;
    }
    Ok(all)
}

fn one_behind(origin: Option<Origin>, count: usize) -> Option<Origin>
    requires { ForSome origin (λ o. count + o.table < 2 ^ 64) }
    ensures { result ≡ behind count origin }
{
    match origin {
        Some(Origin { table, column }) => Some(Origin {
            table: count + table,
            column,
        }),
        None => None,
    }
}
