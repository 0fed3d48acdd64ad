//! Tables that are moved into a plan's evaluation: those that exactly one Scan of the plan reads.

ghost use Rattle.std.specs.Prelude.{◌≡◌, ◌+◌, ◌≤◌, ℕ, List, [], ◌∷◌, Option, IfOk, drop, nat_eq, reverse};
ghost use Rattle.wd_nodes.specs.Held.{IsHeld, next_moved, read_at};
ghost use Rattle.wd_nodes.specs.Taken.{AreCounted, IsTaken, count_at, one_if};
ghost use Rattle.wd_plan.specs.Plans.{plan_of};
ghost use Rattle.wd_value.specs.Rows.{Row, table_at};

use std::alloc::Global;
use std::marker::Model;
use std::mem::replace;
use wd_columns::Columns;
use wd_plan::Plan;
use wd_value::OutOfMemory;

/// The tables that are moved into a plan's evaluation, which gives each of them to the Scan that reads it. Contracts see it as the
/// list of what is moved in for each Scan that is still to come, in the order of the walk: inputs before the step over them, and left
/// before right.
#[derive(Drop)]
pub struct MovedIn {
    /// The one for the next Scan is the last.
    waiting: Vec<Option<Columns>>,
}

impl Model for MovedIn {
    ghost Value = { List (Option (List Row)) };

    ghost view = { λ m. reverse m.waiting.items };
}

impl MovedIn {
    /// Nothing is moved in: each Scan reads the tables. Takes no memory.
    pub fn nothing(alloc: Global) -> MovedIn
        ensures { result ≡ [] }
    {
        MovedIn {
            waiting: Vec::new(alloc),
        }
    }

    /// What is moved in for the next Scan; `None` where this reads the tables.
    pub fn next(&mut self) -> Option<Columns>
        ensures value { result ≡ next_moved self.old }
        ensures left { self.new ≡ drop 1 self.old }
    {
        match self.waiting.pop() {
            Some(table) => table,
            None => None,
        }
    }

    /// Puts a Scan, with what is moved in for it, before those that are still to come.
    fn put_first(&mut self, table: Option<Columns>) -> Result<(), OutOfMemory>
        ensures { IfOk result (λ o. self.new ≡ table ∷ self.old) }
    {
        self.waiting.push(table)?;
        Ok(())
    }
}

/// Takes each table that exactly one Scan of the plan reads, to be moved into the plan's evaluation, and returns beside these the
/// tables that are left, with an empty one in place of each that was taken. A Scan past the last table takes none. Walks over the
/// plan twice.
///
/// # Errors
/// Where memory runs out.
pub fn take_tables(
    alloc: Global,
    plan: &Plan,
    tables: Vec<Columns>,
) -> Result<(MovedIn, Vec<Columns>), OutOfMemory>
    ensures { IfOk result (λ r. IsHeld (plan_of plan.now) r.1.items r.0 tables.items) }
{
    let mut counts = vec![in alloc; 0u8; tables.len()]?;
    count_scans(plan, &mut counts);
    let mut left = tables;
    let mut moved_in = MovedIn::nothing(alloc);
    take_for_scans(alloc, plan, &counts, &mut left, &mut moved_in)?;
    Ok((moved_in, left))
}

/// Counts, for each table, the Scans of the plan that read it.
fn count_scans(plan: &Plan, counts: &mut Vec<u8>)
    ensures { AreCounted (plan_of plan.now) counts.old.items counts.new.items }
{
    match plan {
        Plan::Scan { table, .. } => count_scan(*table, counts),
        Plan::Join { left, right, .. } => {
            count_scans(left, counts);
            count_scans(right, counts);
        }
        Plan::Filter { input, .. }
        | Plan::Map { input, .. }
        | Plan::Group { input, .. }
        | Plan::Window { input, .. }
        | Plan::Distinct { input }
        | Plan::Limit { input, .. } => count_scans(input, counts),
    }
}

/// Counts a Scan of a table; a count that has no room for it stays as it is.
fn count_scan(table: u16, counts: &mut Vec<u8>)
    ensures { (k : ℕ) → count_at counts.new.items k ≤ 1 → count_at counts.old.items k + one_if (nat_eq table k) ≤ count_at counts.new.items k }
{
    let place = usize::from(table);
    if place < counts.len() {
        counts[place] = counts[place].saturating_add(1);
    }
}

/// Takes the tables whose count is 1 for the Scans of the plan. The last Scan is the first for which this is done, since each goes
/// before those that come after it.
fn take_for_scans(
    alloc: Global,
    plan: &Plan,
    counts: &[u8],
    tables: &mut Vec<Columns>,
    moved_in: &mut MovedIn,
) -> Result<(), OutOfMemory>
    ensures { IfOk result (λ o. IsTaken counts.now (plan_of plan.now) tables.old.items tables.new.items moved_in.old moved_in.new) }
{
    match plan {
        Plan::Scan { table, .. } => {
            let taken = take_for_scan(alloc, *table, counts, tables);
            moved_in.put_first(taken)
        }
        Plan::Join { left, right, .. } => {
            take_for_scans(alloc, right, counts, tables, moved_in)?;
            take_for_scans(alloc, left, counts, tables, moved_in)
        }
        Plan::Filter { input, .. }
        | Plan::Map { input, .. }
        | Plan::Group { input, .. }
        | Plan::Window { input, .. }
        | Plan::Distinct { input }
        | Plan::Limit { input, .. } => take_for_scans(alloc, input, counts, tables, moved_in),
    }
}

/// Takes the table of a Scan where its count is 1; `None` where it stays.
fn take_for_scan(
    alloc: Global,
    table: u16,
    counts: &[u8],
    tables: &mut Vec<Columns>,
) -> Option<Columns>
    ensures read { read_at tables.new.items result table ≡ table_at tables.old.items table }
    ensures others { (k : ℕ) → (count_at counts.now k ≡ 1 → k ≡ table → ⊥) → table_at tables.new.items k ≡ table_at tables.old.items k }
{
    let place = usize::from(table);
    if place >= tables.len() || place >= counts.len() || counts[place] != 1 {
        return None;
    }
    Some(replace(&mut tables[place], Columns::empty(alloc)))
}
