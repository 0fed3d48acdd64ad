//! The tables in which columns of joined rows stand, without the others.

ghost use Rattle.std.specs.Option.{ForSome};
ghost use Rattle.std.specs.Prelude.{◌≡◌, ℕ, ◌<◌, [], None, Some, IfOk, List, OnOk, get_or, length};
ghost use Rattle.wd_joined.specs.Joined.{value_in};
ghost use Rattle.wd_joined.specs.Needed.{AreNeeded, IsMore};
ghost use Rattle.wd_value.specs.Rows.{Row};

use crate::origin::Origin;
use crate::shared::{SharedPositions, SharedTable};
use std::alloc::Global;
use wd_value::OutOfMemory;

/// Some of the tables that are joined, and the positions of the rows in each.
#[derive(Drop)]
pub struct Needed {
    pub tables: Vec<SharedTable>,
    pub positions: Vec<SharedPositions>,
    /// For each table that is joined its number among these, if it is one of them.
    pub numbers: Vec<Option<usize>>,
}

impl Needed {
    /// None of so many tables.
    pub fn none(alloc: Global, count: usize) -> Result<Needed, OutOfMemory>
        ensures tables { IfOk result (λ n. n.tables.items ≡ []) }
        ensures needed { IfOk result (λ n. (tables : List (List Row)) (lists : List (List ℕ)) → length tables ≡ count → AreNeeded tables lists n) }
    {
        let numbers = vec![in alloc; None; count]?;
        Ok(Needed {
            tables: Vec::new(alloc),
            positions: Vec::new(alloc),
            numbers,
        })
    }

    /// Where a column stands in these tables; its own table is added if it is not there yet.
    pub fn origin_of(
        &mut self,
        tables: &[SharedTable],
        positions: &[SharedPositions],
        origin: Option<Origin>,
    ) -> Result<Option<Origin>, OutOfMemory>
        requires needed { AreNeeded tables.now positions.now self.old }
        requires lists { length positions.now ≡ length tables.now }
        requires within { ForSome origin (λ o. o.table < length tables.now) }
        ensures needed { OnOk result (AreNeeded tables.now positions.now self.new) }
        ensures more { OnOk result (IsMore self.old self.new) }
        ensures within { IfOk result (λ placed. ForSome placed (λ o. o.table < length self.new.tables.items)) }
        ensures same { IfOk result (λ placed. (p : ℕ) → value_in self.new.tables.items self.new.positions.items p placed ≡ value_in tables.now positions.now p origin) }
    {
        match origin {
            None => Ok(None),
            Some(Origin { table, column }) => {
                let table = self.number_of(tables, positions, table)?;
                Ok(Some(Origin { table, column }))
            }
        }
    }

    /// The number of a table among these, to which it is added if it is not there yet.
    fn number_of(
        &mut self,
        tables: &[SharedTable],
        positions: &[SharedPositions],
        table: usize,
    ) -> Result<usize, OutOfMemory>
        requires needed { AreNeeded tables.now positions.now self.old }
        requires lists { length positions.now ≡ length tables.now }
        requires within { table < length tables.now }
        ensures needed { OnOk result (AreNeeded tables.now positions.now self.new) }
        ensures more { OnOk result (IsMore self.old self.new) }
        ensures number { IfOk result (λ n. get_or self.new.numbers.items table None ≡ Some n) }
    {
        match self.numbers[table] {
            Some(number) => Ok(number),
            None => {
                let number = self.tables.len();
                self.tables.push(tables[table].share()?)?;
                self.positions.push(positions[table].share()?)?;
                self.numbers[table] = Some(number);
                Ok(number)
            }
        }
    }
}
