//! Tables, lists of positions and columns that several joined rows share.

ghost use Rattle.std.specs.Prelude.{◌≡◌, IfOk};

use std::alloc::Global;
use std::marker::Model;
use std::rc::Rc;
use wd_column_store::Columns;
use wd_value::OutOfMemory;

/// A table that is shared. Contracts see the list of its rows.
#[derive(Drop)]
pub struct SharedTable {
    columns: Rc<Columns>,
}

impl Model for SharedTable {
    ghost use Rattle.std.specs.Prelude.{List};
    ghost use Rattle.wd_value.specs.Rows.{Row};

    ghost Value = { List Row };

    ghost view = { λ t. t.columns.value };
}

impl SharedTable {
    pub fn new(alloc: Global, columns: Columns) -> Result<SharedTable, OutOfMemory>
        ensures { IfOk result (λ t. t ≡ columns) }
    {
        let columns = Rc::new(alloc, columns)?;
        Ok(SharedTable { columns })
    }

    /// The same table. An error only where no further sharer can be counted.
    pub fn share(&self) -> Result<SharedTable, OutOfMemory>
        ensures { IfOk result (λ t. t ≡ self.now) }
    {
        let columns = self.columns.clone()?;
        Ok(SharedTable { columns })
    }

    pub fn columns(&self) -> &Columns
        ensures { result.now ≡ self.now }
    {
        &self.columns
    }
}

/// A list of positions that is shared. Contracts see the list.
#[derive(Drop)]
pub struct SharedPositions {
    list: Rc<Vec<u64>>,
}

impl Model for SharedPositions {
    ghost use Rattle.std.specs.Prelude.{List, ℕ};

    ghost Value = { List ℕ };

    ghost view = { λ p. p.list.value.items };
}

impl SharedPositions {
    pub fn new(alloc: Global, list: Vec<u64>) -> Result<SharedPositions, OutOfMemory>
        ensures { IfOk result (λ p. p ≡ list.items) }
    {
        let list = Rc::new(alloc, list)?;
        Ok(SharedPositions { list })
    }

    /// The same positions. An error only where no further sharer can be counted.
    pub fn share(&self) -> Result<SharedPositions, OutOfMemory>
        ensures { IfOk result (λ p. p ≡ self.now) }
    {
        let list = self.list.clone()?;
        Ok(SharedPositions { list })
    }

    pub fn list(&self) -> &[u64]
        ensures { result.now ≡ self.now }
    {
        &self.list
    }
}

/// A column that is shared: a column of a table, and for each joined row the position of its row there.
#[derive(Drop)]
pub struct SharedColumn {
    pub table: SharedTable,
    pub column: usize,
    pub positions: SharedPositions,
}
