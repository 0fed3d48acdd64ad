//! Which outputs of a Map copy columns.

ghost use Rattle.std.specs.Prelude.{◌≡◌, ◌<◌, ℕ, Some, length, map, if◌then◌else◌, IfOk};
ghost use Rattle.wd_plan.specs.Expressions.{expression_of};
ghost use Rattle.wd_step_facts.specs.Steps.{copy_from, is_side, side_of};
ghost use Rattle.wd_analyse.specs.Steps.{copy_in};

use indexmap::IndexMap;
use std::alloc::Global;
use wd_plan::Expr;
use wd_value::OutOfMemory;

/// For each column that is copied, the lowest of the outputs that copy it.
#[derive(Drop)]
pub(crate) struct Copies {
    lowest: IndexMap<u16, u16>,
}

impl Copies {
    /// The copies among these outputs.
    pub(crate) fn new(alloc: Global, outputs: &[Expr]) -> Result<Copies, OutOfMemory>
        requires { length outputs.now < 65536 }
        ensures { IfOk result (λ copies. (c : ℕ) → copy_in copies c ≡ copy_from 0 (map expression_of outputs.now) c) }
    {
        let mut copies = Copies {
            lowest: IndexMap::new(alloc),
        };
        for number in (0..outputs.len()).rev() {
            copies.put(&outputs[number], number as u16)?;
        }
        Ok(copies)
    }

    /// Puts an output before those that are there: it replaces a later copy of the same column.
    fn put(&mut self, output: &Expr, number: u16) -> Result<(), OutOfMemory>
        ensures { IfOk result (λ _. (c : ℕ) → copy_in self.new c ≡ if is_side c (side_of (expression_of output.now)) then Some number else copy_in self.old c) }
    {
        if let Expr::Column(column) = output {
            self.lowest.insert(*column, number)?;
        }
        Ok(())
    }

    /// The lowest of the outputs that copy a column.
    pub(crate) fn get(&self, column: u16) -> Option<u16>
        ensures { result ≡ copy_in self.now column }
    {
        self.lowest.get(&column).copied()
    }
}
