//! What a plan gives, however its rows are kept.

ghost use Rattle.std.specs.Prelude.{◌≡◌, IfOk, Ok};
ghost use Rattle.wd_nodes.specs.Relation.{relation_or_fault_of};
ghost use Rattle.wd_plan.specs.Outcomes.{outcome_of};

use std::alloc::Global;
use std::marker::Model;
use wd_columns::{OwnRows, RowSource};
use wd_nodes::{Relation, Tables, into_own_rows, store};
use wd_plan::Outcome;
use wd_value::{Fault, OutOfMemory};

/// What a plan gives. Contracts see its rows, or its fault.
#[derive(Drop)]
pub struct Answer {
    kept: Result<OwnRows, Fault>,
}

impl Model for Answer {
    ghost use Rattle.wd_plan.specs.Outcomes.{RowsOrFault};

    ghost Value = { RowsOrFault };

    ghost view = { λ a. a.kept };
}

impl Answer {
    /// These rows.
    pub fn of_rows(rows: OwnRows) -> Answer
        ensures { result ≡ Ok rows }
    {
        Answer { kept: Ok(rows) }
    }

    /// The rows, or the fault.
    pub fn rows(&self) -> Result<RowSource<'_>, Fault>
        ensures { result ≡ self.now }
    {
        rows_in(&self.kept)
    }

    /// The rows as a list, or the fault. Values are moved.
    pub fn into_outcome(self, alloc: Global) -> Result<Outcome, OutOfMemory>
        ensures { IfOk result (λ o. outcome_of o ≡ self) }
    {
        let Answer { kept } = self;
        listed(alloc, kept)
    }
}

fn rows_in(kept: &Result<OwnRows, Fault>) -> Result<RowSource<'_>, Fault>
    ensures { result ≡ kept.now }
{
    match kept {
        Ok(rows) => Ok(rows.source()),
        Err(fault) => Err(*fault),
    }
}

/// The rows as a list, or the fault. Values are moved.
pub(crate) fn listed(alloc: Global, kept: Result<OwnRows, Fault>) -> Result<Outcome, OutOfMemory>
    ensures { IfOk result (λ o. outcome_of o ≡ kept) }
{
    match kept {
        Ok(rows) => {
            let list = rows.into_list(alloc)?;
            Ok(Outcome::Rows(list))
        }
        Err(fault) => Ok(Outcome::Fault(fault)),
    }
}

/// What is produced as an answer, its rows kept as they are.
pub(crate) fn answer_of(
    alloc: Global,
    tables: &Tables,
    given: Result<Relation, Fault>,
) -> Result<Answer, OutOfMemory>
    ensures { IfOk result (λ a. a ≡ relation_or_fault_of tables.now given) }
{
    match given {
        Ok(relation) => {
            let stored = store(alloc, tables, relation)?;
            let rows = into_own_rows(alloc, tables, stored)?;
            Ok(Answer { kept: Ok(rows) })
        }
        Err(fault) => Ok(Answer { kept: Err(fault) }),
    }
}
