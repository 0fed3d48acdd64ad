//! Facts made of columns, and copies of facts.

ghost use Rattle.std.specs.Prelude.{◌≡◌, ◌++◌, [], ◌∷◌, map, IfOk, OnErr, OnOk};
ghost use Rattle.wd_step_facts.specs.Facts.{columns_named, fact_of, key_fact};
ghost use Rattle.wd_step_facts.specs.Steps as spec;

use crate::facts::{Given, Member};
use std::alloc::Global;
use wd_value::OutOfMemory;

/// The columns as members.
pub fn members(alloc: Global, columns: &[u16]) -> Result<Vec<Member>, OutOfMemory>
    ensures { IfOk result (λ v. v.items ≡ columns_named columns.now) }
{
    let mut list = Vec::with_capacity(alloc, columns.len())?;
    for column in columns {
        list.push(Member::Column(*column))?;
    }
    Ok(list)
}

/// The fact that the columns determine the row, or a side.
fn key_fact_of(alloc: Global, row: Member, columns: &[u16]) -> Result<Given, OutOfMemory>
    ensures { IfOk result (λ g. fact_of g ≡ key_fact row columns.now) }
{
    let from = members(alloc, columns)?;
    let to = Vec::from_slice(alloc, &[row])?;
    Ok(Given { from, to })
}

/// Appends that the columns determine the row, or a side.
///
/// # Errors
/// Where memory runs out; the list is then unchanged.
pub fn add_key(
    alloc: Global,
    row: Member,
    columns: &[u16],
    list: &mut Vec<Given>,
) -> Result<(), OutOfMemory>
    ensures added { OnOk result (map fact_of list.new.items ≡ map fact_of list.old.items ++ (key_fact row columns.now ∷ [])) }
    ensures kept { OnErr result (list.new.items ≡ list.old.items) }
{
    let fact = key_fact_of(alloc, row, columns)?;
    list.push(fact)?;
    Ok(())
}

/// Appends the gathered facts, all of them or none.
pub fn add_all(mut more: Vec<Given>, list: &mut Vec<Given>) -> Result<(), OutOfMemory>
    ensures added { OnOk result (map fact_of list.new.items ≡ map fact_of list.old.items ++ map fact_of more.items) }
    ensures kept { OnErr result (list.new.items ≡ list.old.items) }
{
    list.append(&mut more)?;
    Ok(())
}

/// Appends that the empty set determines the column.
pub fn add_fixed(alloc: Global, column: u16, list: &mut Vec<Given>) -> Result<(), OutOfMemory>
    ensures { IfOk result (λ _. map fact_of list.new.items ≡ map fact_of list.old.items ++ (spec.fixed_fact column ∷ [])) }
{
    let from = Vec::new(alloc);
    let to = Vec::from_slice(alloc, &[Member::Column(column)])?;
    list.push(Given { from, to })?;
    Ok(())
}

/// Appends that one column determines another.
pub fn add_column_fact(
    alloc: Global,
    column: u16,
    other: u16,
    list: &mut Vec<Given>,
) -> Result<(), OutOfMemory>
    ensures { IfOk result (λ _. map fact_of list.new.items ≡ map fact_of list.old.items ++ (spec.column_fact column other ∷ [])) }
{
    let from = Vec::from_slice(alloc, &[Member::Column(column)])?;
    let to = Vec::from_slice(alloc, &[Member::Column(other)])?;
    list.push(Given { from, to })?;
    Ok(())
}

/// A copy of a fact.
fn copy_fact(alloc: Global, fact: &Given) -> Result<Given, OutOfMemory>
    ensures { IfOk result (λ g. fact_of g ≡ fact_of fact.now) }
{
    let from = Vec::from_slice(alloc, &fact.from)?;
    let to = Vec::from_slice(alloc, &fact.to)?;
    Ok(Given { from, to })
}

/// Copies of facts.
pub fn copied_facts(alloc: Global, facts: &[Given]) -> Result<Vec<Given>, OutOfMemory>
    ensures { IfOk result (λ v. map fact_of v.items ≡ map fact_of facts.now) }
{
    let mut list = Vec::with_capacity(alloc, facts.len())?;
    for fact in facts {
        list.push(copy_fact(alloc, fact)?)?;
    }
    Ok(list)
}

/// The first `count` columns.
#[tactic(auto, using(crate::proofs::Added::columns_more))]
pub fn first_columns(alloc: Global, count: u16) -> Result<Vec<u16>, OutOfMemory>
    ensures { IfOk result (λ v. v.items ≡ spec.all_columns count) }
{
    let mut columns = Vec::with_capacity(alloc, usize::from(count))?;
    for column in 0..count {
        columns.push(column)?;
    }
    Ok(columns)
}
