//! What the expressions of a select list need of the rows below them, and the columns of their references there.
//!
//! `ProjectedInputs` is passed by value and returned, so that an error drops it.

ghost use Rattle.std.specs.Prelude.{◌≡◌, ◌+◌, ◌≤◌, false, [], ◌∷◌, map, length, nat_lt, option_map, IfOk};
ghost use Rattle.wd_resolve_operand.specs.BoundExpressions.{references};
ghost use Rattle.wd_resolve_call.specs.References.{bound_expression_of, reference_of};
ghost use Rattle.wd_resolve_call.specs.Rows.{row_expression_of, row_reference_of};
ghost use Rattle.wd_resolve_list.specs.Grouping.{below_of};
ghost use Rattle.wd_resolve_list.specs.SelectLists.{all_references, grouped_by_of, is_window_wide, projected_shown, projected_with, no_projected, shared_call};
ghost use Rattle.wd_resolve_list.specs.SelectLists as spec;
ghost use Rattle.wd_resolve_list.specs.Outputs.{expressions_of, output_of};

use crate::below::Below;
use crate::calls::{add_call, call_number};
use crate::grouping::GroupedBy;
use crate::groups::{add_group_call, add_groups_read, add_having, share_calls};
use crate::inputs::{add_input, add_read, reference_number};
use crate::output::Output;
use crate::places::{column_of_from, group_place};
use std::alloc::Global;
use std::rc::Rc;
use wd_resolve_operand::{BoundExpression, references_of};
use wd_resolve_scope::{GroupCall, MOST_COLUMNS, RowReference, SelectReference, WindowCall};
use wd_value::OutOfMemory;

/// The distinct window calls, the distinct expressions that the Map below a Window shows, and the distinct calls over groups, in order of
/// first use. A function that adds to them takes them by value: where memory runs out they are dropped.
#[derive(Drop)]
pub struct ProjectedInputs {
    pub calls: Vec<WindowCall>,
    pub inputs: Vec<BoundExpression<RowReference>>,
    pub groups: Vec<Rc<GroupCall>>,
}

impl ProjectedInputs {
    /// Empty projected inputs.
    pub fn new(alloc: Global) -> ProjectedInputs
        ensures { projected_shown result ≡ no_projected }
    {
        ProjectedInputs {
            calls: Vec::new(alloc),
            inputs: Vec::new(alloc),
            groups: Vec::new(alloc),
        }
    }

    /// Adds a reference: a column itself, or a call and what it reads.
    fn add_reference(
        &mut self,
        alloc: Global,
        reference: &SelectReference,
    ) -> Result<(), OutOfMemory>
        ensures { IfOk result (λ u. projected_shown self.new ≡ projected_with (projected_shown self.old) (reference_of reference.now ∷ [])) }
    {
        match reference {
            SelectReference::Row(reference) => {
                add_group_call(&mut self.groups, reference)?;
                add_input(
                    alloc,
                    &mut self.inputs,
                    &BoundExpression::Reference(reference.copy()?),
                )
            }
            SelectReference::Call(call) => {
                add_groups_read(&mut self.groups, call)?;
                add_call(alloc, &mut self.calls, call)?;
                add_read(alloc, &mut self.inputs, call)
            }
        }
    }

    /// Adds the references of an expression, from left to right.
    #[tactic(auto, using(crate::proofs::FirstMet::calls_added, crate::proofs::FirstMet::inputs_added, crate::proofs::FirstMet::read_added))]
    fn add_references(
        &mut self,
        alloc: Global,
        expression: &BoundExpression<SelectReference>,
    ) -> Result<(), OutOfMemory>
        ensures { IfOk result (λ u. projected_shown self.new ≡ projected_with (projected_shown self.old) (references (bound_expression_of expression.now))) }
    {
        let references = references_of(alloc, expression)?;
        for reference in references.as_slice() {
            self.add_reference(alloc, reference)?;
        }
        Ok(())
    }

    /// Adds the references of outputs.
    #[tactic(auto, using(crate::proofs::FirstMet::calls_added, crate::proofs::FirstMet::inputs_added, crate::proofs::FirstMet::read_added))]
    fn add_each(&mut self, alloc: Global, outputs: &[Output]) -> Result<(), OutOfMemory>
        ensures { IfOk result (λ u. projected_shown self.new ≡ projected_with (projected_shown self.old) (all_references (expressions_of (map output_of outputs.now)))) }
    {
        for output in outputs {
            self.add_references(alloc, &output.expression)?;
        }
        Ok(())
    }

    /// The projected inputs with the references of an expression, from left to right.
    pub fn add(
        mut self,
        alloc: Global,
        expression: &BoundExpression<SelectReference>,
    ) -> Result<ProjectedInputs, OutOfMemory>
        ensures { IfOk result (λ projected. projected_shown projected ≡ projected_with (projected_shown self) (references (bound_expression_of expression.now))) }
    {
        self.add_references(alloc, expression)?;
        Ok(self)
    }

    /// The projected inputs with the references of outputs.
    pub fn add_all(
        mut self,
        alloc: Global,
        outputs: &[Output],
    ) -> Result<ProjectedInputs, OutOfMemory>
        ensures { IfOk result (λ projected. projected_shown projected ≡ projected_with (projected_shown self) (all_references (expressions_of (map output_of outputs.now)))) }
    {
        self.add_each(alloc, outputs)?;
        Ok(self)
    }

    /// Whether the Window has more than 1,024 columns.
    fn is_window_wide(&self) -> bool
        ensures { result ≡ is_window_wide (projected_shown self.now) }
    {
        !self.calls.is_empty() && are_too_many(self.inputs.len(), self.calls.len())
    }

    /// Whether some node has more than 1,024 columns: the Map of the given number of expressions, or what is below it.
    pub fn is_wide(&self, shown: usize, below: &Below) -> bool
        ensures { result ≡ spec.is_wide shown (below_of below.now).grouped (projected_shown self.now) }
    {
        shown > MOST_COLUMNS || self.is_window_wide() || is_group_wide(&below.grouped, &self.groups)
    }

    /// Whether some node has more than 1,024 columns, also with the calls of HAVING.
    pub fn is_wide_with_having(
        &self,
        alloc: Global,
        shown: usize,
        below: &Below,
    ) -> Result<bool, OutOfMemory>
        ensures { IfOk result (λ b. b ≡ spec.is_wide shown (below_of below.now).grouped (spec.with_having (projected_shown self.now) (below_of below.now).having)) }
    {
        if shown > MOST_COLUMNS || self.is_window_wide() {
            return Ok(true);
        }
        let mut groups = share_calls(alloc, &self.groups)?;
        add_having(&mut groups, &below.having)?;
        Ok(is_group_wide(&below.grouped, &groups))
    }

    /// The projected inputs with the calls over groups of HAVING, which is below the windows.
    pub fn add_having(
        mut self,
        having: &Option<BoundExpression<RowReference>>,
    ) -> Result<ProjectedInputs, OutOfMemory>
        ensures { IfOk result (λ projected. projected_shown projected ≡ spec.with_having (projected_shown self) (option_map row_expression_of having.now)) }
    {
        add_having(&mut self.groups, having)?;
        Ok(self)
    }

    /// The column of a reference above a Window.
    fn place_above(&self, reference: &SelectReference) -> u16
        requires { length self.now.inputs.items + length self.now.calls.items ≤ 1024 }
        ensures { result ≡ spec.place_above (projected_shown self.now).inputs (projected_shown self.now).calls (reference_of reference.now) }
    {
        match reference {
            SelectReference::Row(reference) => reference_number(&self.inputs, reference) as u16,
            SelectReference::Call(call) => {
                (self.inputs.len() + call_number(&self.calls, call)) as u16
            }
        }
    }

    /// The column of a reference in the rows below what is shown.
    pub fn place(&self, below: &Below, reference: &SelectReference) -> u16
        requires few_inputs { is_window_wide (projected_shown self.now) ≡ false }
        requires few_groups { spec.is_group_wide (below_of below.now).grouped (projected_shown self.now).groups ≡ false }
        ensures { result ≡ spec.place_in (spec.row_place (below_of below.now).grouped (projected_shown self.now).groups) (projected_shown self.now).inputs (projected_shown self.now).calls (reference_of reference.now) }
    {
        if self.calls.is_empty() {
            match reference {
                SelectReference::Row(reference) => self.row_place(below, reference),
                SelectReference::Call(_) => 0,
            }
        } else {
            self.place_above(reference)
        }
    }

    /// The column of a reference of rows.
    pub fn row_place(&self, below: &Below, reference: &RowReference) -> u16
        requires { spec.is_group_wide (below_of below.now).grouped (projected_shown self.now).groups ≡ false }
        ensures { result ≡ spec.row_place (below_of below.now).grouped (projected_shown self.now).groups (row_reference_of reference.now) }
    {
        match &below.grouped {
            None => column_of_from(reference),
            Some(grouped) => group_place(&grouped.columns, &self.groups, reference),
        }
    }
}

/// Whether the Group has more than 1,024 columns.
pub(crate) fn is_group_wide(grouped: &Option<GroupedBy>, calls: &[Rc<GroupCall>]) -> bool
    ensures { result ≡ spec.is_group_wide (option_map grouped_by_of grouped.now) (map shared_call calls.now) }
{
    match grouped {
        None => false,
        Some(grouped) => are_too_many(grouped.columns.len(), calls.len()),
    }
}

/// Whether a node may not have these numbers of columns and calls.
fn are_too_many(inputs: usize, calls: usize) -> bool
    ensures { result ≡ nat_lt 1024 (inputs + calls) }
{
    calls > MOST_COLUMNS || inputs > MOST_COLUMNS - calls
}
