//! Frames, and window calls over the part that a line has set.

use crate::shown::{push, push_between, push_fault, push_value};
use std::alloc::Global;
use wd_calls::{CallColumn, Partition, put_values};
use wd_cases::Failure;
use wd_cases_notation::{Line, State};
use wd_columns::RowSource;
use wd_frame::members;
use wd_value::{Fault, Value};

/// `members(PLACE) FRAME`
pub fn frame_members(
    alloc: Global,
    state: &State,
    line: Line,
    out: &mut String,
) -> Result<(), Failure> {
    let place = line.word.number(0).ok_or(Failure::NoCase)? as usize;
    let places = members(alloc, &state.part(), &state.stacks.frame, place)?;
    write!(out, "{places:?}")?;
    Ok(())
}

/// `call_values FRAME CALL : POSITIONS`: the values there, and whether one is out of range
pub fn answer(alloc: Global, state: &State, out: &mut String) -> Result<(), Failure> {
    let call = state.stacks.window.calls.first().ok_or(Failure::NoCase)?;
    let source = RowSource::of_rows(state.rows());
    let partition = Partition {
        rows: &source,
        positions: state.ordering(),
    };
    let mut column = CallColumn::blank(alloc, state.rows().len())?;
    put_values(alloc, call, &partition, &state.part(), &mut column)?;
    push_values(out, &column.values, state.ordering())?;
    if column.out_of_range {
        push(out, "; ")?;
        push_fault(out, Fault::OutOfRange)?;
    }
    Ok(())
}

fn push_values(out: &mut String, values: &[Value], positions: &[u64]) -> Result<(), Failure> {
    for (i, position) in positions.iter().enumerate() {
        push_between(out, i, ",")?;
        push_value(out, values.get(*position as usize).unwrap_or(&Value::Null))?;
    }
    push(out, if positions.is_empty() { "-" } else { "" })
}
