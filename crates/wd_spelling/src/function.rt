//! The words of functions.

use crate::literal::literal;
use crate::spell::name_of;
use std::alloc::Global;
use std::fmt::Write;
use wd_plan::{Aggregate, FrameFunction, FrameRow, Function, FunctionName, Ranking, Shift};
use wd_value::{OutOfMemory, Text, Value};

/// The most bytes of an argument's name.
const MOST: usize = 80;

/// The name of a function in SQL.
pub(crate) fn function_word(name: FunctionName) -> &'static str {
    match name {
        FunctionName::RowNumber => "ROW_NUMBER",
        FunctionName::Rank => "RANK",
        FunctionName::DenseRank => "DENSE_RANK",
        FunctionName::Ntile => "NTILE",
        FunctionName::Lag => "LAG",
        FunctionName::Lead => "LEAD",
        FunctionName::FirstValue => "FIRST_VALUE",
        FunctionName::LastValue => "LAST_VALUE",
        FunctionName::NthValue => "NTH_VALUE",
        FunctionName::Count => "COUNT",
        FunctionName::Sum => "SUM",
        FunctionName::Min => "MIN",
        FunctionName::Max => "MAX",
    }
}

/// A call of a function over columns of these names, without its OVER.
pub fn call_text(
    alloc: Global,
    names: &[Text],
    function: &Function,
) -> Result<String, OutOfMemory> {
    let mut text = String::from_str(alloc, function_word(function.name()))?;
    text.push('(')?;
    if let Some(column) = function.argument() {
        text.push_str(short(name_of(names, column)))?;
    }
    add_others(alloc, &mut text, function)?;
    text.push(')')?;
    Ok(text)
}

/// A name between the brackets of a call, without its own brackets; or dots in place of one that has grown long, as the call of a call
/// does.
fn short(name: &str) -> &str {
    if name.len() > MOST {
        return "..";
    }
    match name.strip_prefix('(') {
        Some(rest) => rest.strip_suffix(')').unwrap_or(name),
        None => name,
    }
}

/// Adds the arguments of a call that are not columns.
fn add_others(alloc: Global, text: &mut String, function: &Function) -> Result<(), OutOfMemory> {
    match function {
        Function::Ranking(Ranking::Ntile(buckets)) => Ok(write!(text, "{buckets}")?),
        Function::Shift(shift) => add_shift(alloc, text, shift),
        Function::OfFrame(FrameFunction::ValueAt(FrameRow::Nth(number), _)) => {
            Ok(write!(text, ", {number}")?)
        }
        Function::OfFrame(FrameFunction::Aggregate(Aggregate::CountRows)) => { Ok(text.push('*')?) }
        Function::Ranking(Ranking::RowNumber | Ranking::Rank | Ranking::DenseRank)
        | Function::OfFrame(FrameFunction::ValueAt(FrameRow::First | FrameRow::Last, _))
        | Function::OfFrame(
            FrameFunction::Aggregate(
                Aggregate::Count(_) | Aggregate::Sum(_) | Aggregate::Min(_) | Aggregate::Max(_),
            ),
        ) => Ok(()),
    }
}

/// Adds how many rows away a value is, and the default; both only where they are not one row and NULL.
fn add_shift(alloc: Global, text: &mut String, shift: &Shift) -> Result<(), OutOfMemory> {
    let offset = shift.offset;
    match (offset, &shift.default) {
        (1, Value::Null) => Ok(()),
        (_, Value::Null) => Ok(write!(text, ", {offset}")?),
        (_, default) => {
            let word = literal(alloc, default)?;
            Ok(write!(text, ", {offset}, {word}")?)
        }
    }
}
