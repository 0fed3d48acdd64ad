//! Values near a literal, which a comparison with the literal distinguishes.

ghost use Rattle.std.specs.Prelude.{◌≡◌, ◌++◌, ◌+ℤ◌, ◌-ℤ◌, pos, IfOk};
ghost use Rattle.wd_varied.specs.Values as spec;

use std::alloc::Global;
use wd_value::{OutOfMemory, Text, Value};

/// The values near a literal.
pub(crate) fn near(alloc: Global, literal: &Value) -> Result<Vec<Value>, OutOfMemory>
    ensures { IfOk result (λ v. v.items ≡ spec.near literal.now) }
{
    match literal {
        Value::Int(number) => numbers_near(alloc, *number),
        Value::Text(text) => texts_near(alloc, text),
        Value::Null | Value::Bool(_) => Ok(Vec::new(alloc)),
    }
}

/// A number, the next one, twice the number, and the one before.
fn numbers_near(alloc: Global, number: i64) -> Result<Vec<Value>, OutOfMemory>
    ensures { IfOk result (λ v. v.items ≡ spec.numbers_near number) }
{
    let mut near = Vec::new(alloc);
    push_own(number, &mut near)?;
    push_next(number, &mut near)?;
    push_twice_next(number, &mut near)?;
    push_before(number, &mut near)?;
    Ok(near)
}

fn push_own(number: i64, list: &mut Vec<Value>) -> Result<(), OutOfMemory>
    ensures { IfOk result (λ _. list.new.items ≡ list.old.items ++ spec.held number) }
{
    push_held(i128::from(number), list)
}

fn push_next(number: i64, list: &mut Vec<Value>) -> Result<(), OutOfMemory>
    ensures { IfOk result (λ _. list.new.items ≡ list.old.items ++ spec.held (number +ℤ pos 1)) }
{
    push_held(i128::from(number) + 1, list)
}

fn push_twice_next(number: i64, list: &mut Vec<Value>) -> Result<(), OutOfMemory>
    ensures { IfOk result (λ _. list.new.items ≡ list.old.items ++ spec.held ((number +ℤ number) +ℤ pos 2)) }
{
    push_held(i128::from(number) + i128::from(number) + 2, list)
}

fn push_before(number: i64, list: &mut Vec<Value>) -> Result<(), OutOfMemory>
    ensures { IfOk result (λ _. list.new.items ≡ list.old.items ++ spec.held (number -ℤ pos 1)) }
{
    push_held(i128::from(number) - 1, list)
}

/// Appends a number, if 64 bits hold it.
fn push_held(number: i128, list: &mut Vec<Value>) -> Result<(), OutOfMemory>
    ensures { IfOk result (λ _. list.new.items ≡ list.old.items ++ spec.held number) }
{
    if let Ok(number) = i64::try_from(number) {
        list.push(Value::Int(number))?;
    }
    Ok(())
}

/// A text, a longer text that begins with it, and a text that sorts before letters.
fn texts_near(alloc: Global, text: &Text) -> Result<Vec<Value>, OutOfMemory>
    ensures { IfOk result (λ v. v.items ≡ spec.texts_near text.now) }
{
    let mut longer = String::from_str(alloc, text.as_str())?;
    longer.push_str("a")?;
    let mut near = Vec::new(alloc);
    near.push(Value::Text(text.copy()?))?;
    near.push(Value::Text(Text::new(alloc, longer)?))?;
    near.push(Value::Text(Text::from_str(alloc, "0")?))?;
    Ok(near)
}

/// Two values of each type.
pub(crate) fn small(alloc: Global) -> Result<Vec<Value>, OutOfMemory>
    ensures { IfOk result (λ v. v.items ≡ spec.small) }
{
    let mut small = Vec::new(alloc);
    small.push(Value::Int(1))?;
    small.push(Value::Int(2))?;
    small.push(Value::Text(Text::from_str(alloc, "a")?))?;
    small.push(Value::Text(Text::from_str(alloc, "b")?))?;
    small.push(Value::Bool(false))?;
    small.push(Value::Bool(true))?;
    Ok(small)
}
