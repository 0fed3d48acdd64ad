//! The distinct values of a column.

ghost use Rattle.std.specs.Prelude.{◌≡◌, true, false, IfOk, OnOk, Some};
ghost use Rattle.wd_sort.specs.Known.{AreKnown, Keeps, place_in};

use crate::seeded::Seeded;
use std::alloc::Global;
use std::collections::HashMap;
use wd_columns::RowSource;
use wd_value::{OutOfMemory, Value};

/// NULL, the truth values, and then the texts and whole numbers in order of first appearance, with the place of each.
#[derive(Drop)]
pub struct Known<'a> {
    pub values: Vec<&'a Value>,
    texts: HashMap<&'a str, u64, Seeded>,
    wholes: HashMap<i64, u64, Seeded>,
}

impl<'a> Known<'a> {
    /// No text and no whole number of the rows yet. The seed is that of the hashes.
    pub fn new(
        alloc: Global,
        seeded: Seeded,
        rows: &'a RowSource<'_>,
        no: &'a Value,
        yes: &'a Value,
    ) -> Result<Known<'a>, OutOfMemory>
        requires no { no.now ≡ Value.Bool false }
        requires yes { yes.now ≡ Value.Bool true }
        ensures { IfOk result AreKnown }
    {
        let values = [rows.null(), no, yes].to_vec(alloc)?;
        Ok(Known {
            values,
            texts: HashMap::with_hasher(alloc, seeded),
            wholes: HashMap::with_hasher(alloc, seeded),
        })
    }

    /// The place of a value, which is added if it is new.
    pub fn number_of(&mut self, value: &'a Value) -> Result<u64, OutOfMemory>
        requires { AreKnown self.old }
        ensures known { OnOk result (AreKnown self.new) }
        ensures kept { OnOk result (Keeps self.old self.new) }
        ensures is { IfOk result (λ n. place_in self.new value.now ≡ Some n) }
    {
        match value {
            Value::Null => Ok(0),
            Value::Bool(false) => Ok(1),
            Value::Bool(true) => Ok(2),
            Value::Int(whole) => self.whole_number(value, *whole),
            Value::Text(text) => self.text_number(value, text.as_str()),
        }
    }

    fn text_number(&mut self, value: &'a Value, text: &'a str) -> Result<u64, OutOfMemory>
        requires known { AreKnown self.old }
        requires text { value.now ≡ Value.Text text.now }
        ensures known { OnOk result (AreKnown self.new) }
        ensures kept { OnOk result (Keeps self.old self.new) }
        ensures is { IfOk result (λ n. place_in self.new value.now ≡ Some n) }
    {
        match self.texts.get(&text).copied() {
            Some(number) => Ok(number),
            None => {
                let number = self.values.len() as u64;
                self.values.push(value)?;
                self.texts.insert(text, number)?;
                Ok(number)
            }
        }
    }

    fn whole_number(&mut self, value: &'a Value, whole: i64) -> Result<u64, OutOfMemory>
        requires known { AreKnown self.old }
        requires whole { value.now ≡ Value.Int whole }
        ensures known { OnOk result (AreKnown self.new) }
        ensures kept { OnOk result (Keeps self.old self.new) }
        ensures is { IfOk result (λ n. place_in self.new value.now ≡ Some n) }
    {
        match self.wholes.get(&whole).copied() {
            Some(number) => Ok(number),
            None => {
                let number = self.values.len() as u64;
                self.values.push(value)?;
                self.wholes.insert(whole, number)?;
                Ok(number)
            }
        }
    }
}
